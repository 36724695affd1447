//! Runs of the whole program over files, scripts and outputs in memory.

use crate::report::{Report, hex_of};
use anyhow::Result;
use py_case_sessions::{Block, Line, cuts_of};
use py_program::run_program;
use py_raw::{MemSink, MemSource};
use py_raw_memory::MemOpener;

/// A run of the program: what its opener, its source and its sink are like, its words, and the paths that are looked at then.
#[derive(Drop)]
struct ProgramCase<'a> {
    opener: MemOpener,
    words: Vec<String>,
    /// The script, each line with its LF.
    script: Vec<u8>,
    source_faults: Vec<u64>,
    room: usize,
    sink_faults: Vec<u64>,
    paths: Vec<&'a str>,
}

/// Runs the program of a block: its status, what it printed, what the paths hold, and all counts.
pub(crate) fn run_program_block(block: &Block<'_>, report: &mut Report) -> Result<()> {
    let alloc = report.alloc;
    let mut case = ProgramCase {
        opener: MemOpener::new(alloc),
        words: Vec::new(alloc),
        script: Vec::new(alloc),
        source_faults: Vec::new(alloc),
        room: 4000,
        sink_faults: Vec::new(alloc),
        paths: Vec::new(alloc),
    };
    for line in &block.lines {
        take(&mut case, line, report)?;
    }
    // The last line of a script may lack its LF, and does here.
    case.script.pop();
    run(case, report)
}

/// Takes a line of a program's case:
///
/// - `file p hex`: the path p holds these bytes; `look p` only looks at it in the end;
/// - `plan p cuts faults numbers`: what the raws of the path follow;
/// - `words ..`: those of the command line;
/// - `source numbers`: the reads of the script that fail;
/// - `sink n numbers`: the room of the output in bytes, and the writes to it that fail;
/// - `> line`: a line of the script; `times n line`: n equal ones.
fn take<'a>(case: &mut ProgramCase<'a>, line: &Line<'a>, report: &Report) -> Result<()> {
    let alloc = report.alloc;
    let (first, rest) = line.rest.split_once(' ').unwrap_or((line.rest, ""));
    match line.word {
        "file" => {
            case.opener.put(alloc, first, line.bytes(alloc, rest)?)?;
            case.paths.push(first)?;
        }
        "look" => case.paths.push(line.rest)?,
        "plan" => {
            let (cuts, faults) = rest.split_once("faults").unwrap_or((rest, ""));
            let cuts = cuts_of(alloc, line, cuts)?;
            let faults = line.numbers(alloc, faults)?;
            case.opener.with_plan(alloc, first, cuts, faults)?;
        }
        "words" => {
            for word in line.rest.split_whitespace() {
                case.words.push(String::from_str(alloc, word)?)?;
            }
        }
        "source" => case.source_faults = line.numbers(alloc, line.rest)?,
        "sink" => {
            case.room = line.number(first)?;
            case.sink_faults = line.numbers(alloc, rest)?;
        }
        ">" => push_lines(&mut case.script, 1, line.rest)?,
        "times" => push_lines(&mut case.script, line.number(first)?, rest)?,
        _ => return line.malformed(),
    }
    Ok(())
}

fn push_lines(script: &mut Vec<u8>, times: usize, line: &str) -> Result<()> {
    for _ in 0..times {
        script.extend_from_slice(line.as_bytes())?;
        script.push(b'\n')?;
    }
    Ok(())
}

fn run(case: ProgramCase<'_>, report: &mut Report) -> Result<()> {
    let mut opener = case.opener;
    let mut source = MemSource::new(case.script, case.source_faults);
    let mut sink = MemSink::with_room(report.alloc, case.room, case.sink_faults)?;
    let words = case.words.as_slice();
    let status = run_program(report.alloc, words, &mut opener, &mut source, &mut sink);
    report.line(format!(in report.alloc; "status {status}")?.as_str())?;
    report_printed(
        str::from_utf8(sink.written()).unwrap_or("(no UTF-8)"),
        report,
    )?;
    report_paths(&opener, &case.paths, report)?;
    report_counts(&opener, &source, &sink, report)
}

/// Reports what paths hold.
fn report_paths(opener: &MemOpener, paths: &[&str], report: &mut Report) -> Result<()> {
    for path in paths {
        let line = match opener.bytes_at(path) {
            Some(bytes) => {
                let bytes = hex_of(report.alloc, bytes)?;
                format!(in report.alloc; "{path} holds {bytes}")?
            }
            None => format!(in report.alloc; "{path} holds nothing")?,
        };
        report.line(line.as_str())?;
    }
    Ok(())
}

/// Reports how many reads, faults and waits there were.
fn report_counts(
    opener: &MemOpener,
    source: &MemSource,
    sink: &MemSink,
    report: &mut Report,
) -> Result<()> {
    let line = format!(in report.alloc;
        "reads {}, faults of source {}, sink {}, opener {}, raws {}, waits {}",
        source.read_count(),
        source.fault_count(),
        sink.fault_count(),
        opener.fault_count(),
        opener.raw_fault_count(),
        opener.raw_wait_count()
    )?;
    report.line(line.as_str())
}

/// Reports what was printed, each line after `|`; a last one that lacks its end after `:`.
fn report_printed(printed: &str, report: &mut Report) -> Result<()> {
    let (whole, open) = printed.rsplit_once('\n').unwrap_or(("", printed));
    for line in whole.split('\n') {
        if !whole.is_empty() {
            report.line(format!(in report.alloc; "| {line}")?.as_str())?;
        }
    }
    if !open.is_empty() {
        report.line(format!(in report.alloc; ": {open}")?.as_str())?;
    }
    Ok(())
}
