//! Cases of texts that are written, as text: what the text is over, the calls on it, and what stands once it is taken apart.
ghost use Rattle.std.specs.Prelude.{IfOk};
ghost use Rattle.py_raw_memory.specs.MemRaw.{shown as raw_shown};
ghost use Rattle.py_stream.specs.Opening.{StandsAtStart};

use crate::calls::calls;
use anyhow::{Result, anyhow};
use py_buffered::{BufferedRandom, BufferedReader, BufferedWriter};
use py_flat::{IoFault, Life};
use py_memio::BytesIO;
use py_raw::RawFlags;
use py_raw_memory::MemRaw;
use py_stream::{NewRefused, Whence};
use py_text::{Coder, TextSettings};
use py_text_trials::{
    Apart, Under, coder, faults_of, plan_of, push_apart, push_fault, raw_of, rule, split,
    take_text_apart,
};
use py_textio::TextIOWrapper;
use std::alloc::{AllocError, Global};

/// What a text is made of, and the calls on it.
#[derive(Clone, Copy)]
struct Case<'c> {
    coder: Coder,
    settings: TextSettings,
    over: &'c str,
    size: usize,
    plan: &'c str,
    bytes: &'c str,
    calls: &'c str,
}

/// `ENCODING HANDLER RULE HOW CHUNK OVER SIZE PLAN HEX CALL ..`: `HOW` is `lines`, `through`, `both` or `-`; `OVER` is what the text is
/// over, with a buffer of `SIZE` bytes; `PLAN` is `all` for a raw that moves all that is asked for.
fn parse(line: &str) -> Result<Case<'_>> {
    let (name, rest) = split(line);
    let (errors, rest) = split(rest);
    let (newline, rest) = split(rest);
    let (how, rest) = split(rest);
    let (chunk, rest) = split(rest);
    let (over, rest) = split(rest);
    let (size, rest) = split(rest);
    let (plan, rest) = split(rest);
    let (bytes, calls) = split(rest);
    let (Some(coder), Some(newline)) = (coder(name, errors), rule(newline)) else {
        return Err(anyhow!("no such name"));
    };
    Ok(Case {
        coder,
        settings: TextSettings {
            newline,
            line_buffering: how == "lines" || how == "both",
            write_through: how == "through" || how == "both",
            chunk_size: chunk.parse()?,
        },
        over,
        size: size.parse()?,
        plan,
        bytes,
        calls,
    })
}

fn life_name(life: Life) -> &'static str {
    match life {
        Life::Live => "live",
        Life::Failed => "failed",
        Life::Closed => "closed",
        Life::Detached => "detached",
    }
}

/// Appends what stands in the end: the life of the text, and what it comes to.
fn push_end(alloc: Global, out: &mut String, life: Life, apart: &Apart) -> Result<(), AllocError> {
    out.push_str(if out.is_empty() { "" } else { "; " })?;
    out.push_str(life_name(life))?;
    push_apart(alloc, out, apart)
}

/// Makes the calls on a text, and answers what came and what stands in the end.
fn run_text<B: Under>(alloc: Global, text: TextIOWrapper<B>, words: &str) -> Result<String> {
    let mut text = text;
    let came = calls(alloc, &mut text, words);
    let life = text.life();
    let apart = take_text_apart(alloc, text);
    let mut out = came?;
    let apart = apart?;
    push_end(alloc, &mut out, life, &apart)?;
    Ok(out)
}

/// A refusal of a text that can't be made.
fn refused(alloc: Global, fault: IoFault) -> Result<String> {
    let mut out = String::new(alloc);
    push_fault(alloc, &mut out, fault)?;
    Ok(out)
}

/// Makes the calls on a text that was made, or answers why it wasn't.
fn run_made<B: Under>(
    alloc: Global,
    made: Result<TextIOWrapper<B>, NewRefused<B>>,
    words: &str,
) -> Result<String> {
    match made {
        Ok(text) => run_text(alloc, text, words),
        Err(NewRefused { raw: _, fault }) => refused(alloc, fault),
    }
}

/// The raw of a case.
fn raw(alloc: Global, case: Case<'_>, bytes: &[u8], flags: RawFlags) -> Result<MemRaw, AllocError>
    ensures { IfOk result (λ raw. StandsAtStart (raw_shown raw)) }
{
    raw_of(
        alloc,
        bytes,
        flags,
        plan_of(alloc, case.plan)?,
        faults_of(alloc, case.plan)?,
    )
}

/// Runs a case over a stream in memory.
fn over_memory(alloc: Global, case: Case<'_>, bytes: Vec<u8>) -> Result<String> {
    let buffer = BytesIO::new(alloc, bytes);
    run_made(
        alloc,
        TextIOWrapper::new(alloc, buffer, case.coder, case.settings),
        case.calls,
    )
}

/// Runs a case over a stream in memory of which bytes are lent out.
fn over_lent(alloc: Global, case: Case<'_>, bytes: Vec<u8>) -> Result<String> {
    let mut buffer = BytesIO::new(alloc, bytes);
    buffer.getbuffer()?;
    run_made(
        alloc,
        TextIOWrapper::new(alloc, buffer, case.coder, case.settings),
        case.calls,
    )
}

/// Runs a case over a writer; over one whose raw can't be moved where it is a pipe.
fn over_writer(alloc: Global, case: Case<'_>, bytes: &[u8], is_pipe: bool) -> Result<String> {
    let raw = raw(alloc, case, bytes, RawFlags::able(false, true, !is_pipe))?;
    let buffer = BufferedWriter::new(alloc, raw, case.size)?;
    run_made(
        alloc,
        TextIOWrapper::new(alloc, buffer, case.coder, case.settings),
        case.calls,
    )
}

/// Runs a case over a writer that was closed.
fn over_closed(alloc: Global, case: Case<'_>, bytes: &[u8]) -> Result<String> {
    let raw = raw(alloc, case, bytes, RawFlags::able(false, true, true))?;
    let mut buffer = BufferedWriter::new(alloc, raw, case.size)?;
    buffer.close()?;
    run_made(
        alloc,
        TextIOWrapper::new(alloc, buffer, case.coder, case.settings),
        case.calls,
    )
}

/// Runs a case over a writer that was detached.
fn over_detached(alloc: Global, case: Case<'_>, bytes: &[u8]) -> Result<String> {
    let raw = raw(alloc, case, bytes, RawFlags::able(false, true, true))?;
    let mut buffer = BufferedWriter::new(alloc, raw, case.size)?;
    buffer.detach()?;
    run_made(
        alloc,
        TextIOWrapper::new(alloc, buffer, case.coder, case.settings),
        case.calls,
    )
}

/// Runs a case over a writer that was moved to the byte before the greatest place.
fn over_far(alloc: Global, case: Case<'_>, bytes: &[u8]) -> Result<String> {
    let raw = raw(alloc, case, bytes, RawFlags::able(false, true, true))?;
    let mut buffer = BufferedWriter::new(alloc, raw, case.size)?;
    buffer.seek(i64::MAX - 1, Whence::Start.into())?;
    run_made(
        alloc,
        TextIOWrapper::new(alloc, buffer, case.coder, case.settings),
        case.calls,
    )
}

/// Runs a case over a writer that appends.
fn over_appender(alloc: Global, case: Case<'_>, bytes: &[u8]) -> Result<String> {
    let raw = raw(alloc, case, bytes, RawFlags::able(false, true, true))?;
    let buffer = BufferedWriter::append(alloc, raw, case.size)?;
    run_made(
        alloc,
        TextIOWrapper::new(alloc, buffer, case.coder, case.settings),
        case.calls,
    )
}

/// Runs a case over a stream that is read and written.
fn over_random(alloc: Global, case: Case<'_>, bytes: &[u8]) -> Result<String> {
    let raw = raw(alloc, case, bytes, RawFlags::able(true, true, true))?;
    let buffer = BufferedRandom::new(alloc, raw, case.size)?;
    run_made(
        alloc,
        TextIOWrapper::new(alloc, buffer, case.coder, case.settings),
        case.calls,
    )
}

/// Runs a case over a reader.
fn over_reader(alloc: Global, case: Case<'_>, bytes: &[u8]) -> Result<String> {
    let raw = raw(alloc, case, bytes, RawFlags::able(true, false, true))?;
    let buffer = BufferedReader::new(alloc, raw, case.size)?;
    run_made(
        alloc,
        TextIOWrapper::new(alloc, buffer, case.coder, case.settings),
        case.calls,
    )
}

/// Runs a case, and answers what came as words.
pub(crate) fn run(alloc: Global, line: &str) -> Result<String> {
    let case = parse(line)?;
    let bytes = match case.bytes {
        "-" => Vec::new(alloc),
        word => hex::decode(alloc, word.as_bytes())?,
    };
    match case.over {
        "memory" => over_memory(alloc, case, bytes),
        "lent" => over_lent(alloc, case, bytes),
        "writer" => over_writer(alloc, case, &bytes, false),
        "pipe" => over_writer(alloc, case, &bytes, true),
        "closed" => over_closed(alloc, case, &bytes),
        "detached" => over_detached(alloc, case, &bytes),
        "far" => over_far(alloc, case, &bytes),
        "appender" => over_appender(alloc, case, &bytes),
        "random" => over_random(alloc, case, &bytes),
        "reader" => over_reader(alloc, case, &bytes),
        _ => Err(anyhow!("no such stream")),
    }
}
