//! Sweeps: a session with variables, run for all their values beside plain code; a table may bound the transfers of its raw.

use crate::beside::{Outcome, run_beside};
use crate::report::Report;
use anyhow::Result;
use py_case_sessions::{Block, Line, SessionCase};
use std::alloc::Global;

/// A variable of a sweep: how it is written, and its values.
#[derive(Drop)]
struct Variable<'a> {
    mark: &'a str,
    values: Vec<String>,
}

/// Runs the session of a block for all values of its variables, and reports how many runs there were, in how many the raw waited,
/// and in how many it failed; or the first run that differs, as a session that can be run by itself.
///
/// A line `for $x a b ..` gives a variable values, of which `m..n` is the numbers from m to before n; in the other lines each value
/// stands for the variable in turn. Lines `most a b ..` say how many transfers the runs may make.
pub(crate) fn run_sweep_block(block: &Block<'_>, report: &mut Report) -> Result<()> {
    let variables = variables_of(report.alloc, block)?;
    let runs = variables.iter().fold(1usize, |runs, variable| {
        runs.saturating_mul(variable.values.len())
    });
    let most = most_of(report.alloc, block, runs)?;
    run_all(block, &variables, &most, runs, report)
}

/// The variables of a sweep.
fn variables_of<'a>(alloc: Global, block: &Block<'a>) -> Result<Vec<Variable<'a>>> {
    let mut variables = Vec::new(alloc);
    for line in block.lines.iter().filter(|line| line.word == "for") {
        variables.push(variable_of(alloc, line)?)?;
    }
    Ok(variables)
}

/// Makes all runs of a sweep, up to one that differs.
fn run_all(
    block: &Block<'_>,
    variables: &[Variable<'_>],
    most: &[u64],
    runs: usize,
    report: &mut Report,
) -> Result<()> {
    let mut waited = 0usize;
    let mut failed = 0usize;
    for number in 0..runs {
        let run = Numbered { number, runs };
        let bound = most.get(number % most.len().max(1));
        let came = run_one(block, variables, run, bound, report)?;
        waited = waited.saturating_add(usize::from(came.waits));
        failed = failed.saturating_add(usize::from(came.fails));
        if came.differs {
            return Ok(());
        }
    }
    let alloc = report.alloc;
    report.line(format!(in alloc; "{runs} runs, {waited} waited, {failed} failed")?.as_str())
}

/// A run of a sweep: its number, and how many runs there are.
#[derive(Clone, Copy)]
struct Numbered {
    number: usize,
    runs: usize,
}

/// What came of a run of a sweep.
#[derive(Clone, Copy)]
struct Came {
    /// Whether its raw waited.
    waits: bool,
    /// Whether its raw failed.
    fails: bool,
    /// Whether something of it isn't as it should be, which is reported.
    differs: bool,
}

/// Makes a run, and reports it where it differs.
fn run_one(
    block: &Block<'_>,
    variables: &[Variable<'_>],
    run: Numbered,
    most: Option<&u64>,
    report: &mut Report,
) -> Result<Came> {
    let texts = texts_of(report.alloc, block, variables, run.number)?;
    let outcome = run_texts(report.alloc, block, &texts)?;
    let (waits, fails) = (outcome.waits > 0, outcome.faults > 0);
    let differs = report_flaw(outcome, most, run, block, &texts, report)?;
    Ok(Came {
        waits,
        fails,
        differs,
    })
}

/// Reports a run in which something isn't as it should be, as a session that can be run by itself. Whether it was reported.
fn report_flaw(
    outcome: Outcome,
    most: Option<&u64>,
    run: Numbered,
    block: &Block<'_>,
    texts: &[String],
    report: &mut Report,
) -> Result<bool> {
    let alloc = report.alloc;
    let Some(what) = flaw_of(alloc, outcome, most)? else {
        return Ok(false);
    };
    let Numbered { number, runs } = run;
    report.line(format!(in alloc; "run {number} of {runs} differs: {what}")?.as_str())?;
    report.line(format!(in alloc; "session {}", block.head.rest)?.as_str())?;
    for text in texts {
        report.line(text.as_str())?;
    }
    Ok(true)
}

/// How many transfers each run may make at most, in the order of the runs: of these the first variable changes first. Fewer numbers
/// than runs begin anew; none bound nothing.
fn most_of(alloc: Global, block: &Block<'_>, runs: usize) -> Result<Vec<u64>> {
    let mut most = Vec::new(alloc);
    for line in block.lines.iter().filter(|line| line.word == "most") {
        most.extend_from_slice(&line.numbers(alloc, line.rest)?)?;
    }
    match runs % most.len().max(1) {
        0 => Ok(most),
        _ => block.head.malformed(),
    }
}

/// What isn't as it should be in a run: what differs from the plain code, or that it made more transfers than it may.
fn flaw_of(alloc: Global, outcome: Outcome, most: Option<&u64>) -> Result<Option<String>> {
    let transfers = outcome.transfers;
    Ok(match most {
        Some(most) if outcome.differs.is_none() && transfers > *most => {
            Some(format!(in alloc; "{transfers} transfers, {most} at most")?)
        }
        _ => outcome.differs,
    })
}

fn variable_of<'a>(alloc: Global, line: &Line<'a>) -> Result<Variable<'a>> {
    let (mark, words) = line.rest.split_once(' ').unwrap_or((line.rest, ""));
    let mut values = Vec::new(alloc);
    for word in words.split_whitespace() {
        match word.split_once("..") {
            Some((from, to)) => {
                for number in line.number(from)?..line.number(to)? {
                    values.push(format!(in alloc; "{number}")?)?;
                }
            }
            None => values.push(String::from_str(alloc, word)?)?,
        }
    }
    Ok(Variable { mark, values })
}

/// Whether a line of a sweep is one of its runs' sessions.
fn is_of_runs(line: &Line<'_>) -> bool {
    !matches!(line.word, "for" | "most")
}

/// The lines of a sweep's run of a number, by the values of the variables.
fn texts_of(
    alloc: Global,
    block: &Block<'_>,
    variables: &[Variable<'_>],
    run: usize,
) -> Result<Vec<String>> {
    let mut texts = Vec::new(alloc);
    for line in block.lines.iter().filter(|line| is_of_runs(line)) {
        let mut text = format!(in alloc; "{} {}", line.word, line.rest)?;
        let mut left = run;
        for variable in variables {
            let count = variable.values.len().max(1);
            if let Some(value) = variable.values.get(left % count) {
                text = replaced(alloc, text.as_str(), variable.mark, value.as_str())?;
            }
            left /= count;
        }
        texts.push(text)?;
    }
    Ok(texts)
}

/// A text with a value wherever a mark stands.
fn replaced(alloc: Global, text: &str, mark: &str, value: &str) -> Result<String> {
    let mut all = String::new(alloc);
    for (index, part) in text.split(mark).enumerate() {
        if index > 0 {
            all.push_str(value)?;
        }
        all.push_str(part)?;
    }
    Ok(all)
}

/// Runs the lines of a sweep, of which each has the number of the line that it is made from.
fn run_texts(alloc: Global, block: &Block<'_>, texts: &[String]) -> Result<Outcome> {
    let mut lines = Vec::new(alloc);
    let made_from = block.lines.iter().filter(|line| is_of_runs(line));
    for (text, line) in texts.iter().zip(made_from) {
        lines.push(Line::new(line.number, text.as_str().trim_end()))?;
    }
    run_beside(
        alloc,
        &SessionCase::parse(alloc, block.head, lines.as_slice())?,
    )
}
