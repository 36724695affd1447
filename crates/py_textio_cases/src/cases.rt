//! Cases of texts that stand as text: a text, and the calls on it.
use anyhow::{Result, anyhow};
use py_buffered::BufferedReader;
use py_flat::IoFault;
use py_memio::BytesIO;
use py_raw::RawFlags;
use py_stream::{BufferedStream, NewRefused};
use py_text::{Coder, Reconfigure, TextSettings};
use py_text_trials::{
    coder, plan_of, push_answer, push_cookie, push_fault, push_sought, raw_of, rule, split,
};
use py_textio::TextIOWrapper;
use std::alloc::Global;

/// Other settings, as `ENCODING,HANDLER,RULE`: a word that is no name of one leaves it.
fn changes(words: &str) -> Reconfigure {
    let (encoding, rest) = words.split_once(',').unwrap_or((words, ""));
    let (errors, newline) = rest.split_once(',').unwrap_or((rest, ""));
    Reconfigure {
        encoding: coder(encoding, "strict").map(|own| own.encoding),
        errors: coder("utf-8", errors).map(|own| own.errors),
        newline: rule(newline),
        line_buffering: None,
        write_through: None,
    }
}

/// Makes a call: `r` of all, `r2` of two characters, `l` of a line, `l2` of at most two characters of one, `c` closes, `tell` asks where the
/// text stands, `seek0,HEX` puts it where a cookie says, by whence 0, and `slatin-1,-,lf` sets the encoding and the rule.
fn call<B: BufferedStream>(
    alloc: Global,
    text: &mut TextIOWrapper<B>,
    word: &str,
    out: &mut String,
) -> Result<()> {
    if word == "tell" {
        return Ok(push_cookie(alloc, out, text.tell())?);
    }
    if let Some(words) = word.strip_prefix("seek") {
        return Ok(push_sought(alloc, out, text, words)?);
    }
    let mut letters = word.chars();
    let kind = letters.next();
    let size = letters.as_str().parse::<usize>().ok();
    let answer = match kind {
        Some('r') => text.read(alloc, size),
        Some('l') => text.readline(alloc, size),
        Some('c') => text.close().map(|_| None),
        Some('s') => text.reconfigure(changes(letters.as_str())).map(|_| None),
        _ => return Err(anyhow!("no such call")),
    };
    if answer.is_ok() {
        match kind {
            Some('c') => return Ok(out.push_str("closed")?),
            Some('s') => return Ok(out.push_str("set")?),
            _ => {}
        }
    }
    Ok(push_answer(alloc, out, answer, text.short())?)
}

/// Makes calls on a text, one after the other.
fn calls<B: BufferedStream>(
    alloc: Global,
    text: &mut TextIOWrapper<B>,
    words: &str,
) -> Result<String> {
    let mut out = String::new(alloc);
    let mut left = words;
    for _ in 0..words.len() {
        if left.is_empty() {
            break;
        }
        let (word, rest) = split(left);
        if !out.is_empty() {
            out.push_str(", ")?;
        }
        call(alloc, text, word, &mut out)?;
        left = rest;
    }
    Ok(out)
}

/// A refusal of a text that can't be made.
fn refused(alloc: Global, fault: IoFault) -> Result<String> {
    let mut out = String::new(alloc);
    push_fault(alloc, &mut out, fault)?;
    Ok(out)
}

/// What a text is made of, and the calls on it.
#[derive(Clone, Copy)]
struct Case<'c> {
    coder: Coder,
    settings: TextSettings,
    plan: &'c str,
    bytes: &'c str,
    calls: &'c str,
}

/// `ENCODING HANDLER RULE CHUNK PLAN HEX CALL ..`: `PLAN` is `memory` for a stream in memory, `all` for a raw that moves all that is asked for.
fn parse(line: &str) -> Result<Case<'_>> {
    let (name, rest) = split(line);
    let (errors, rest) = split(rest);
    let (newline, rest) = split(rest);
    let (chunk, rest) = split(rest);
    let (plan, rest) = split(rest);
    let (bytes, calls) = split(rest);
    let (Some(coder), Some(newline)) = (coder(name, errors), rule(newline)) else {
        return Err(anyhow!("no such name"));
    };
    Ok(Case {
        coder,
        settings: TextSettings {
            newline,
            line_buffering: false,
            write_through: false,
            chunk_size: chunk.parse()?,
        },
        plan,
        bytes,
        calls,
    })
}

/// Runs a case over a stream in memory.
fn run_in_memory(alloc: Global, case: Case<'_>, bytes: Vec<u8>) -> Result<String> {
    let buffer = BytesIO::new(alloc, bytes);
    match TextIOWrapper::new(alloc, buffer, case.coder, case.settings) {
        Ok(mut text) => calls(alloc, &mut text, case.calls),
        Err(NewRefused { raw: _, fault }) => refused(alloc, fault),
    }
}

/// Runs a case over a reader of a raw stream.
fn run_over_raw(alloc: Global, case: Case<'_>, bytes: Vec<u8>) -> Result<String> {
    let flags = RawFlags::able(true, false, true);
    let raw = raw_of(
        alloc,
        &bytes,
        flags,
        plan_of(alloc, case.plan)?,
        Vec::new(alloc),
    )?;
    let buffer = BufferedReader::new(alloc, raw, 4)?;
    match TextIOWrapper::new(alloc, buffer, case.coder, case.settings) {
        Ok(mut text) => calls(alloc, &mut text, case.calls),
        Err(NewRefused { raw: _, fault }) => refused(alloc, fault),
    }
}

/// Runs a case, and answers what came as words.
pub(crate) fn run(alloc: Global, line: &str) -> Result<String> {
    let case = parse(line)?;
    let bytes = match case.bytes {
        "-" => Vec::new(alloc),
        word => hex::decode(alloc, word.as_bytes())?,
    };
    match case.plan {
        "memory" => run_in_memory(alloc, case, bytes),
        _ => run_over_raw(alloc, case, bytes),
    }
}
