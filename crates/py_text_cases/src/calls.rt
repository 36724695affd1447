//! The calls of a case.
use anyhow::{Result, anyhow};
use py_codec::NoHandler;
use py_registry::NoSearch;
use py_text::{
    CodecsRegistry, IncrementalNewlineDecoder, IoFault, Newlines, TextSettings, Utf8size,
    find_coder,
};
use std::alloc::Global;

/// A word and what stands after the next space.
fn split(line: &str) -> (&str, &str) {
    match line.split_once(' ') {
        Some((word, rest)) => (word, rest),
        None => (line, ""),
    }
}

/// The name of a refusal.
fn fault_name(fault: IoFault) -> &'static str {
    match fault {
        IoFault::UnknownEncoding => "err UnknownEncoding",
        IoFault::UnknownHandler => "err UnknownHandler",
        IoFault::NoMemory => "err NoMemory",
        _ => "err another",
    }
}

/// `coder DIRECTIONS HANDLER NAME`: what a text that goes in those directions decodes and encodes by, in a new registry;
/// directions are `r`, `w`, `rw`, and `-` for none.
fn coder(alloc: Global, line: &str) -> Result<String> {
    let (directions, rest) = split(line);
    let (errors, encoding) = split(rest);
    let readable = directions.starts_with('r');
    let writable = directions.ends_with('w');
    let mut registry = CodecsRegistry::<NoSearch, NoHandler>::new(alloc)?;
    match find_coder(&mut registry, alloc, encoding, errors, readable, writable) {
        Ok(coder) => { Ok(format!(in alloc; "{} {}", coder.encoding.name(), coder.errors.name())?) }
        Err(fault) => Ok(String::from_str(alloc, fault_name(fault))?),
    }
}

/// A rule of line ends by its name.
fn rule(word: &str) -> Result<Newlines> {
    match word {
        "universal" => Ok(Newlines::Universal),
        "passthrough" => Ok(Newlines::Passthrough),
        "lf" => Ok(Newlines::Lf),
        "cr" => Ok(Newlines::Cr),
        "crlf" => Ok(Newlines::Crlf),
        _ => Err(anyhow!("no such rule")),
    }
}

/// The text of a word in hex, `-` for none.
fn text_of(alloc: Global, word: &str) -> Result<String> {
    if word == "-" {
        return Ok(String::new(alloc));
    }
    let bytes = hex::decode(alloc, word.as_bytes())?;
    Ok(String::from_str(alloc, str::from_utf8(&bytes)?)?)
}

/// A text in hex, `-` for none.
fn shown(alloc: Global, text: &str) -> Result<String> {
    if text.is_empty() {
        return Ok(String::from_str(alloc, "-")?);
    }
    Ok(hex::encode(alloc, text.as_bytes())?)
}

/// `newlines RULE PIECE ..`: the texts of pieces in hex, after the last of which nothing comes.
fn newlines(alloc: Global, line: &str) -> Result<String> {
    let (word, pieces) = split(line);
    let mut decoder = IncrementalNewlineDecoder::new(rule(word)?);
    let mut all = String::new(alloc);
    let mut left = pieces;
    for _ in 0..u64::MAX {
        let (piece, rest) = split(left);
        let last = rest.is_empty();
        let text = decoder.decode(alloc, text_of(alloc, piece)?.as_str(), last)?;
        all.push_str(shown(alloc, text.as_str())?.as_str())?;
        if last {
            break;
        }
        all.push(' ')?;
        left = rest;
    }
    Ok(all)
}

/// `size HEX`: the size of a text.
fn size(alloc: Global, word: &str) -> Result<String> {
    let text = text_of(alloc, word)?;
    let size = Utf8size::len_str(text.as_str());
    let empty = size == Utf8size::default();
    Ok(format!(in alloc;
        "{} bytes {} characters empty {empty}",
        size.bytes, size.chars
    )?)
}

/// `settings`: those of a text that is given none.
fn settings(alloc: Global) -> Result<String> {
    let settings = TextSettings::default();
    Ok(format!(in alloc; "{settings:?}")?)
}

/// Makes the call of a line, and answers what came as words.
pub(crate) fn run(alloc: Global, line: &str) -> Result<String> {
    let (word, rest) = split(line);
    match word {
        "coder" => coder(alloc, rest),
        "newlines" => newlines(alloc, rest),
        "size" => size(alloc, rest),
        "settings" => settings(alloc),
        _ => Err(anyhow!("no call")),
    }
}
