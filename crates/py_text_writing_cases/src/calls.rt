//! The calls of a case.
use anyhow::{Result, anyhow};
use py_flat::IoFault;
use py_text_trials::{
    Under, push_answer, push_apart, push_cookie, push_fault, push_sought, split, take_parts_apart,
};
use py_textio::{TextDetached, TextIOWrapper};
use std::alloc::{AllocError, Global};

/// A text of a word: `\n` is LF, `\r` CR, and `_` a space.
fn text_of(alloc: Global, word: &str) -> Result<String, AllocError> {
    let mut text = String::new(alloc);
    let mut is_escaped = false;
    for letter in word.chars() {
        let character = match letter {
            'n' if is_escaped => '\n',
            'r' if is_escaped => '\r',
            '_' => ' ',
            letter => letter,
        };
        is_escaped = letter == '\\' && !is_escaped;
        if !is_escaped {
            text.push(character)?;
        }
    }
    Ok(text)
}

/// Appends what a write answered.
fn push_count(
    alloc: Global,
    out: &mut String,
    answer: Result<usize, IoFault>,
) -> Result<(), AllocError> {
    match answer {
        Ok(count) => out.push_str(format!(in alloc; "{count}")?.as_str()),
        Err(fault) => push_fault(alloc, out, fault),
    }
}

/// Appends what a call answered that gives nothing.
fn push_done(
    alloc: Global,
    out: &mut String,
    done: &str,
    answer: Result<(), IoFault>,
) -> Result<(), AllocError> {
    match answer {
        Ok(()) => out.push_str(done),
        Err(fault) => push_fault(alloc, out, fault),
    }
}

/// Appends what a `detach` handed over, and what that comes to.
fn push_detached<B: Under>(
    alloc: Global,
    out: &mut String,
    answer: Result<TextDetached<B>, IoFault>,
) -> Result<(), AllocError> {
    match answer {
        Ok(parts) => {
            let apart = take_parts_apart(alloc, parts)?;
            out.push_str("detached")?;
            push_apart(alloc, out, &apart)
        }
        Err(fault) => push_fault(alloc, out, fault),
    }
}

/// The size of a call: none without a number.
fn size_of(word: &str) -> Option<usize> {
    word.parse().ok()
}

/// Makes a call: `wTEXT` writes a text, `f` flushes, `c` closes, `d` detaches, `r` reads all, `r2` two characters, `l` a line, `l2` at most
/// two characters of one, `k2` sets chunks of two bytes, `tell` asks where the text stands, `seek0,HEX` puts it where a cookie says, by whence 0.
fn call<B: Under>(
    alloc: Global,
    text: &mut TextIOWrapper<B>,
    word: &str,
    out: &mut String,
) -> Result<()> {
    if let Some(words) = word.strip_prefix("seek") {
        return Ok(push_sought(alloc, out, text, words)?);
    }
    let mut letters = word.chars();
    let kind = letters.next();
    let rest = letters.as_str();
    match kind {
        Some('w') => {
            let written = text_of(alloc, rest)?;
            push_count(alloc, out, text.write(alloc, written.as_str()))?;
        }
        Some('f') => push_done(alloc, out, "flushed", text.flush())?,
        Some('c') => push_done(alloc, out, "closed", text.close())?,
        Some('d') => push_detached(alloc, out, text.detach())?,
        Some('r') => push_answer(alloc, out, text.read(alloc, size_of(rest)), text.short())?,
        Some('l') => push_answer(
            alloc,
            out,
            text.readline(alloc, size_of(rest)),
            text.short(),
        )?,
        Some('t') => push_cookie(alloc, out, text.tell())?,
        Some('k') => {
            let size = size_of(rest).unwrap_or(0);
            push_done(alloc, out, "set", text.set_chunksize(size))?;
        }
        _ => return Err(anyhow!("no such call")),
    }
    Ok(())
}

/// Makes calls on a text, one after the other.
pub(crate) fn calls<B: Under>(
    alloc: Global,
    text: &mut TextIOWrapper<B>,
    words: &str,
) -> Result<String> {
    let mut out = String::new(alloc);
    let mut left = words;
    for _ in 0..words.len() {
        if left.is_empty() {
            break;
        }
        let (word, rest) = split(left);
        if !out.is_empty() {
            out.push_str(", ")?;
        }
        call(alloc, text, word, &mut out)?;
        left = rest;
    }
    Ok(out)
}
