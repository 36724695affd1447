//! The words of cases.
use crate::samples::{ENCODINGS, HANDLERS};
use py_plain::{Encoding, Handler, Newlines};
use py_raw_memory::Cut;
use py_text::Coder;
use std::alloc::{AllocError, Global};

/// A word and what stands after the next space.
pub fn split(line: &str) -> (&str, &str) {
    match line.split_once(' ') {
        Some((word, rest)) => (word, rest),
        None => (line, ""),
    }
}

/// An encoding of texts by its name.
fn encoding(word: &str) -> Option<Encoding> {
    for encoding in ENCODINGS {
        if encoding.name() == word {
            return Some(encoding);
        }
    }
    None
}

/// A handler of texts by its name, of those that are only written too.
fn handler(word: &str) -> Option<Handler> {
    for handler in HANDLERS {
        if handler.name() == word {
            return Some(handler);
        }
    }
    let written_only = Handler::XmlCharRefReplace;
    if written_only.name() == word {
        return Some(written_only);
    }
    None
}

/// What texts are coded by, by the names of an encoding and of a handler.
pub fn coder(name: &str, errors: &str) -> Option<Coder> {
    Some(Coder {
        encoding: encoding(name)?,
        errors: handler(errors)?,
    })
}

/// A newline rule by its name.
pub fn rule(word: &str) -> Option<Newlines> {
    match word {
        "universal" => Some(Newlines::Universal),
        "passthrough" => Some(Newlines::Passthrough),
        "lf" => Some(Newlines::Lf),
        "cr" => Some(Newlines::Cr),
        "crlf" => Some(Newlines::Crlf),
        _ => None,
    }
}

/// The transfers of a raw: a digit moves at most as many bytes, `w` would block, `b` breaks; other letters, as of `all`, say nothing. What
/// stands behind a `!` is left to `faults_of`.
pub fn plan_of(alloc: Global, word: &str) -> Result<Vec<Cut>, AllocError> {
    let transfers = match word.split_once('!') {
        Some((transfers, _)) => transfers,
        None => word,
    };
    let mut plan = Vec::new(alloc);
    for letter in transfers.chars() {
        match letter.to_digit(10) {
            Some(count) => plan.push(Cut::Take(count))?,
            None if letter == 'w' => plan.push(Cut::Wait)?,
            None if letter == 'b' => plan.push(Cut::Break(0))?,
            None => {}
        }
    }
    Ok(plan)
}

/// The calls of a raw that fail: each digit behind a `!` is the number of one, from 0.
pub fn faults_of(alloc: Global, word: &str) -> Result<Vec<u64>, AllocError> {
    let mut faults = Vec::new(alloc);
    let Some((_, numbers)) = word.split_once('!') else {
        return Ok(faults);
    };
    for letter in numbers.chars() {
        if let Some(number) = letter.to_digit(10) {
            faults.push(u64::from(number))?;
        }
    }
    Ok(faults)
}
