//! The plain slow program's answers: of plain texts, and of units and first lines one by one.

use crate::report::Report;
use anyhow::Result;
use py_case_sessions::{Block, Line};
use py_flat::IoFault;
use py_open::{Call, Reply};
use py_plain::{Encoding, Handler, Newlines, Unit, first_line, first_unit};
use py_plain_text::{PlainSettings, PlainText};
use py_script::parse_line;
use std::alloc::Global;

/// A plain text in UTF-8, of which no refused range is passed.
pub(crate) fn utf8_text(bytes: Vec<u8>, newline: Newlines) -> PlainText {
    let settings = PlainSettings {
        encoding: Encoding::Utf8,
        handler: Handler::Strict,
        newline,
    };
    PlainText::new(bytes, settings)
}

/// Runs calls on a plain text: `text rule hex` makes it, and each line after `>` is a call.
pub(crate) fn run_plain_block(block: &Block<'_>, report: &mut Report) -> Result<()> {
    let alloc = report.alloc;
    let mut text = utf8_text(Vec::new(alloc), Newlines::Universal);
    for line in &block.lines {
        match (line.word, line.rest.split_once(' ')) {
            ("text", Some((rule, bytes))) => {
                text = utf8_text(line.bytes(alloc, bytes)?, rule_of(line, rule)?);
            }
            (">", _) => match parse_line(alloc, line.rest.as_bytes())? {
                Some(call) => report.reply(&answer(alloc, &mut text, &call), false)?,
                None => return line.malformed(),
            },
            _ => return line.malformed(),
        }
    }
    Ok(())
}

/// What a plain text answers; what it has no call for, it refuses.
pub(crate) fn answer(alloc: Global, text: &mut PlainText, call: &Call) -> Reply {
    let answer = match call {
        Call::Read(size) => text.read(alloc, *size).map(Reply::Text),
        Call::ReadLine(limit) => text.readline(alloc, *limit).map(Reply::Text),
        Call::SeekText(cookie, whence) => text
            .seek(alloc, cookie.as_slice(), i64::from(*whence))
            .map(Reply::Cookie),
        Call::Tell => text.tell(alloc).map(Reply::Cookie),
        Call::Close => text.close().map(|()| Reply::Done),
        _ => Err(IoFault::Unsupported),
    };
    answer.unwrap_or_else(Reply::Refused)
}

/// Answers each line of a block: `unit hex` of UTF-8, or `line rule limit hex` of characters in UTF-8.
pub(crate) fn run_units_block(block: &Block<'_>, report: &mut Report) -> Result<()> {
    let alloc = report.alloc;
    for line in &block.lines {
        let words: Vec<&str> = line.rest.split_whitespace().collect(alloc)?;
        let answer = match (line.word, words.as_slice()) {
            ("unit", [bytes]) => unit_words(alloc, &line.bytes(alloc, bytes)?)?,
            ("line", [rule, limit, bytes]) => line_words(alloc, line, (rule, limit), bytes)?,
            _ => return line.malformed(),
        };
        report.line(answer.as_str())?;
    }
    Ok(())
}

fn unit_words(alloc: Global, bytes: &[u8]) -> Result<String> {
    Ok(match first_unit(Encoding::Utf8, bytes) {
        None => String::from_str(alloc, "none")?,
        Some(Unit::Character { character, length }) => {
            let number = u32::from(character);
            format!(in alloc; "character {number:x} of {length}")?
        }
        Some(Unit::Malformed { length }) => format!(in alloc; "malformed {length}")?,
        Some(Unit::Cut { length }) => format!(in alloc; "cut {length}")?,
    })
}

fn line_words(alloc: Global, line: &Line<'_>, how: (&str, &str), text: &str) -> Result<String> {
    let limit = match how.1 {
        "-" => None,
        limit => Some(line.number(limit)?),
    };
    let bytes = line.bytes(alloc, text)?;
    let text = str::from_utf8(&bytes).unwrap_or("");
    let characters: Vec<char> = text.chars().collect(alloc)?;
    let first = first_line(rule_of(line, how.0)?, limit, characters.as_slice());
    let length = first.length;
    let ended = if first.ended { "ended" } else { "open" };
    Ok(format!(in alloc; "{length} {ended}")?)
}

fn rule_of(line: &Line<'_>, name: &str) -> Result<Newlines> {
    Ok(match name {
        "universal" => Newlines::Universal,
        "passthrough" => Newlines::Passthrough,
        "lf" => Newlines::Lf,
        "cr" => Newlines::Cr,
        "crlf" => Newlines::Crlf,
        _ => return line.malformed(),
    })
}
