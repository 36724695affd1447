//! Characters and lines.
use crate::making::{OverBytes, STRICT, text_of};
use crate::shown::shown_all;
use anyhow::Result;
use py_flat::IoFault;
use py_stream::BufferedStream;
use py_textio::TextIOWrapper;
use std::alloc::Global;

/// A text is read by characters and by lines.
pub(crate) fn characters_and_lines(alloc: Global) -> Result<String> {
    let mut text = text_of(alloc, "né\nend".as_bytes(), &[], STRICT)?;
    Ok(lent_characters_and_lines(alloc, &mut text)?)
}

/// The readings of `characters_and_lines`, of a text that is lent: a `?` drops nothing of it.
fn lent_characters_and_lines(alloc: Global, text: &mut OverBytes) -> Result<String, IoFault> {
    let two = text.read(alloc, Some(2))?; // Some("né"): two characters, three bytes
    let line = text.readline(alloc, None)?; // Some("\n"), the rest of the line
    let some = text.readline(alloc, Some(2))?; // Some("en"), at most two characters of a line
    let rest = text.read(alloc, None)?; // Some("d")
    let end = text.read(alloc, None)?; // Some(""): nothing is left
    let answers = [&two, &line, &some, &rest, &end];
    Ok(shown_all(alloc, "read:", &answers)?)
}

/// How many lines a text has left, and how many characters the longest of them; `None` where it has to wait.
fn count_lines<B: BufferedStream>(
    alloc: Global,
    text: &mut TextIOWrapper<B>,
) -> Result<Option<(u64, usize)>, IoFault> {
    let mut longest = 0;
    for lines in 0..u64::MAX {
        let Some(line) = text.readline(alloc, None)? else {
            return Ok(None);
        };
        if line.is_empty() {
            return Ok(Some((lines, longest)));
        }
        longest = longest.max(line.chars().count());
    }
    Ok(None)
}

/// All lines of a text are counted.
pub(crate) fn counted(alloc: Global) -> Result<String> {
    let mut text = text_of(alloc, b"one\r\ntwo\rthree", &[], STRICT)?;
    Ok(shown_count(alloc, count_lines(alloc, &mut text))?)
}

/// What a count comes to.
fn shown_count(
    alloc: Global,
    counted: Result<Option<(u64, usize)>, IoFault>,
) -> Result<String, IoFault> {
    match counted? {
        Some((lines, longest)) => {
            Ok(format!(in alloc; "counted: {lines} lines, the longest of {longest} characters")?)
        }
        None => Ok(String::from_str(alloc, "counted: not ready")?),
    }
}
