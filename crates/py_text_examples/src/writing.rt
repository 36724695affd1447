//! Texts that are written.
use crate::making::STRICT;
use crate::shown::characters;
use anyhow::Result;
use py_buffered::BufferedWriter;
use py_flat::IoFault;
use py_memio::BytesIO;
use py_raw::RawFlags;
use py_raw_memory::{Cut, MemRaw};
use py_text::{Newlines, TextSettings};
use py_textio::TextIOWrapper;
use std::alloc::{AllocError, Global};

/// A text is written in lines that end at CR LF.
pub(crate) fn written(alloc: Global) -> Result<String> {
    let mut settings = TextSettings::default();
    settings.newline = Newlines::Crlf;
    let buffer = BytesIO::new(alloc, Vec::new(alloc));
    let mut text = TextIOWrapper::new(alloc, buffer, STRICT, settings)?;
    let count = lent_written(alloc, &mut text);
    let bytes = bytes_of(alloc, &mut text)?;
    Ok(shown_bytes(alloc, "written:", count?, &bytes)?)
}

/// The writing of `written`, to a text that is lent: a `?` drops nothing of it.
fn lent_written(alloc: Global, text: &mut TextIOWrapper<BytesIO>) -> Result<usize, IoFault> {
    let count = text.write(alloc, "é\nb")?; // 3 characters; LF is written as CR LF
    Ok(count)
}

/// The bytes under a text, which is detached.
pub(crate) fn bytes_of(
    alloc: Global,
    text: &mut TextIOWrapper<BytesIO>,
) -> Result<Vec<u8>, IoFault> {
    let buffer = text.detach()?.buffer; // until then, or a flush, the text may keep the bytes
    let bytes = buffer.getvalue(alloc)?; // C3 A9 0D 0A 62
    Ok(bytes)
}

/// A count and some bytes, behind a word.
fn shown_bytes(
    alloc: Global,
    word: &str,
    count: usize,
    bytes: &[u8],
) -> Result<String, AllocError> {
    format!(in alloc; "{word} {count} {bytes:?}")
}

/// Many lines are written at once, each with CR LF.
pub(crate) fn many_lines(alloc: Global) -> Result<String> {
    let mut settings = TextSettings::default();
    settings.newline = Newlines::Crlf;
    let buffer = BytesIO::new(alloc, Vec::new(alloc));
    let mut text = TextIOWrapper::new(alloc, buffer, STRICT, settings)?;
    let count = text.write(alloc, "a\n".repeat(alloc, 3000)?.as_str());
    let bytes = bytes_of(alloc, &mut text)?;
    let are_ended = bytes.chunks(3).all(|line| line == b"a\r\n".as_slice());
    Ok(format!(in alloc; "many lines: {} {} {are_ended}", count?, bytes.len())?)
}

/// A text that was read in part is written once it was read to its end.
pub(crate) fn read_in_part(alloc: Global) -> Result<String> {
    let buffer = BytesIO::new(alloc, b"one\ntwo\nthree".to_vec(alloc)?);
    let mut text = TextIOWrapper::new(alloc, buffer, STRICT, TextSettings::default())?;
    let written = lent_read_in_part(alloc, &mut text);
    let bytes = bytes_of(alloc, &mut text)?;
    shown_behind(
        alloc,
        written,
        bytes.as_slice() == b"one\nXwo\nthreeY".as_slice(),
    )
}

/// The calls of `read_in_part`, of a text that is lent.
fn lent_read_in_part(
    alloc: Global,
    text: &mut TextIOWrapper<BytesIO>,
) -> Result<(bool, usize), IoFault> {
    let line = text.readline(alloc, None)?; // Some("one\n")
    let is_refused = text.write(alloc, "X") == Err(IoFault::SeekFirst); // as it was
    text.seek(alloc, &[], 1)?; // where it stands
    let there = text.write(alloc, "X")?; // 1, behind "one\n"
    let rest = text.read(alloc, None)?; // Some("wo\nthree"): its end
    let behind = text.write(alloc, "Y")?; // 1, behind all that was read
    let is_read = characters(&line) == "one\n" && characters(&rest) == "wo\nthree";
    Ok((is_refused && is_read, there.saturating_add(behind)))
}

/// Whether the first write was refused, how many characters the others took, and whether their bytes lie where they belong.
fn shown_behind(
    alloc: Global,
    written: Result<(bool, usize), IoFault>,
    is_behind: bool,
) -> Result<String> {
    let (is_refused, count) = written?;
    Ok(format!(in alloc; "read in part: {is_refused} {count} {is_behind}")?)
}

/// With line buffering a line is passed on at once; what a wait held up is passed on later.
pub(crate) fn by_lines(alloc: Global) -> Result<String> {
    let mut text = text_by_lines(alloc)?;
    let written = lent_by_lines(alloc, &mut text);
    let bytes = raw_bytes(alloc, &mut text)?;
    let (is_taken, count) = written?;
    let word = if is_taken {
        "by lines: true"
    } else {
        "by lines: false"
    };
    Ok(shown_bytes(alloc, word, count, &bytes)?)
}

/// A text with line buffering, over a writer whose raw waits once.
fn text_by_lines(alloc: Global) -> Result<TextIOWrapper<BufferedWriter<MemRaw>>> {
    let flags = RawFlags::able(false, true, true); // it can be written and moved
    let plan = [Cut::Wait].to_vec(alloc)?;
    let raw = MemRaw::new(Vec::new(alloc), flags, plan, Vec::new(alloc));
    let buffer = BufferedWriter::new(alloc, raw, 8192)?;
    let mut settings = TextSettings::default();
    settings.line_buffering = true;
    Ok(TextIOWrapper::new(alloc, buffer, STRICT, settings)?)
}

/// The writing of `by_lines`, to a text that is lent.
fn lent_by_lines(
    alloc: Global,
    text: &mut TextIOWrapper<BufferedWriter<MemRaw>>,
) -> Result<(bool, usize), IoFault> {
    let is_taken = text.write(alloc, "a\n") == Err(IoFault::WouldBlock { taken: 2 }); // all of it
    text.flush()?; // the raw has "a\n" now
    let count = text.write(alloc, "b\n")?; // 2, and the raw has it at once
    Ok((is_taken, count))
}

/// The bytes of the raw under a text, which is detached.
fn raw_bytes(
    alloc: Global,
    text: &mut TextIOWrapper<BufferedWriter<MemRaw>>,
) -> Result<Vec<u8>, IoFault> {
    match text.detach()?.buffer.into_parts() {
        Some(parts) => Ok(parts.raw.into_bytes()),
        None => Ok(Vec::new(alloc)),
    }
}
