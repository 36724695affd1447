//! Lines, one after the other.
use anyhow::Result;
use bstr::io::BufReadExt;
use py_adapters::{LineEnds, LineSource, LineValue, Newlines, SourceLines, StdStream};
use py_buffered::{BufferedRandom, BufferedReader};
use py_codec::{Encoding, Handler};
use py_flat::IoFault;
use py_memio::BytesIO;
use py_raw::RawFlags;
use py_raw_memory::{Cut, MemRaw};
use py_text::{Coder, TextSettings};
use py_textio::TextIOWrapper;
use std::alloc::Global;
use std::io;
use std::io::BufRead;

/// How many lines and how many waits a source has left, and how many bytes the lines have without their ends.
fn count<S: LineSource>(alloc: Global, source: &mut S) -> Result<(u64, u64, usize), IoFault> {
    let (mut lines, mut waits, mut bytes) = (0u64, 0u64, 0usize);
    for line in SourceLines::new(alloc, source, LineEnds::Dropped) {
        match line? {
            Some(LineValue::Bytes(line)) => {
                lines = lines.saturating_add(1);
                bytes = bytes.saturating_add(line.as_slice().len());
            }
            Some(LineValue::Text(_text)) => lines = lines.saturating_add(1),
            None => waits = waits.saturating_add(1),
        }
    }
    Ok((lines, waits, bytes))
}

/// The lines of a stream whose raw would have blocked between two of them.
pub(crate) fn dropped(alloc: Global) -> Result<String> {
    let flags = RawFlags::able(true, false, false); // it can be read
    let plan = [Cut::Take(4), Cut::Wait];
    let raw = MemRaw::new(
        b"one\ntwo\nend".to_vec(alloc)?,
        flags,
        plan.to_vec(alloc)?,
        Vec::new(alloc),
    );
    let mut reader = BufferedReader::new(alloc, raw, 8)?;
    let (lines, waits, bytes) = count(alloc, &mut reader)?;
    Ok(format!(in alloc; "lines: {lines} of {bytes} bytes, {waits} wait")?)
}

/// Appends the lines that a source has left.
fn push_lines<S: LineSource>(
    alloc: Global,
    source: &mut S,
    ends: LineEnds,
    out: &mut String,
) -> Result<()> {
    for line in SourceLines::new(alloc, source, ends) {
        let line = match line? {
            Some(LineValue::Bytes(line)) => format!(in alloc; " {:?}", line.as_slice())?,
            Some(LineValue::Text(line)) => format!(in alloc; " {:?}", line.as_str())?,
            None => String::from_str(alloc, " wait")?,
        };
        out.push_str(line.as_str())?;
    }
    Ok(())
}

/// A stream that is read and written, of the bytes `a`, LF, `b`, CR, LF, `c`.
fn random(alloc: Global) -> Result<BufferedRandom<MemRaw>> {
    let flags = RawFlags::able(true, true, true); // it can be read, written and moved
    let bytes = b"a\nb\r\nc".to_vec(alloc)?;
    let raw = MemRaw::new(bytes, flags, Vec::new(alloc), Vec::new(alloc));
    Ok(BufferedRandom::new(alloc, raw, 8)?)
}

/// A text whose lines end at CR LF, over the same bytes.
fn crlf_text(alloc: Global) -> Result<TextIOWrapper<BytesIO>> {
    let coder = Coder {
        encoding: Encoding::Utf8,
        errors: Handler::Strict,
    };
    let mut settings = TextSettings::default();
    settings.newline = Newlines::Crlf;
    let bytes = BytesIO::new(alloc, b"a\nb\r\nc".to_vec(alloc)?);
    Ok(TextIOWrapper::new(alloc, bytes, coder, settings)?)
}

/// The lines of a stream that is read and written, with their ends and without.
pub(crate) fn of_random(alloc: Global) -> Result<String> {
    let mut out = String::from_str(alloc, "of bytes:")?;
    push_lines(alloc, &mut random(alloc)?, LineEnds::Kept, &mut out)?; // a LF, b CR LF, c
    out.push_str(", dropped:")?;
    push_lines(alloc, &mut random(alloc)?, LineEnds::Dropped, &mut out)?; // a, b CR, c
    Ok(out)
}

/// The lines of a text by the rule CR LF, with their ends and without.
pub(crate) fn of_text(alloc: Global) -> Result<String> {
    let mut out = String::from_str(alloc, "of a text:")?;
    push_lines(alloc, &mut crlf_text(alloc)?, LineEnds::Kept, &mut out)?; // "a\nb\r\n", "c"
    out.push_str(", dropped:")?;
    push_lines(alloc, &mut crlf_text(alloc)?, LineEnds::Dropped, &mut out)?; // "a\nb", "c"
    Ok(out)
}

/// How many lines a reader has left, and how many bytes they have without their ends, by the crate `bstr`.
fn lent_lines<R: BufRead>(alloc: Global, reader: &mut R) -> io::Result<(u64, usize)> {
    let (mut lines, mut bytes) = (0u64, 0usize);
    reader.for_byte_line(alloc, |line| {
        lines = lines.saturating_add(1);
        bytes = bytes.saturating_add(line.len());
        Ok(true)
    })?;
    Ok((lines, bytes))
}

/// The lines of a stream are lent by `bstr`.
pub(crate) fn lent(alloc: Global) -> Result<String> {
    let mut reader = slow_reader(alloc)?;
    let counts = lent_lines(alloc, &mut reader);
    shown_lent(alloc, counts)
}

/// How many lines there were, and of how many bytes.
fn shown_lent(alloc: Global, counts: io::Result<(u64, usize)>) -> Result<String> {
    let (lines, bytes) = counts?;
    Ok(format!(in alloc; "by bstr: {lines} lines of {bytes} bytes")?)
}

/// How many lines a reader has left, and how many bytes the longest has with its end: each is read into one space.
fn longest<R: BufRead>(alloc: Global, reader: &mut R) -> io::Result<(u64, usize)> {
    let (mut lines, mut most) = (0u64, 0usize);
    let mut line = Vec::new(alloc);
    for _ in 0..u64::MAX {
        line.clear();
        let count = reader.read_until(b'\n', &mut line)?;
        if count == 0 {
            break;
        }
        lines = lines.saturating_add(1);
        most = most.max(count);
    }
    Ok((lines, most))
}

/// A stream over a raw that moves one byte at a time.
fn slow_reader(alloc: Global) -> Result<StdStream<BufferedReader<MemRaw>>> {
    let flags = RawFlags::able(true, false, false); // it can be read
    let plan = [Cut::Take(1); 16].to_vec(alloc)?;
    let raw = MemRaw::new(
        b"one\nthree\nend".to_vec(alloc)?,
        flags,
        plan,
        Vec::new(alloc),
    );
    Ok(StdStream::new(BufferedReader::new(alloc, raw, 8)?))
}

/// The lines of a stream are read by std's `BufRead`.
pub(crate) fn kept(alloc: Global) -> Result<String> {
    let mut reader = slow_reader(alloc)?;
    let counts = longest(alloc, &mut reader);
    shown_longest(alloc, counts)
}

/// How many lines there were, and how long the longest was.
fn shown_longest(alloc: Global, counts: io::Result<(u64, usize)>) -> Result<String> {
    let (lines, most) = counts?;
    Ok(format!(in alloc; "by std: {lines} lines, the longest of {most} bytes")?)
}
