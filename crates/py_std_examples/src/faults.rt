//! What the errors of a stream say.
use anyhow::Result;
use py_adapters::StdStream;
use py_buffered::{BufferedReader, BufferedWriter};
use py_raw::RawFlags;
use py_raw_memory::{Cut, MemRaw};
use std::alloc::Global;
use std::io;
use std::io::{Read, Write};

/// A stream whose raw fails once it is written to.
fn failing_writer(alloc: Global) -> Result<StdStream<BufferedWriter<MemRaw>>> {
    writer_by(alloc, &[Cut::Break(1)])
}

/// A stream with a buffer of 8 bytes, whose raw takes what is written as a plan says.
fn writer_by(alloc: Global, plan: &[Cut]) -> Result<StdStream<BufferedWriter<MemRaw>>> {
    let flags = RawFlags::able(false, true, false); // it can be written
    let plan = plan.to_vec(alloc)?;
    let raw = MemRaw::new(Vec::new(alloc), flags, plan, Vec::new(alloc));
    Ok(StdStream::new(BufferedWriter::new(alloc, raw, 8)?))
}

/// A write that a fault cuts short, the one behind it, and a write of all bytes that has to wait.
pub(crate) fn cut_short(alloc: Global) -> Result<String> {
    let mut failing = writer_by(alloc, &[Cut::Take(3), Cut::Break(0)])?;
    let some = failing.write(b"abcdefghijkl"); // Ok(3): the raw failed then
    let after = failing.write(b"m"); // which the next call tells
    let mut waiting = writer_by(alloc, &[Cut::Wait, Cut::Wait])?;
    let whole = waiting.write_all(b"abcdefghijkl"); // some were taken: how many, the stream tells
    let owed = waiting.into_inner().into_parts();
    shown_cut(
        alloc,
        some,
        after,
        whole,
        owed.map(|parts| parts.unwritten.len()),
    )
}

/// How many bytes were taken, what the errors say, and how many bytes are owed.
fn shown_cut(
    alloc: Global,
    some: io::Result<usize>,
    after: io::Result<usize>,
    whole: io::Result<()>,
    owed: Option<usize>,
) -> Result<String> {
    match (some, after, whole) {
        (Ok(some), Err(after), Err(wait)) => {
            Ok(format!(in alloc; "cut short: {some} bytes; {after}; {wait}, owed: {owed:?}")?)
        }
        _ => Ok(String::from_str(alloc, "cut short: no")?),
    }
}

/// A stream whose raw failed, that is failed from then on; and one that was closed.
pub(crate) fn failed(alloc: Global) -> Result<String> {
    let mut stream = failing_writer(alloc)?;
    let taken = stream.write(b"abc");
    let fault = stream.flush();
    let after = stream.write(b"d");
    let mut closed = failing_writer(alloc)?.into_inner();
    let done = closed.close();
    let mut closed = StdStream::new(closed);
    shown_faults(
        alloc,
        taken.is_ok() && done.is_ok(),
        fault,
        after,
        closed.write(b"e"),
    )
}

/// What the errors say, of a fault, after it, and of a closed stream.
fn shown_faults(
    alloc: Global,
    done: bool,
    fault: io::Result<()>,
    after: io::Result<usize>,
    closed: io::Result<usize>,
) -> Result<String> {
    match (fault, after, closed) {
        (Err(fault), Err(after), Err(closed)) if done => {
            Ok(format!(in alloc; "failed: {fault}; {after}; {closed}")?)
        }
        _ => Ok(String::from_str(alloc, "failed: no")?),
    }
}

/// A stream whose raw would have blocked before any byte.
pub(crate) fn waited(alloc: Global) -> Result<String> {
    let flags = RawFlags::able(true, false, false); // it can be read
    let plan = [Cut::Wait].to_vec(alloc)?;
    let raw = MemRaw::new(b"a".to_vec(alloc)?, flags, plan, Vec::new(alloc));
    let mut stream = StdStream::new(BufferedReader::new(alloc, raw, 8)?);
    let mut space = [0u8; 4];
    shown_wait(alloc, stream.read(&mut space))
}

/// What the error of a wait says.
fn shown_wait(alloc: Global, came: io::Result<usize>) -> Result<String> {
    match came {
        Err(wait) => Ok(format!(in alloc; "waits: {wait}")?),
        Ok(_) => Ok(String::from_str(alloc, "waits: no")?),
    }
}
