//! Streams over raw streams that would have blocked.
use anyhow::Result;
use py_adapters::StdStream;
use py_buffered::{BufferedReader, BufferedWriter};
use py_raw::RawFlags;
use py_raw_memory::{Cut, MemRaw};
use std::alloc::Global;
use std::io;
use std::io::{ErrorKind, Read, Write};

/// Reads all that a reader has left, again after each wait; answers how many waits there were.
pub(crate) fn read_all<R: Read>(reader: &mut R, all: &mut Vec<u8>) -> io::Result<u64> {
    for waits in 0..u64::MAX {
        match reader.read_to_end(all) {
            Err(error) if error.kind() == ErrorKind::WouldBlock => {} // what came stands in `all`
            Err(error) => return Err(error),
            Ok(_) => return Ok(waits),
        }
    }
    Ok(u64::MAX)
}

/// A stream that is read over waits.
fn waiting_reader(alloc: Global) -> Result<StdStream<BufferedReader<MemRaw>>> {
    let flags = RawFlags::able(true, false, false); // it can be read
    let plan = [Cut::Take(2), Cut::Wait, Cut::Take(1), Cut::Wait].to_vec(alloc)?;
    let raw = MemRaw::new(b"hello".to_vec(alloc)?, flags, plan, Vec::new(alloc));
    Ok(StdStream::new(BufferedReader::new(alloc, raw, 8)?))
}

/// What std reads to the end over waits is whole.
pub(crate) fn read_over_waits(alloc: Global) -> Result<String> {
    let mut stream = waiting_reader(alloc)?;
    let mut all = Vec::new(alloc);
    let waits = read_all(&mut stream, &mut all);
    shown(alloc, "read", waits, all.as_slice() == b"hello".as_slice())
}

/// How many calls had to be made again, and whether all bytes are there.
fn shown(alloc: Global, word: &str, waits: io::Result<u64>, whole: bool) -> Result<String> {
    let waits = waits?;
    Ok(format!(in alloc; "{word} over waits: {waits} calls more, whole: {whole}")?)
}

/// Why a reading of all that was asked for ended.
fn ended_by(answer: io::Result<()>) -> &'static str {
    match answer {
        Ok(()) => "all came",
        Err(error) => match error.kind() {
            ErrorKind::WouldBlock => "a wait",
            ErrorKind::UnexpectedEof => "the end",
            _ => "a refusal",
        },
    }
}

/// A reading of all that is asked for, behind a wait and at the end: what came before stands at the front.
pub(crate) fn exactly(alloc: Global) -> Result<String> {
    let mut stream = waiting_reader(alloc)?;
    let mut space = *b"----";
    let first = ended_by(stream.read_exact(&mut space));
    let came = space == *b"he--";
    let mut one = *b"-";
    let second = ended_by(stream.read_exact(&mut one));
    let third = ended_by(stream.read_exact(&mut space));
    let fourth = ended_by(stream.read_exact(&mut space));
    Ok(format!(in alloc;
        "exactly: {first}, in front what came: {came}; {second}; {third}; {fourth}"
    )?)
}

/// Writes all bytes to a writer, and flushes it; answers in how many turns after the first.
fn write_all<W: Write>(writer: &mut W, bytes: &[u8]) -> io::Result<u64> {
    let mut rest = bytes;
    for turns in 0..u64::MAX {
        match writer.write(rest) {
            Err(error) if error.kind() == ErrorKind::WouldBlock => {} // none was taken
            Err(error) => return Err(error),
            Ok(count) => rest = rest.get(count..).unwrap_or_default(),
        }
        if rest.is_empty() {
            match writer.flush() {
                Err(error) if error.kind() == ErrorKind::WouldBlock => {} // the rest is still owed
                Err(error) => return Err(error),
                Ok(()) => return Ok(turns),
            }
        }
    }
    Ok(u64::MAX)
}

/// A stream that is written over waits.
fn waiting_writer(alloc: Global) -> Result<StdStream<BufferedWriter<MemRaw>>> {
    let flags = RawFlags::able(false, true, false); // it can be written
    let plan = [Cut::Wait, Cut::Take(2), Cut::Wait, Cut::Take(1), Cut::Wait].to_vec(alloc)?;
    let raw = MemRaw::new(Vec::new(alloc), flags, plan, Vec::new(alloc));
    Ok(StdStream::new(BufferedWriter::new(alloc, raw, 4)?))
}

/// What is written over waits is whole, and in order.
pub(crate) fn written_over_waits(alloc: Global) -> Result<String> {
    let mut stream = waiting_writer(alloc)?;
    let waits = write_all(&mut stream, b"hello, waits");
    let whole = match stream.stream().raw() {
        Some(raw) => raw.bytes_of() == b"hello, waits".as_slice(),
        None => false,
    };
    shown(alloc, "written", waits, whole)
}
