//! Bytes in memory, by std's calls.
use anyhow::Result;
use py_adapters::StdStream;
use py_buffered::{BufferedRandom, BufferedReader, BufferedWriter};
use py_memio::BytesIO;
use py_raw::RawFlags;
use py_raw_memory::MemRaw;
use std::alloc::Global;
use std::io;
use std::io::{BufRead, Read, Seek, SeekFrom, Write};

/// Bytes are written over, and all are read.
pub(crate) fn replaced(alloc: Global) -> Result<String> {
    let mut stream = StdStream::new(BytesIO::new(alloc, b"one two".to_vec(alloc)?));
    let mut all = String::new(alloc);
    let counts = lent_replaced(&mut stream, &mut all);
    shown_replaced(alloc, counts, all.as_str())
}

/// The calls of `replaced`, of a stream that is lent: a `?` drops nothing of it.
fn lent_replaced(stream: &mut StdStream<BytesIO>, all: &mut String) -> io::Result<(u64, usize)> {
    let place = stream.seek(SeekFrom::End(-3))?;
    stream.write_all(b"three")?;
    stream.rewind()?;
    let count = stream.read_to_string(all)?;
    Ok((place, count))
}

/// Where the bytes were replaced, and all of them.
fn shown_replaced(alloc: Global, counts: io::Result<(u64, usize)>, all: &str) -> Result<String> {
    let (place, count) = counts?;
    Ok(format!(in alloc; "replaced at {place}: {count} bytes, {all:?}")?)
}

/// A stream that is read and written is moved from where it stands, and written over.
pub(crate) fn among(alloc: Global) -> Result<String> {
    let flags = RawFlags::able(true, true, true);
    let bytes = b"one two".to_vec(alloc)?;
    let raw = MemRaw::new(bytes, flags, Vec::new(alloc), Vec::new(alloc));
    let mut stream = StdStream::new(BufferedRandom::new(alloc, raw, 8)?);
    let mut space = [0u8; 3];
    let places = lent_among(&mut stream, &mut space);
    shown_among(alloc, places, &space)
}

/// The calls of `among`, of a stream that is lent.
fn lent_among(
    stream: &mut StdStream<BufferedRandom<MemRaw>>,
    space: &mut [u8],
) -> io::Result<(u64, u64)> {
    stream.seek_relative(4)?;
    stream.read_exact(space)?; // "two"
    let back = stream.seek(SeekFrom::Current(-3))?;
    stream.write_all(b"TWO")?;
    Ok((back, stream.stream_position()?))
}

/// Where the stream was moved to, where it stood in the end, and what it read.
fn shown_among(alloc: Global, places: io::Result<(u64, u64)>, space: &[u8]) -> Result<String> {
    let (back, end) = places?;
    Ok(format!(in alloc; "among: {back} {end} {space:?}")?)
}

/// A stream that is read and written lends what it holds, before and behind what it owes.
pub(crate) fn lent(alloc: Global) -> Result<String> {
    let flags = RawFlags::able(true, true, true);
    let bytes = b"one two".to_vec(alloc)?;
    let raw = MemRaw::new(bytes, flags, Vec::new(alloc), Vec::new(alloc));
    let mut stream = StdStream::new(BufferedRandom::new(alloc, raw, 4)?);
    let counts = lent_lent(&mut stream);
    shown_lent(alloc, counts)
}

/// The calls of `lent`, of a stream that is lent.
fn lent_lent(stream: &mut StdStream<BufferedRandom<MemRaw>>) -> io::Result<(usize, usize, u64)> {
    let first = stream.fill_buf()?.len(); // 4 are held
    stream.consume(1);
    stream.write_all(b"N")?; // owed, where the second of them was
    let behind = stream.fill_buf()?.len(); // 2
    stream.consume(9); // past these, and no further
    Ok((first, behind, stream.stream_position()?))
}

/// How many bytes were lent first, and behind what was written, and where the stream stood in the end.
fn shown_lent(alloc: Global, counts: io::Result<(usize, usize, u64)>) -> Result<String> {
    let (first, behind, place) = counts?;
    Ok(format!(in alloc; "lent: {first} bytes, {behind} behind one that is owed, then at {place}")?)
}

/// A stream that is written is moved, and written over.
pub(crate) fn rewritten(alloc: Global) -> Result<String> {
    let flags = RawFlags::able(false, true, true);
    let raw = MemRaw::new(Vec::new(alloc), flags, Vec::new(alloc), Vec::new(alloc));
    let mut stream = StdStream::new(BufferedWriter::new(alloc, raw, 8)?);
    let places = lent_rewritten(&mut stream);
    let same = match stream.stream().raw() {
        Some(raw) => raw.bytes_of() == b"oNe".as_slice(),
        None => false,
    };
    shown_rewritten(alloc, places, same)
}

/// The calls of `rewritten`, of a stream that is lent.
fn lent_rewritten(stream: &mut StdStream<BufferedWriter<MemRaw>>) -> io::Result<(u64, u64)> {
    stream.write_all(b"one")?;
    let back = stream.seek(SeekFrom::Current(-2))?; // which passes on what is owed
    stream.write_all(b"N")?;
    let end = stream.seek(SeekFrom::End(0))?;
    Ok((back, end))
}

/// Where the stream was moved to, and whether the raw has what was written.
fn shown_rewritten(alloc: Global, places: io::Result<(u64, u64)>, same: bool) -> Result<String> {
    let (back, end) = places?;
    Ok(format!(in alloc; "rewritten at {back} of {end}: {same}")?)
}

/// What refuses a write of a reader, and a seek past every place.
pub(crate) fn refused(alloc: Global) -> Result<String> {
    let flags = RawFlags::able(true, false, true); // it can be read and moved
    let raw = MemRaw::new(Vec::new(alloc), flags, Vec::new(alloc), Vec::new(alloc));
    let mut stream = StdStream::new(BufferedReader::new(alloc, raw, 8)?);
    let written = stream.write(b"a");
    let sought = stream.seek(SeekFrom::Start(u64::MAX));
    shown_refused(alloc, written, sought)
}

/// What the two errors say.
fn shown_refused(
    alloc: Global,
    written: io::Result<usize>,
    sought: io::Result<u64>,
) -> Result<String> {
    match (written, sought) {
        (Err(write), Err(seek)) => Ok(format!(in alloc; "refused: {write}; {seek}")?),
        _ => Ok(String::from_str(alloc, "refused: no")?),
    }
}

/// Bytes are read up to a byte.
pub(crate) fn pieces(alloc: Global) -> Result<String> {
    let mut stream = StdStream::new(BytesIO::new(alloc, b"key=value".to_vec(alloc)?));
    let mut value = String::new(alloc);
    let count = lent_pieces(alloc, &mut stream, &mut value);
    shown_pieces(alloc, count, value.as_str())
}

/// The calls of `pieces`, of a reader that is lent.
fn lent_pieces<R: BufRead>(alloc: Global, reader: &mut R, value: &mut String) -> io::Result<usize> {
    let mut key = Vec::new(alloc);
    let count = reader.read_until(b'=', &mut key)?;
    reader.read_to_string(value)?;
    Ok(count)
}

/// How many bytes came up to the byte, and what came behind it.
fn shown_pieces(alloc: Global, count: io::Result<usize>, value: &str) -> Result<String> {
    let count = count?;
    Ok(format!(in alloc; "pieces: {count} bytes, then {value:?}")?)
}
