//! Bytes that other crates write and read: numbers, base64, and hashes.
use anyhow::Result;
use base64::prelude::BASE64_STANDARD;
use base64::read::DecoderReader;
use byteorder::{BigEndian, ReadBytesExt, WriteBytesExt};
use py_adapters::StdStream;
use py_buffered::BufferedReader;
use py_memio::BytesIO;
use py_raw::RawFlags;
use py_raw_memory::{Cut, MemRaw};
use sha2::{Digest, Sha256};
use std::alloc::Global;
use std::io;
use std::io::{Read, Seek};

/// Some base64.
const CODED: &[u8] = b"aGVsbG8sIGJhc2U=";

/// Numbers are written, their greatest byte first, and read.
pub(crate) fn numbers(alloc: Global) -> Result<String> {
    let mut stream = StdStream::new(BytesIO::new(alloc, Vec::new(alloc)));
    shown_numbers(alloc, lent_numbers(&mut stream))
}

/// The calls of `numbers`, of a stream that is lent: a `?` drops nothing of it.
fn lent_numbers(stream: &mut StdStream<BytesIO>) -> io::Result<(u16, u32, u64)> {
    stream.write_u16::<BigEndian>(258)?;
    stream.write_u32::<BigEndian>(7)?;
    stream.rewind()?;
    let first = stream.read_u16::<BigEndian>()?;
    let second = stream.read_u32::<BigEndian>()?;
    Ok((first, second, stream.stream_position()?))
}

/// The numbers, and where the stream stands behind them.
fn shown_numbers(alloc: Global, numbers: io::Result<(u16, u32, u64)>) -> Result<String> {
    let (first, second, place) = numbers?;
    Ok(format!(in alloc; "numbers: {first} {second}, then at {place}")?)
}

/// Base64 is read from a raw stream that moves three bytes at a time.
pub(crate) fn decoded(alloc: Global) -> Result<String> {
    let stream = coded_stream(alloc)?;
    let mut decoder = DecoderReader::new(stream, &BASE64_STANDARD);
    let mut text = String::new(alloc);
    let count = decoder.read_to_string(&mut text);
    shown_text(alloc, count, text.as_str())
}

/// A stream of some base64, over a raw that moves three bytes at a time.
fn coded_stream(alloc: Global) -> Result<StdStream<BufferedReader<MemRaw>>> {
    let flags = RawFlags::able(true, false, false); // it can be read
    let plan = [Cut::Take(3); 8].to_vec(alloc)?;
    let raw = MemRaw::new(CODED.to_vec(alloc)?, flags, plan, Vec::new(alloc));
    Ok(StdStream::new(BufferedReader::new(alloc, raw, 8)?))
}

/// The text that was read, which is all in it.
fn shown_text(alloc: Global, count: io::Result<usize>, text: &str) -> Result<String> {
    let count = count?;
    Ok(format!(in alloc; "decoded: {count} bytes, {text:?}")?)
}

/// The hash of all that a reader has left, piece by piece.
fn hash_all<R: Read>(reader: &mut R) -> io::Result<[u8; 32]> {
    let mut hasher = Sha256::new();
    let mut piece = [0u8; 8];
    for _ in 0..u64::MAX {
        let count = reader.read(&mut piece)?;
        if count == 0 {
            break;
        }
        hasher.update(&piece[..count]);
    }
    Ok(hasher.finalize())
}

/// A stream is hashed over a raw that moves three bytes at a time.
pub(crate) fn hashed(alloc: Global) -> Result<String> {
    let mut stream = coded_stream(alloc)?;
    let pieces = hash_all(&mut stream);
    shown_hash(alloc, pieces, &Sha256::digest(CODED))
}

/// The hash's first byte, and whether it is that of the whole.
fn shown_hash(alloc: Global, pieces: io::Result<[u8; 32]>, whole: &[u8; 32]) -> Result<String> {
    let pieces = pieces?;
    let same = pieces == *whole;
    Ok(format!(in alloc; "hashed: {}, of the whole the same: {same}", pieces[0])?)
}
