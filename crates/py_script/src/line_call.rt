ghost use Rattle.std.specs.Prelude.{◌≡◌, map, IfOk};
ghost use Rattle.py_script.specs.LineCall.{plain_call, sized_call, reading_call, seek_call, seektext_call, write_call, writetext_call, other_call, words_call};

use crate::decimal::{parse_decimal, parse_integer, parse_whence};
use crate::hex_words::{word_bytes, word_text, words_bytes};
use crate::settings::parse_settings;
use py_calls::Call;
use std::alloc::{AllocError, Global};

/// The call of a line's words, or `None` where they are malformed; `Err` when out of memory.
pub(crate) fn words_call(alloc: Global, words: &[&[u8]]) -> Result<Option<Call>, AllocError>
    ensures { IfOk result (λ call. call ≡ words_call (map (λ word. word.now) words.now)) }
{
    let [name, words @ ..] = words else {
        return Ok(None);
    };
    if *name == "seek".as_bytes() {
        Ok(seek_call(words))
    } else if *name == "write".as_bytes() {
        write_call(alloc, words)
    } else if *name == "writetext".as_bytes() {
        writetext_call(alloc, words)
    } else if *name == "writelines".as_bytes() {
        Ok(words_bytes(alloc, words)?.map(Call::WriteLines))
    } else {
        other_call(alloc, name, words)
    }
}

/// The call of another word: of `seektext`, of `reconfigure`, or of one with at most a size after it.
fn other_call(alloc: Global, name: &[u8], words: &[&[u8]]) -> Result<Option<Call>, AllocError>
    ensures { IfOk result (λ call. call ≡ other_call name.now (map (λ word. word.now) words.now)) }
{
    if name == "seektext".as_bytes() {
        seektext_call(alloc, words)
    } else if name == "reconfigure".as_bytes() {
        Ok(parse_settings(alloc, words)?.map(Call::Reconfigure))
    } else {
        Ok(reading_call(name, words))
    }
}

/// The call of what stands after `seek`: an offset, and a whence, which is 0 (from the start) where there is none.
fn seek_call(words: &[&[u8]]) -> Option<Call>
    ensures { result ≡ seek_call (map (λ word. word.now) words.now) }
{
    match words {
        [offset] => Some(Call::Seek(parse_integer(offset)?, 0)),
        [offset, whence] => Some(Call::Seek(parse_integer(offset)?, parse_whence(whence)?)),
        _ => None,
    }
}

/// The call of what stands after `seektext`: a cookie's bytes, and a whence, which is 0 (by the cookie) where there is none.
fn seektext_call(alloc: Global, words: &[&[u8]]) -> Result<Option<Call>, AllocError>
    ensures { IfOk result (λ call. call ≡ seektext_call (map (λ word. word.now) words.now)) }
{
    let (cookie, whence) = match words {
        [cookie] => (cookie, 0),
        [cookie, whence] => match parse_whence(whence) {
            Some(whence) => (cookie, whence),
            None => return Ok(None),
        },
        _ => return Ok(None),
    };
    Ok(word_bytes(alloc, cookie)?.map(|cookie| Call::SeekText(cookie, whence)))
}

/// The call of what stands after `write`: bytes.
fn write_call(alloc: Global, words: &[&[u8]]) -> Result<Option<Call>, AllocError>
    ensures { IfOk result (λ call. call ≡ write_call (map (λ word. word.now) words.now)) }
{
    match words {
        [bytes] => Ok(word_bytes(alloc, bytes)?.map(Call::Write)),
        _ => Ok(None),
    }
}

/// The call of what stands after `writetext`: the UTF-8 of a text.
fn writetext_call(alloc: Global, words: &[&[u8]]) -> Result<Option<Call>, AllocError>
    ensures { IfOk result (λ call. call ≡ writetext_call (map (λ word. word.now) words.now)) }
{
    match words {
        [text] => Ok(word_text(alloc, text)?.map(Call::WriteText)),
        _ => Ok(None),
    }
}

/// The call of a word with at most a size after it.
fn reading_call(name: &[u8], words: &[&[u8]]) -> Option<Call>
    ensures { result ≡ reading_call name.now (map (λ word. word.now) words.now) }
{
    match words {
        [] => plain_call(name),
        [size] => sized_call(name, parse_decimal(size)?),
        _ => None,
    }
}

/// The call of a word that stands alone: a reading or a truncation without a size, and each call that takes nothing.
fn plain_call(name: &[u8]) -> Option<Call>
    ensures { result ≡ plain_call name.now }
{
    if name == "read".as_bytes() {
        Some(Call::Read(None))
    } else if name == "read1".as_bytes() {
        Some(Call::Read1(None))
    } else if name == "readline".as_bytes() {
        Some(Call::ReadLine(None))
    } else if name == "readlines".as_bytes() {
        Some(Call::ReadLines(None))
    } else if name == "peek".as_bytes() {
        Some(Call::Peek)
    } else if name == "tell".as_bytes() {
        Some(Call::Tell)
    } else if name == "truncate".as_bytes() {
        Some(Call::Truncate(None))
    } else if name == "flush".as_bytes() {
        Some(Call::Flush)
    } else if name == "close".as_bytes() {
        Some(Call::Close)
    } else if name == "detach".as_bytes() {
        Some(Call::Detach)
    } else if name == "readable".as_bytes() {
        Some(Call::Readable)
    } else if name == "writable".as_bytes() {
        Some(Call::Writable)
    } else if name == "seekable".as_bytes() {
        Some(Call::Seekable)
    } else if name == "closed".as_bytes() {
        Some(Call::Closed)
    } else if name == "chunksize".as_bytes() {
        Some(Call::ChunkSize)
    } else if name == "encoding".as_bytes() {
        Some(Call::Encoding)
    } else if name == "errors".as_bytes() {
        Some(Call::Errors)
    } else {
        None
    }
}

/// The call of a word with a size after it: each reading of so much, a truncation to it, and chunks of it.
fn sized_call(name: &[u8], size: usize) -> Option<Call>
    ensures { result ≡ sized_call name.now size }
{
    if name == "read".as_bytes() {
        Some(Call::Read(Some(size)))
    } else if name == "read1".as_bytes() {
        Some(Call::Read1(Some(size)))
    } else if name == "readline".as_bytes() {
        Some(Call::ReadLine(Some(size)))
    } else if name == "readlines".as_bytes() {
        Some(Call::ReadLines(Some(size)))
    } else if name == "readinto".as_bytes() {
        Some(Call::ReadInto(size))
    } else if name == "readinto1".as_bytes() {
        Some(Call::ReadInto1(size))
    } else if name == "truncate".as_bytes() {
        Some(Call::Truncate(Some(size as u64)))
    } else if name == "chunksize".as_bytes() {
        Some(Call::SetChunkSize(size))
    } else {
        None
    }
}
