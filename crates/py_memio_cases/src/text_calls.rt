//! The calls of a `StringIO`.
use crate::answers;
use crate::words::{bytes_of, place_of, size_of, split};
use anyhow::{Result, anyhow};
use py_memio::StringIO;
use std::alloc::Global;

/// A stream of a text by its UTF-8.
pub(crate) fn stream_of(alloc: Global, word: &str) -> Result<StringIO> {
    let bytes = bytes_of(alloc, word)?;
    Ok(StringIO::new(alloc, str::from_utf8(&bytes)?)?)
}

/// Makes a call, and answers what came as words.
pub(crate) fn answer(alloc: Global, stream: &mut StringIO, call: &str) -> Result<String> {
    let (name, words) = split(call);
    match name {
        "read" => answers::text(alloc, stream.read(alloc, size_of(words)?)),
        "readline" => answers::text(alloc, stream.readline(alloc, size_of(words)?)),
        "write" => {
            let bytes = bytes_of(alloc, words)?;
            answers::count(alloc, stream.write(str::from_utf8(&bytes)?))
        }
        "seek" => {
            let (offset, whence) = split(words);
            answers::number(
                alloc,
                stream.seek(offset.parse::<i64>()?, whence.parse::<i32>()?),
            )
        }
        "tell" => answers::number(alloc, stream.tell()),
        "truncate" => answers::number(alloc, stream.truncate(place_of(words)?)),
        "getvalue" => answers::text(alloc, stream.getvalue(alloc)),
        "flush" => answers::done(alloc, stream.flush()),
        "close" => answers::done(alloc, stream.close()),
        "closed" => answers::flag(alloc, stream.closed()),
        "readable" => answers::flag(alloc, stream.readable()),
        "writable" => answers::flag(alloc, stream.writable()),
        "seekable" => answers::flag(alloc, stream.seekable()),
        name => Err(anyhow!("no call {name}")),
    }
}
