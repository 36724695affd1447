//! The calls that every buffered stream has, made through their trait.
use crate::answers;
use crate::bytes_calls::bytes;
use crate::words::{bytes_of, size_of, split};
use anyhow::Result;
use py_memio::IoFault;
use py_stream::BufferedStream;
use std::alloc::Global;

/// Bytes that were read, or that nothing was ready.
fn given(alloc: Global, came: Result<Option<Vec<u8>>, IoFault>) -> Result<String> {
    match came {
        Ok(Some(given)) => bytes(alloc, Ok(given)),
        Ok(None) => Ok(String::from_str(alloc, "not ready")?),
        Err(fault) => answers::refused(alloc, fault),
    }
}

/// Makes a call, and answers what came as words; `None` of a call that the trait hasn't.
pub(crate) fn answer<B: BufferedStream>(
    alloc: Global,
    stream: &mut B,
    call: &str,
) -> Result<Option<String>> {
    let (name, words) = split(call);
    let came = match name {
        "read1" => given(alloc, stream.read1(alloc, size_of(words)?))?,
        "write" => answers::count(alloc, stream.write(&bytes_of(alloc, words)?))?,
        "seek" => {
            let (offset, whence) = split(words);
            answers::number(
                alloc,
                stream.seek(offset.parse::<i64>()?, whence.parse::<i32>()?),
            )?
        }
        "tell" => answers::number(alloc, stream.tell())?,
        "end" => answers::number(alloc, stream.end())?,
        "flush" => answers::done(alloc, stream.flush())?,
        "close" => answers::done(alloc, stream.close())?,
        "taken" => answers::number(alloc, Ok(stream.taken()))?,
        "exported" => answers::flag(alloc, stream.exported())?,
        "closed" => answers::flag(alloc, stream.closed())?,
        "readable" => answers::flag(alloc, stream.readable())?,
        "writable" => answers::flag(alloc, stream.writable())?,
        "seekable" => answers::flag(alloc, stream.seekable())?,
        _ => return Ok(None),
    };
    Ok(Some(came))
}
