//! What a stream holds before it is timed.

use crate::task::SHORT;
use py_memio::{BytesIO, IoFault, StringIO};
use std::alloc::Global;

/// A line of 50 bytes, all of them of ASCII.
const LINE: &str = "plain text to the end of a line, and the next one\n";

/// A stream in memory.
#[derive(Drop)]
pub(crate) enum Stream {
    Bytes(BytesIO),
    Text(StringIO),
}

/// A stream of as many lines of bytes, at its start.
pub(crate) fn lines_of_bytes(alloc: Global, count: u32) -> Result<Stream, IoFault> {
    let mut bytes = Vec::new(alloc);
    for _ in 0..count {
        if bytes.extend_from_slice(LINE.as_bytes()).is_err() {
            return Err(IoFault::NoMemory);
        }
    }
    Ok(Stream::Bytes(BytesIO::new(alloc, bytes)))
}

/// A stream of as many short lines of a text, at its start.
pub(crate) fn lines_of_text(alloc: Global, count: u32) -> Result<Stream, IoFault> {
    let mut text = String::new(alloc);
    for _ in 0..count {
        if text.push_str(SHORT).is_err() {
            return Err(IoFault::NoMemory);
        }
    }
    Ok(Stream::Text(StringIO::new(alloc, text.as_str())?))
}
