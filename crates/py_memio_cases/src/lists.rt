//! Lists of calls, one after the other.
use crate::words::split;
use crate::{buffered_calls, bytes_calls, text_calls};
use anyhow::{Result, anyhow};
use py_memio::{BytesIO, StringIO};
use std::alloc::Global;

/// How many lists and calls there were, and how many were answered otherwise. A count stands still at its type's end.
#[derive(Clone, Copy)]
pub(crate) struct Tally {
    pub(crate) lists: u64,
    pub(crate) calls: u64,
    pub(crate) differ: u64,
}

/// The stream of a list.
#[derive(Drop)]
enum Stream {
    Text(StringIO),
    Bytes(BytesIO),
    Buffered(BytesIO),
}

impl Stream {
    /// The stream that a first line of a list begins, of bytes as a buffered stream where that is asked for; `None` of a call's line.
    fn begun(alloc: Global, line: &str, buffered: bool) -> Result<Option<Stream>> {
        let (word, content) = split(line);
        match word {
            "text" => Ok(Some(Stream::Text(text_calls::stream_of(alloc, content)?))),
            "bytes" => {
                let stream = bytes_calls::stream_of(alloc, content)?;
                Ok(Some(if buffered {
                    Stream::Buffered(stream)
                } else {
                    Stream::Bytes(stream)
                }))
            }
            _ => Ok(None),
        }
    }

    /// Makes a call, and answers what came as words.
    fn answer(&mut self, alloc: Global, call: &str) -> Result<String> {
        match self {
            Stream::Text(stream) => text_calls::answer(alloc, stream, call),
            Stream::Bytes(stream) => bytes_calls::answer(alloc, stream, call),
            Stream::Buffered(stream) => {
                if let Some(came) = buffered_calls::answer(alloc, stream, call)? {
                    return Ok(came);
                }
                bytes_calls::answer(alloc, stream, call)
            }
        }
    }
}

/// Runs the lists of a file, of bytes as buffered streams where that is asked for, and prints each call that is answered otherwise.
pub(crate) fn run_file(rt: &HostRuntime, text: &str, buffered: bool) -> Result<Tally> {
    let mut tally = Tally {
        lists: 0,
        calls: 0,
        differ: 0,
    };
    let mut stream = None;
    for (number, line) in text.lines().enumerate() {
        if let Some(begun) = Stream::begun(rt.alloc(), line, buffered)? {
            tally.lists = tally.lists.saturating_add(1);
            stream = Some(begun);
            continue;
        }
        let (Some(stream), Some((call, expected))) = (&mut stream, line.split_once(" = ")) else {
            return Err(anyhow!("line {number} is no call of a list"));
        };
        let came = stream.answer(rt.alloc(), call)?;
        tally.calls = tally.calls.saturating_add(1);
        if came.as_str() != expected {
            tally.differ = tally.differ.saturating_add(1);
            println!(rt; "line {number}: {line}, came {came}")?;
        }
    }
    Ok(tally)
}
