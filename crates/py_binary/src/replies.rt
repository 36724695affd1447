//! Replies that hold what a stream's calls answered.
ghost use Rattle.std.specs.Prelude.{◌≡◌, Err, IfOk};
ghost use Rattle.py_calls.specs.Calls.{said};
ghost use Rattle.py_stream.specs.Replies as seen;
ghost use Rattle.py_binary.specs.Kinds.{CopiesLent};

use py_calls::Reply;
use py_raw::{Data, IoFault, Lines};
use std::alloc::Global;

/// The reply of a reading that gives bytes, or isn't ready.
pub(crate) fn bytes_reply(answer: Result<Option<Vec<u8>>, IoFault>) -> Reply
    ensures { said result ≡ seen.bytes_reply answer }
{
    match answer {
        Ok(Some(part)) => Reply::Bytes(Data::from_vec(part)),
        Ok(None) => Reply::NotReady,
        Err(fault) => Reply::Refused(fault),
    }
}

/// The reply of a look: a copy of the bytes that it lent, or `NoMemory` without space for them.
pub(crate) fn copy_reply(alloc: Global, answer: Result<Option<&[u8]>, IoFault>) -> Reply
    ensures { CopiesLent answer.entry (said result) }
{
    match answer {
        Ok(Some(part)) => match Data::from_slice(alloc, part) {
            Ok(bytes) => Reply::Bytes(bytes),
            Err(_) => Reply::Refused(IoFault::NoMemory),
        },
        Ok(None) => Reply::NotReady,
        Err(fault) => Reply::Refused(fault),
    }
}

/// The reply of a reading that gives lines, or isn't ready.
pub(crate) fn lines_reply(answer: Result<Option<Lines>, IoFault>) -> Reply
    ensures { said result ≡ seen.lines_reply answer }
{
    match answer {
        Ok(Some(lines)) => Reply::Lines(lines),
        Ok(None) => Reply::NotReady,
        Err(fault) => Reply::Refused(fault),
    }
}

/// The reply of a write that takes all.
pub(crate) fn count_reply(answer: Result<usize, IoFault>) -> Reply
    ensures { said result ≡ seen.count_reply answer }
{
    match answer {
        Ok(count) => Reply::Count(count as u64),
        Err(fault) => Reply::Refused(fault),
    }
}

/// The reply of a write by one transfer, or that isn't ready.
pub(crate) fn taken_reply(answer: Result<Option<usize>, IoFault>) -> Reply
    ensures { said result ≡ seen.taken_reply answer }
{
    match answer {
        Ok(Some(count)) => Reply::Count(count as u64),
        Ok(None) => Reply::NotReady,
        Err(fault) => Reply::Refused(fault),
    }
}

/// The reply of a call that answers a place.
pub(crate) fn place_reply(answer: Result<u64, IoFault>) -> Reply
    ensures { said result ≡ seen.place_reply answer }
{
    match answer {
        Ok(place) => Reply::Place(place),
        Err(fault) => Reply::Refused(fault),
    }
}

/// The reply of a call that has nothing to say.
pub(crate) fn done_reply(answer: Result<(), IoFault>) -> Reply
    ensures { said result ≡ seen.done_reply answer }
{
    match answer {
        Ok(()) => Reply::Done,
        Err(fault) => Reply::Refused(fault),
    }
}

/// The reply of a reading into a buffer, which becomes the bytes that were given.
pub(crate) fn into_reply(answer: Result<Option<usize>, IoFault>, buffer: Vec<u8>) -> Reply
    ensures { said result ≡ seen.into_reply answer buffer.items }
{
    match answer {
        Ok(Some(count)) => {
            let mut part = buffer;
            part.truncate(count);
            Reply::Bytes(Data::from_vec(part))
        }
        Ok(None) => Reply::NotReady,
        Err(fault) => Reply::Refused(fault),
    }
}
