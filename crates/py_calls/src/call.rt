//! The calls that are made on a session.
ghost use Rattle.std.specs.Prelude.{◌≡◌, IfOk};

use py_flat::{Chars, Data, Lines};
use py_text::Reconfigure;
use std::alloc::{AllocError, Global};

/// A call of a session, by the methods of Python's `io` streams.
///
/// Sizes, limits, hints and counts are bytes of a binary session and characters of a text one; `None` stands for one
/// that isn't given. Places, offsets and the size of a truncation are bytes from the start of the stream. `Session::call`
/// says which calls a session has; the others it refuses.
#[derive(Debug, PartialEq, Eq, Drop)]
pub enum Call {
    /// Reads n, or all that are left.
    Read(Option<usize>),
    /// Reads by one transfer, at most n bytes.
    Read1(Option<usize>),
    /// Reads a line with its end, at most n of it.
    ReadLine(Option<usize>),
    /// Reads lines until their total is above the hint, or all.
    ReadLines(Option<usize>),
    /// Shows some bytes that come next.
    Peek,
    /// Reads n bytes into a buffer.
    ReadInto(usize),
    /// Reads at most n bytes into a buffer, by one transfer.
    ReadInto1(usize),
    /// Writes bytes.
    Write(Data),
    /// Writes lines, one after the other.
    WriteLines(Lines),
    /// Writes a text.
    WriteText(Chars),
    /// Moves by an offset from the start (0), the place (1) or the end (2), which `Whence` names.
    Seek(i64, i32),
    /// Moves a text to where a cookie says (0); or, by zeros, to where it stands (1) or its bytes end (2).
    SeekText(Data, i32),
    /// Asks for the place, of a text for its cookie.
    Tell,
    /// Cuts or lengthens the file to a size, or to the place.
    Truncate(Option<u64>),
    /// Passes on to the raw what was written and not passed on yet.
    Flush,
    /// Closes the session.
    Close,
    /// Hands the lower stream back.
    Detach,
    /// Asks for a text's chunk size, in bytes.
    ChunkSize,
    /// Sets a text's chunk size, in bytes.
    SetChunkSize(usize),
    /// Gives a text other settings; those that are `None` stay.
    Reconfigure(Reconfigure),
    /// Asks whether the session reads.
    Readable,
    /// Asks whether it writes.
    Writable,
    /// Asks whether it can be moved.
    Seekable,
    /// Asks whether it is closed.
    Closed,
    /// Asks for a text's encoding.
    Encoding,
    /// Asks for a text's handler.
    Errors,
}

impl Call {
    /// A copy of the same call, or `AllocError` when out of memory; this one stays as it is.
    pub fn try_clone(&self, alloc: Global) -> Result<Self, AllocError>
        ensures { IfOk result (λ call. call ≡ self.now) }
    {
        Ok(match self {
            Call::Read(size) => Call::Read(*size),
            Call::Read1(size) => Call::Read1(*size),
            Call::ReadLine(limit) => Call::ReadLine(*limit),
            Call::ReadLines(hint) => Call::ReadLines(*hint),
            Call::Peek => Call::Peek,
            Call::ReadInto(size) => Call::ReadInto(*size),
            Call::ReadInto1(size) => Call::ReadInto1(*size),
            Call::Write(bytes) => Call::Write(bytes.try_clone(alloc)?),
            Call::WriteLines(lines) => Call::WriteLines(lines.try_clone(alloc)?),
            Call::WriteText(text) => Call::WriteText(text.try_clone(alloc)?),
            Call::Seek(offset, whence) => Call::Seek(*offset, *whence),
            Call::SeekText(cookie, whence) => Call::SeekText(cookie.try_clone(alloc)?, *whence),
            Call::Tell => Call::Tell,
            Call::Truncate(size) => Call::Truncate(*size),
            Call::Flush => Call::Flush,
            Call::Close => Call::Close,
            Call::Detach => Call::Detach,
            Call::ChunkSize => Call::ChunkSize,
            Call::SetChunkSize(size) => Call::SetChunkSize(*size),
            Call::Reconfigure(changes) => Call::Reconfigure(*changes),
            Call::Readable => Call::Readable,
            Call::Writable => Call::Writable,
            Call::Seekable => Call::Seekable,
            Call::Closed => Call::Closed,
            Call::Encoding => Call::Encoding,
            Call::Errors => Call::Errors,
        })
    }
}
