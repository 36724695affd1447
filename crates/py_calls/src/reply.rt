//! The replies of a session.
ghost use Rattle.std.specs.Prelude.{◌≡◌, IfOk};
ghost use Rattle.py_calls.specs.Calls.{said};
ghost use Rattle.py_stream.specs.Kinds.{says_wait, says_fault};

use py_flat::{Chars, Data, IoFault, Lines};
use py_plain_text::TextIOCookie;
use std::alloc::{AllocError, Global};

/// What a session answers to a call. `Session::call` says which replies come of which call.
#[derive(Debug, PartialEq, Eq, Drop)]
pub enum Reply {
    /// Bytes that were read; none at the end, and where none were asked for.
    Bytes(Data),
    /// Characters that were read; none at the end, and where none were asked for.
    Text(Chars),
    /// Lines that were read, each with its end but for the last, which may lack one.
    Lines(Lines),
    /// How many bytes or characters were written; of `ChunkSize` the size.
    Count(u64),
    /// A place from the start of the stream, or the size of a truncated file, in bytes.
    Place(u64),
    /// Where a text stands.
    Cookie(TextIOCookie),
    /// The call was carried out, and has nothing else to say.
    Done,
    /// The raw would have blocked before there was anything to answer: nothing was taken, and the call may be made again.
    NotReady,
    /// Yes or no.
    Flag(bool),
    /// The name of an encoding or a handler.
    Name(Chars),
    /// The bytes that the raw isn't known to have taken, and where the first of them belongs (`None` where the raw
    /// can't seek).
    Unwritten { bytes: Data, place: Option<u64> },
    /// Why the call was refused.
    Refused(IoFault),
}

impl Reply {
    /// A copy of the same reply, or `AllocError` when out of memory; this one stays as it is.
    pub fn try_clone(&self, alloc: Global) -> Result<Self, AllocError>
        ensures { IfOk result (λ reply. reply ≡ self.now) }
    {
        Ok(match self {
            Reply::Bytes(bytes) => Reply::Bytes(bytes.try_clone(alloc)?),
            Reply::Text(text) => Reply::Text(text.try_clone(alloc)?),
            Reply::Lines(lines) => Reply::Lines(lines.try_clone(alloc)?),
            Reply::Count(count) => Reply::Count(*count),
            Reply::Place(place) => Reply::Place(*place),
            Reply::Cookie(cookie) => Reply::Cookie(*cookie),
            Reply::Done => Reply::Done,
            Reply::NotReady => Reply::NotReady,
            Reply::Flag(value) => Reply::Flag(*value),
            Reply::Name(name) => Reply::Name(name.try_clone(alloc)?),
            Reply::Unwritten { bytes, place } => Reply::Unwritten {
                bytes: bytes.try_clone(alloc)?,
                place: *place,
            },
            Reply::Refused(fault) => Reply::Refused(*fault),
        })
    }

    /// Whether this says that the raw would have blocked: `NotReady`, or a write that waited.
    pub fn says_wait(&self) -> bool
        ensures { result ≡ says_wait (said self.now) }
    {
        matches!(
            self,
            Reply::NotReady | Reply::Refused(IoFault::WouldBlock { .. })
        )
    }

    /// Whether this says that the raw failed in this call.
    pub fn says_fault(&self) -> bool
        ensures { result ≡ says_fault (said self.now) }
    {
        matches!(self, Reply::Refused(IoFault::RawFault))
    }
}
