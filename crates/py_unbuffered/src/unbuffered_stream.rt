//! The stream without a buffer.
ghost use Rattle.std.specs.Prelude.{◌≡◌, false, [], length, IsTrue, IfErr};
ghost use Rattle.py_flat.specs.Calls.{FileCall, Read, ReadLine, ReadLines, ReadInto, Write, WriteLines, Seek, Tell, Truncate, Flush, Close, Refused};
ghost use Rattle.py_flat.specs.ExactStep.{is_closed};
ghost use Rattle.py_stream.specs.Answers.{Answers, RefusesAlone};
ghost use Rattle.py_stream.specs.Replies.{bytes_reply, into_reply, CountFits, KeepsBuffer, lines_reply, taken_reply, place_reply, done_reply};
ghost use Rattle.py_stream.specs.Opening.{StandsAtStart, NewOutcome};
ghost use Rattle.py_stream.specs.Handing.{HandsParts};
ghost use Rattle.py_stream.specs.Access.{can_of, is_able};

use crate::data::UnbufferedData;
use py_raw::{IoFault, Life, Lines, RawStream};
use py_stream::{
    Access, Detached, NewRefused, first_place, read_line, read_lines, refuse, refused_at_first,
    refused_raw, seek, tell, truncate,
};
use std::alloc::Global;
use std::marker::Model;

/// A binary stream whose calls go to the raw stream below at once, as Python's `open` gives for `buffering=0`.
///
/// It is seen as a `Stream` without a buffer: what its raw shows, its place, what it can do, its life, and whether its last
/// answer was short. Sizes, limits and hints are bytes; places are bytes from the start of the stream, from 0 to
/// 9223372036854775807.
///
/// Each call first answers by the life, with all as it was: `Failed` after a fault, or running out of memory that failed it, and
/// `Closed` after a `close` (which may be called again). Then it is `Unsupported` where the stream isn't opened for it. Else, where
/// the raw failed in the call, it is `RawFault`: the stream is failed from then on (after `close` closed). A `read` of a size, a
/// `readinto` and a `write` make one transfer of the raw, which may move fewer bytes than asked. Where the raw would have blocked,
/// a call answers what came by then, never nothing, or `None` where nothing had, with all as it was; `short` is true then.
/// `NoMemory` means out of memory; what stands then, each call says. What waits and faults leave is this project's choice
/// (docs/DECISIONS.md), all else the rule of Python's `io.RawIOBase` and `io.FileIO`.
#[derive(Debug, Drop)]
pub struct UnbufferedStream<R: RawStream> {
    data: UnbufferedData<R>,
}

impl<R: RawStream> Model for UnbufferedStream<R> {
    ghost use Rattle.py_stream.specs.Stream.{Stream};
    ghost use Rattle.py_unbuffered.specs.Engine.{stream_of};

    ghost Value = { Stream };

    ghost view = { λ s. stream_of s.data };
}

impl<R: RawStream> UnbufferedStream<R> {
    /// A stream over a raw stream, from where that stands; one that appends begins at the end, to which a raw that can seek is
    /// moved. A raw that can seek is asked for its place; one that can't stands at place 0. It takes no memory of its own.
    ///
    /// Refused, the raw is handed back with nothing read or written: `Closed` where it is closed, then `Unsupported` where it
    /// can't do what the stream is opened for, and `RawFault` where it failed to say where it stands or ends, or to move
    /// there. But for the last it is as it was; `NoMemory` comes only of a raw that takes some.
    pub fn new(raw: R, access: Access) -> Result<Self, NewRefused<R>>
        requires start { StandsAtStart (R.shows raw) }
        ensures outcome { NewOutcome R.shows (is_able access None) (can_of access) raw None result }
        ensures memory { IfErr result (λ refused. refused.fault ≡ IoFault.NoMemory → IsTrue (R.shows raw).takes_memory) }
    {
        let mut raw = raw;
        if let Some(fault) = refused_at_first(&raw, access.suits(None, &raw), None) {
            return Err(NewRefused { raw, fault });
        }
        match first_place(&mut raw, access.appends()) {
            Ok(place) => Ok(UnbufferedStream {
                data: UnbufferedData::new(raw, place, access),
            }),
            Err(error) => Err(refused_raw(raw, error)),
        }
    }

    /// Reads some of the next bytes, at most `size`, by one transfer: none only where `size` is 0 or nothing is left. For
    /// `None` all that are left, or up to a wait.
    ///
    /// Space for a `size` is taken before the transfer. For `None` the space up to where the raw guesses that it ends is taken at once,
    /// where there is so much; the reading goes on until the end is met, wherever that is by then. `NoMemory` leaves the stream as it
    /// was, unless bytes had left the raw already: then it is failed.
    pub fn read(&mut self, alloc: Global, size: Option<usize>) -> Result<Option<Vec<u8>>, IoFault>
        ensures { Answers self.old (Read size) (bytes_reply result) self.new }
    {
        self.data.read(alloc, size)
    }

    /// Reads some of the next bytes into the front of `buffer`, by one transfer, and answers how many: none only where
    /// `buffer` is empty or nothing is left. What `buffer` has after them may have changed.
    ///
    /// Every error but `RawFault` and `NoMemory` leaves `buffer` as it was. It takes no memory: `NoMemory` comes only of a raw that
    /// takes some, and leaves the stream as it was.
    pub fn readinto(&mut self, buffer: &mut [u8]) -> Result<Option<usize>, IoFault>
        ensures answers { Answers self.old (ReadInto (length buffer.old)) (into_reply result buffer.new) self.new }
        ensures length { length buffer.new ≡ length buffer.old }
        ensures fits { CountFits result buffer.new }
        ensures refused { KeepsBuffer result buffer.old buffer.new }
    {
        self.data.readinto(buffer)
    }

    /// Reads the bytes up to and with the next LF, at most `limit`; the last line may lack its LF. No bytes come only where
    /// `limit` is 0 or nothing is left. Each byte is a transfer of its own, since none may be held back.
    ///
    /// `NoMemory` leaves the stream as it was, unless bytes had left the raw already: then it is failed.
    pub fn readline(
        &mut self,
        alloc: Global,
        limit: Option<usize>,
    ) -> Result<Option<Vec<u8>>, IoFault>
        ensures { Answers self.old (ReadLine limit) (bytes_reply result) self.new }
    {
        read_line(&mut self.data, alloc, limit)
    }

    /// Reads lines, each with its LF but for the last, which may lack it, until their total is above `hint`; all that are left
    /// for `None` and 0. A short answer's last line may lack its LF too.
    ///
    /// `NoMemory` leaves the stream as it was, unless bytes had left the raw already: then it is failed.
    pub fn readlines(
        &mut self,
        alloc: Global,
        hint: Option<usize>,
    ) -> Result<Option<Lines>, IoFault>
        ensures { Answers self.old (ReadLines hint) (lines_reply result) self.new }
    {
        read_lines(&mut self.data, alloc, hint)
    }

    /// Writes some front of `bytes` at the place, by one transfer, and answers how many bytes of it: none only of no bytes.
    /// `None`: the raw would have blocked, and took nothing.
    ///
    /// `TooFar` where they would end past 9223372036854775807: all is as it was. After `RawFault` the raw may have a front of
    /// `bytes`. It takes no memory: `NoMemory` comes only of a raw that takes some, and leaves the stream as it was.
    pub fn write(&mut self, bytes: &[u8]) -> Result<Option<usize>, IoFault>
        ensures { Answers self.old (Write bytes.now) (taken_reply result) self.new }
    {
        self.data.write(bytes)
    }

    /// Writes all lines as they are, by as many transfers as it takes.
    ///
    /// `TooFar` where they would end past 9223372036854775807: all is as it was. `WouldBlock { taken }` where the raw would have
    /// blocked: it has the first `taken` bytes of the lines joined; go on after them. After `RawFault` the place tells how many it
    /// answered for. It takes no memory: `NoMemory` comes only of a raw that takes some; the stream is failed where the raw has
    /// bytes of the lines already.
    pub fn writelines(&mut self, lines: &Lines) -> Result<(), IoFault>
        ensures { Answers self.old (WriteLines lines.now) (done_reply result) self.new }
    {
        self.data.writelines(lines)
    }

    /// Moves to `offset` bytes from the start (`whence` 0), the place (1) or the end (2), past the end too, and answers the new
    /// place. `Whence` has names for the three: `seek(0, Whence::End.into())`.
    ///
    /// `Unsupported` where the raw can't seek, and of a stream that appends; `BadWhence` for another `whence`, `NegativeSeek`
    /// and `TooFar` for a target below 0 or past 9223372036854775807: all is as it was. From the end, the raw is asked first
    /// where that is, and may fail. It takes no memory: `NoMemory` comes only of a raw that takes some, and leaves the place.
    pub fn seek(&mut self, offset: i64, whence: i32) -> Result<u64, IoFault>
        ensures { Answers self.old (Seek offset whence) (place_reply result) self.new }
    {
        seek(&mut self.data, offset, whence)
    }

    /// The place. `Unsupported` where the raw can't seek; nothing else refuses it but the life. It calls no raw.
    pub fn tell(&mut self) -> Result<u64, IoFault>
        ensures { Answers self.old Tell (place_reply result) self.new }
    {
        tell(&mut self.data)
    }

    /// Cuts the raw's bytes to a size, or lengthens them by zeros, and answers it; without a size to the place. The place is kept, and may
    /// lie past the end then.
    ///
    /// `Unsupported` of a stream that doesn't write, where the raw can't seek, and of a stream that appends; `TooFar` for a size past
    /// 9223372036854775807: all is as it was. After `RawFault` the stream is failed, and the raw's bytes may have the size, or not. It
    /// takes no memory: `NoMemory` comes only of a raw that takes some, and leaves the stream as it was.
    pub fn truncate(&mut self, size: Option<u64>) -> Result<u64, IoFault>
        ensures { Answers self.old (Truncate size) (place_reply result) self.new }
    {
        truncate(&mut self.data, size)
    }

    /// The refusal of a call that the stream lacks (one that it isn't opened for, or one that needs a buffer), or that the life
    /// doesn't let through: by the life, else `Unsupported`, with all as it was. It calls no raw. It is for those who
    /// take calls as values.
    pub fn refuse(&mut self) -> IoFault
        ensures { (call : FileCall) → RefusesAlone self.old call → Answers self.old call (Refused result) self.new }
    {
        refuse(&mut self.data)
    }

    /// Does nothing: there is nothing to pass on. Only the life refuses it. It calls no raw.
    pub fn flush(&mut self) -> Result<(), IoFault>
        ensures { Answers self.old Flush (done_reply result) self.new }
    {
        self.data.flush()
    }

    /// Closes the raw; the stream stays closed after `RawFault` too. A closed stream may be closed again, which calls no raw.
    ///
    /// It takes no memory: `NoMemory` comes only of a raw that takes some, and leaves the stream live.
    pub fn close(&mut self) -> Result<(), IoFault>
        ensures { Answers self.old Close (done_reply result) self.new }
    {
        self.data.close()
    }

    /// The raw, with nothing unwritten, and the place (`None` where the raw can't seek), in every life. It calls no raw and
    /// takes no memory.
    pub fn into_parts(self, alloc: Global) -> Detached<R>
        ensures hands { HandsParts self (R.shows result.raw) result.unwritten.items result.place }
        ensures none { result.unwritten.items ≡ [] }
    {
        let UnbufferedStream { data } = self;
        let seekable = data.live().seekable();
        let (raw, place) = data.into_parts();
        Detached {
            raw,
            unwritten: Vec::new(alloc),
            place: if seekable { Some(place) } else { None },
        }
    }

    /// Whether the stream reads: where it was opened for it.
    pub fn readable(&self) -> bool
        ensures { result ≡ self.now.can.readable }
    {
        self.data.live().reads()
    }

    /// Whether the stream writes: where it was opened for it.
    pub fn writable(&self) -> bool
        ensures { result ≡ self.now.can.writable }
    {
        self.data.live().writes()
    }

    /// Whether the stream's raw can be moved. A stream that appends isn't moved, whatever its raw can.
    pub fn seekable(&self) -> bool
        ensures { result ≡ self.now.can.seekable }
    {
        self.data.live().seekable()
    }

    /// Whether the stream was closed.
    pub fn closed(&self) -> bool
        ensures { result ≡ is_closed self.now.life }
    {
        matches!(self.life(), Life::Closed)
    }

    /// What became of the stream: live at first, failed by a fault, or closed.
    pub fn life(&self) -> Life
        ensures { result ≡ self.now.life }
    {
        self.data.live().life()
    }

    /// Whether a wait of the raw cut the last call short: its answer is what came by then, or none.
    pub fn short(&self) -> bool
        ensures { result ≡ self.now.short }
    {
        self.data.live().short()
    }

    /// Forgets that a wait cut the last call short. It is for those who answer a call by themselves, which then is the last one.
    pub fn forget_wait(&mut self)
        ensures { self.new ≡ record self.old { short = false } }
    {
        self.data.note_wait(false);
    }

    /// The raw, lent.
    pub fn raw(&self) -> &R
        ensures { R.shows result.now ≡ self.now.raw }
    {
        self.data.live().raw()
    }
}
