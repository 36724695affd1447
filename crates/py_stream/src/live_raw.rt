//! A raw stream under the stream that calls it.
ghost use Rattle.std.specs.Prelude.{◌≡◌, ◌+◌, ◌<◌, ◌≤◌, false, length, IfSome};
ghost use Rattle.py_flat.specs.Limits.{greatest_place};
ghost use Rattle.py_raw.specs.RawStream.{Keeps, StaysOpen, WriteFits, SeekOutcome, EndOutcome, TruncateOutcome, CloseOutcome};
ghost use Rattle.py_stream.specs.Access.{is_read, can_of};
ghost use Rattle.py_stream.specs.Reading.{is_wait, has_answer};
ghost use Rattle.py_stream.specs.LiveRaw.{is_movable as movable, is_truncatable as truncatable, LetsBegin, Calls, TransferOutcome, GiveOutcome, starved, fault_of, life_after};

use crate::{Access, Stop, life_fault};
use py_raw::{GREATEST_PLACE, IoFault, Life, RawError, RawStream};
use std::marker::Model;

/// A raw stream, what the stream over it is opened for, what became of that stream, and whether a wait of the raw cut its last
/// answer short.
///
/// Where a call of the raw fails, so does the stream. Where it runs out of memory, the stream fails if bytes had moved in the call
/// already: `moved` says so.
#[derive(Debug, Drop)]
pub struct LiveRaw<R: RawStream> {
    raw: R,
    access: Access,
    life: Life,
    short: bool,
}

impl<R: RawStream> Model for LiveRaw<R> {
    ghost use Rattle.py_stream.specs.LiveRaw.{LiveView};

    ghost Value = { LiveView };

    ghost view = { λ l. record { raw = R.shows l.raw; access = l.access; life = l.life; short = l.short } };
}

/// How many bytes at the front of a buffer may be filled at a place, so that none lies past the greatest.
fn room(size: usize, place: u64) -> usize
    requires { place ≤ greatest_place }
    ensures within { place + result ≤ greatest_place }
    ensures fits { result ≤ size }
    ensures end { result < size → place + result ≡ greatest_place }
{
    let left = GREATEST_PLACE - place;
    if left < size as u64 {
        left as usize
    } else {
        size
    }
}

impl<R: RawStream> LiveRaw<R> {
    /// A raw under a live stream.
    pub fn new(raw: R, access: Access) -> Self
        ensures { result ≡ record { raw = R.shows raw; access = access; life = Life.Live; short = false } }
    {
        LiveRaw {
            raw,
            access,
            life: Life::Live,
            short: false,
        }
    }

    /// What became of the stream.
    pub fn life(&self) -> Life
        ensures { result ≡ self.now.life }
    {
        self.life
    }

    /// Whether a wait cut the last answer short.
    pub fn short(&self) -> bool
        ensures { result ≡ self.now.short }
    {
        self.short
    }

    /// Notes whether a wait cut the answer short.
    pub fn note_wait(&mut self, waits: bool)
        ensures { self.new ≡ record self.old { short = waits } }
    {
        self.short = waits;
    }

    /// The raw, lent.
    pub fn raw(&self) -> &R
        ensures { R.shows result.now ≡ self.now.raw }
    {
        &self.raw
    }

    /// The raw.
    pub fn into_raw(self) -> R
        ensures { R.shows result ≡ self.raw }
    {
        self.raw
    }

    /// Whether the stream reads.
    pub fn reads(&self) -> bool
        ensures access { result ≡ is_read self.now.access }
        ensures readable { result ≡ (can_of self.now.access self.now.raw.seekable).readable }
    {
        self.access.reads()
    }

    /// Whether the stream writes.
    pub fn writes(&self) -> bool
        ensures { result ≡ (can_of self.now.access self.now.raw.seekable).writable }
    {
        self.access.writes()
    }

    /// Whether the raw can be moved.
    pub fn seekable(&self) -> bool
        ensures { result ≡ self.now.raw.seekable }
    {
        self.raw.seekable()
    }

    /// Whether the stream may be moved: where its raw can be, and it doesn't append.
    pub fn is_movable(&self) -> bool
        ensures { result ≡ movable (can_of self.now.access self.now.raw.seekable) }
    {
        self.raw.seekable() && !self.access.appends()
    }

    /// Whether the bytes of the stream's raw may be given a size: where the stream writes, and may be moved.
    pub fn is_truncatable(&self) -> bool
        ensures { result ≡ truncatable (can_of self.now.access self.now.raw.seekable) }
    {
        self.writes() && self.is_movable()
    }

    /// Begins a call: the life refuses it, or it may go on. No answer is short yet.
    pub fn begin(&mut self) -> Result<(), IoFault>
        ensures life { LetsBegin self.old.life result }
        ensures whole { self.new ≡ record self.old { short = false } }
    {
        self.short = false;
        match life_fault(self.life) {
            None => Ok(()),
            Some(fault) => Err(fault),
        }
    }

    /// Whether a reading has an answer: none where the raw would have blocked before anything came. A wait is remembered.
    pub fn answers(&mut self, stop: Stop, empty: bool) -> bool
        ensures answer { result ≡ has_answer stop empty }
        ensures waits { self.new ≡ record self.old { short = is_wait stop } }
    {
        let waits = matches!(stop, Stop::Waits);
        self.short = waits;
        !(waits && empty)
    }

    /// Memory was wanting: the stream fails where bytes had moved in this call.
    pub fn starve(&mut self, moved: bool) -> IoFault
        ensures fault { result ≡ IoFault.NoMemory }
        ensures life { self.new ≡ record self.old { life = starved moved self.old.life } }
    {
        if moved {
            self.life = Life::Failed;
        }
        IoFault::NoMemory
    }

    /// What an error of the raw makes of the stream, and is answered by.
    fn refused(&mut self, error: RawError, moved: bool) -> IoFault
        ensures fault { result ≡ fault_of error }
        ensures life { self.new ≡ record self.old { life = life_after error moved self.old.life } }
    {
        match error {
            RawError::Fault => {
                self.life = Life::Failed;
                IoFault::RawFault
            }
            RawError::Memory => self.starve(moved),
        }
    }

    /// One transfer of a raw that stands at a place into the front of a buffer, of no byte past the greatest place. `Some(0)`: the
    /// buffer is empty, or nothing comes. `None`: the raw would have blocked.
    pub fn transfer(
        &mut self,
        buffer: &mut [u8],
        place: u64,
        moved: bool,
    ) -> Result<Option<usize>, IoFault>
        requires open { self.old.raw.closed ≡ false }
        requires within { place ≤ greatest_place }
        ensures keeps { Keeps self.old.raw self.new.raw }
        ensures open { StaysOpen self.old.raw self.new.raw }
        ensures outcome { Calls (TransferOutcome self.old.raw place buffer.old buffer.new) self.old.life Life.Failed (starved moved self.old.life) self.old result self.new }
        ensures length { length buffer.new ≡ length buffer.old }
    {
        let room = room(buffer.len(), place);
        match self.raw.readinto(&mut buffer[..room]) {
            Ok(count) => Ok(count),
            Err(error) => Err(self.refused(error, moved)),
        }
    }

    /// One transfer to the raw, of a front of the bytes. A raw that takes none, where there are some, failed. `None`: it would have
    /// blocked.
    pub fn write(&mut self, bytes: &[u8], moved: bool) -> Result<Option<usize>, IoFault>
        requires open { self.old.raw.closed ≡ false }
        requires fits { WriteFits self.old.raw bytes.now }
        ensures keeps { Keeps self.old.raw self.new.raw }
        ensures open { StaysOpen self.old.raw self.new.raw }
        ensures outcome { Calls (GiveOutcome self.old.raw bytes.now) self.old.life Life.Failed (starved moved self.old.life) self.old result self.new }
    {
        match self.raw.write(bytes) {
            Ok(Some(0)) if !bytes.is_empty() => Err(self.refused(RawError::Fault, moved)),
            Ok(count) => Ok(count),
            Err(error) => Err(self.refused(error, moved)),
        }
    }

    /// Where the raw ends.
    pub fn end(&mut self) -> Result<u64, IoFault>
        requires open { self.old.raw.closed ≡ false }
        ensures keeps { Keeps self.old.raw self.new.raw }
        ensures open { StaysOpen self.old.raw self.new.raw }
        ensures outcome { Calls (EndOutcome self.old.raw) self.old.life Life.Failed self.old.life self.old result self.new }
    {
        match self.raw.end() {
            Ok(end) => Ok(end),
            Err(error) => Err(self.refused(error, false)),
        }
    }

    /// How many bytes a reading of all asks for at first, of a stream that holds n bytes after its place, where the raw guesses that
    /// it ends after the place: all up to there, at least those held, and one more, by which the end is met.
    pub fn guessed_more(&self, place: u64, ahead: usize) -> Option<usize>
        requires small { ahead ≤ greatest_place }
        ensures { IfSome result (λ more. ahead < more) }
    {
        match self.raw.end_hint() {
            Some(end) if place < end && end <= GREATEST_PLACE => {
                Some(((end - place) as usize).max(ahead) + 1)
            }
            _ => None,
        }
    }

    /// Moves the raw to a place.
    pub fn seek(&mut self, place: u64) -> Result<(), IoFault>
        requires open { self.old.raw.closed ≡ false }
        requires within { place ≤ greatest_place }
        ensures keeps { Keeps self.old.raw self.new.raw }
        ensures open { StaysOpen self.old.raw self.new.raw }
        ensures outcome { Calls (SeekOutcome self.old.raw place) self.old.life Life.Failed self.old.life self.old result self.new }
    {
        match self.raw.seek(place) {
            Ok(()) => Ok(()),
            Err(error) => Err(self.refused(error, false)),
        }
    }

    /// Cuts the raw's bytes to a size in bytes, from 0 to the greatest place, or lengthens them by zeros; the raw's place stays.
    /// `RawFault`: the raw failed, its bytes are as they were or have the size, and the stream is failed. `NoMemory`: of a raw that
    /// takes memory, with all as it was.
    pub fn truncate(&mut self, size: u64) -> Result<(), IoFault>
        requires open { self.old.raw.closed ≡ false }
        requires within { size ≤ greatest_place }
        ensures keeps { Keeps self.old.raw self.new.raw }
        ensures open { StaysOpen self.old.raw self.new.raw }
        ensures outcome { Calls (TruncateOutcome self.old.raw size) self.old.life Life.Failed self.old.life self.old result self.new }
    {
        match self.raw.truncate(size) {
            Ok(()) => Ok(()),
            Err(error) => Err(self.refused(error, false)),
        }
    }

    /// Closes the raw, and the stream with it, also where that failed.
    pub fn close(&mut self) -> Result<(), IoFault>
        requires open { self.old.raw.closed ≡ false }
        ensures keeps { Keeps self.old.raw self.new.raw }
        ensures outcome { Calls (CloseOutcome self.old.raw) Life.Closed Life.Closed self.old.life self.old result self.new }
    {
        match self.raw.close() {
            Ok(()) => {
                self.shut();
                Ok(())
            }
            Err(RawError::Fault) => {
                self.shut();
                Err(IoFault::RawFault)
            }
            Err(RawError::Memory) => Err(IoFault::NoMemory),
        }
    }

    /// Leaves the stream closed, and the raw as it is.
    pub fn shut(&mut self)
        ensures { self.new ≡ record self.old { life = Life.Closed } }
    {
        self.life = Life::Closed;
    }
}
