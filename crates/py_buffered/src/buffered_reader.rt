//! The reader: a buffered stream that is only read.
ghost use Rattle.std.specs.Prelude.{◌≡◌, Some, false, length};
ghost use types.Logic.{sem};
ghost use Rattle.std.specs.Io.BufRead.{Rests};
ghost use Rattle.py_flat.specs.Calls.{FileCall, Read, Read1, ReadLine, ReadLines, Peek, ReadInto, ReadInto1, Refused};
ghost use Rattle.py_stream.specs.Answers.{Answers, RefusesAlone};
ghost use Rattle.py_stream.specs.Replies.{bytes_reply, into_reply, CountFits, KeepsBuffer, KeepsUnread, lent_reply, lines_reply};
ghost use Rattle.py_stream.specs.Stream.{reader_can};
ghost use Rattle.py_stream.specs.Opening.{StandsAtStart, NewOutcome};
ghost use Rattle.py_buffered_core.specs.Buffered.{Reads};
ghost use Rattle.py_buffered_core.specs.Ahead.{LooksAhead, LendsAhead, PassesOver};

use crate::{BufferedKind, BufferedLines, BufferedOver, ReadOnly};
use py_buffered_core::Buffered;
use py_raw::{IoFault, Lines, RawStream};
use py_stream::{Access, NewRefused};
use std::alloc::Global;
use std::marker::PhantomData;

/// A buffered reader over a raw stream, as Python's `io.BufferedReader`.
///
/// It is seen as a `Stream`: what its raw shows, its place, what it can do, its life, the buffer's size, and whether its last
/// answer was short. Sizes, limits and hints are bytes; places are bytes from the start of the stream, from 0 to
/// 9223372036854775807.
///
/// Each call first answers by the life, with all as it was: `Failed` after a fault (a `detach` still works), `Closed` after a
/// `close` (which may be called again), `Detached` after a `detach`. Else, where the raw failed in the call, it is `RawFault`: the
/// reader is failed from then on (after `close` closed); its place is where the call began, or further on where a reading had taken
/// bytes by then. Where the raw would have blocked, a reading call answers what came by then, never nothing, or `None` where
/// nothing had, with all as it was; `short` is true then. `NoMemory` means out of memory; what stands then, each call says. What
/// waits and faults leave is this project's choice (docs/DECISIONS.md), all else the rule of Python's `io` module.
pub type BufferedReader<R> = BufferedOver<R, ReadOnly>;

impl<R: RawStream> BufferedReader<R> {
    ghost use Rattle.py_buffered.specs.contracts.buffered_over.BufferedOver.{the_row};
    ghost use Rattle.py_buffered.specs.contracts.kind.ReadOnly.{the_row as kind_row};

    /// A reader of a raw stream, from where that stands, with a buffer of `buffer_size` bytes. A raw that can seek is asked
    /// where it stands; one that can't stands at place 0.
    ///
    /// Refused, the raw is handed back with nothing read: `Closed` where it is closed, then `Unsupported` where it can't be
    /// read from, `BadArgument` for a size of 0, `NoMemory`, and `RawFault` where it failed to say where it stands. But for
    /// the last it is as it was.
    pub fn new(alloc: Global, raw: R, buffer_size: usize) -> Result<Self, NewRefused<R>>
        requires start { StandsAtStart (R.shows raw) }
        ensures { NewOutcome R.shows (λ shown. shown.readable) reader_can raw (Some buffer_size) result }
    {
        match Buffered::new(alloc, raw, buffer_size, Access::Read) {
            Ok(inner) => Ok(BufferedOver {
                inner,
                kind: PhantomData,
            }),
            Err(refused) => Err(refused),
        }
    }

    /// Reads the next `size` bytes, or all that are left for `None`; fewer come only at the end.
    ///
    /// Space for a `size` is taken before anything is read. For `None` the space up to the end that the raw guesses (`end_hint`) is
    /// taken at once; the reading goes on until the end is met, wherever that is by then. `NoMemory` leaves the reader as it was,
    /// unless bytes had left the raw already: then it is failed.
    pub fn read(&mut self, alloc: Global, size: Option<usize>) -> Result<Option<Vec<u8>>, IoFault>
        ensures { Answers self.old (Read size) (bytes_reply result) self.new }
    {
        self.inner.read(alloc, size)
    }

    /// Reads some of the next bytes, at most `size`, by at most one transfer of the raw; for `None` the buffer's size is asked
    /// for. No bytes come only where `size` is 0 or nothing is left.
    ///
    /// `NoMemory` leaves place and life as they were.
    pub fn read1(&mut self, alloc: Global, size: Option<usize>) -> Result<Option<Vec<u8>>, IoFault>
        ensures { Answers self.old (Read1 size) (bytes_reply result) self.new }
    {
        self.inner.read1(alloc, size)
    }

    /// Shows some of the next bytes, lent from the buffer, by at most one transfer of the raw; the place stays. No bytes are
    /// shown only where nothing is left.
    ///
    /// It takes no memory: `NoMemory` comes only of a raw that takes some.
    pub fn peek(&mut self) -> Result<Option<&[u8]>, IoFault>
        ensures* { sem 𝓛 (Rests (the_row R.row kind_row R.RawStream ⟦<ReadOnly as BufferedKind>⟧) self.entry (λ new. Answers self.old Peek (lent_reply result) new)) }
    {
        match self.inner.look() {
            Ok(true) => Ok(Some(self.inner.held())),
            Ok(false) => Ok(None),
            Err(fault) => Err(fault),
        }
    }

    /// Sees to it that some of the next bytes are held, for `held` to lend: where none are, by one transfer of the raw. True where some
    /// are, and where nothing is left; false where the raw would have blocked. It is refused as `peek` is; the place stays.
    ///
    /// It takes no memory: `NoMemory` comes only of a raw that takes some.
    pub fn fill(&mut self) -> Result<bool, IoFault>
        ensures { LooksAhead self.old result self.new }
    {
        self.inner.look()
    }

    /// The bytes that it holds from the place on, lent; none where it doesn't live. It calls no raw.
    pub fn held(&self) -> &[u8]
        ensures { LendsAhead self.now result.now }
    {
        self.inner.lent()
    }

    /// Moves the place past the next `amount` of the bytes that `held` lends, or past all of them where they are fewer, and answers how
    /// many. Only the life refuses it. It calls no raw, and takes no memory.
    pub fn consume(&mut self, amount: usize) -> Result<usize, IoFault>
        ensures { PassesOver self.old amount result self.new }
    {
        self.inner.consume(amount)
    }

    /// Reads as many bytes as `buffer` is long into its front, and answers how many; fewer come only at the end. What `buffer`
    /// has after them may have changed, and after `None`, `RawFault` and `NoMemory` all of it; every other refusal leaves it.
    ///
    /// It takes no memory: `NoMemory` comes only of a raw that takes some, and leaves the reader as it was, unless bytes had
    /// left the raw already: then it is failed.
    pub fn readinto(&mut self, buffer: &mut [u8]) -> Result<Option<usize>, IoFault>
        ensures answers { Answers self.old (ReadInto (length buffer.old)) (into_reply result buffer.new) self.new }
        ensures length { length buffer.new ≡ length buffer.old }
        ensures fits { CountFits result buffer.new }
        ensures refused { KeepsBuffer result buffer.old buffer.new }
    {
        self.inner.readinto(buffer)
    }

    /// Reads some of the next bytes into the front of `buffer`, by at most one transfer of the raw, and answers how many. No
    /// bytes come only where `buffer` is empty or nothing is left. What `buffer` has after them stays as it was; `None` and
    /// refusals leave all of it.
    ///
    /// It takes no memory: `NoMemory` comes only of a raw that takes some, and leaves place and life as they were.
    pub fn readinto1(&mut self, buffer: &mut [u8]) -> Result<Option<usize>, IoFault>
        ensures answers { Answers self.old (ReadInto1 (length buffer.old)) (into_reply result buffer.new) self.new }
        ensures length { length buffer.new ≡ length buffer.old }
        ensures fits { CountFits result buffer.new }
        ensures unread { KeepsUnread result buffer.old buffer.new }
    {
        self.inner.readinto1(buffer)
    }

    /// Reads the bytes up to and with the next LF, at most `limit`; the last line may lack its LF. No bytes come only where
    /// `limit` is 0 or nothing is left.
    ///
    /// `NoMemory` leaves the reader as it was, unless bytes had left the raw already: then it is failed.
    pub fn readline(
        &mut self,
        alloc: Global,
        limit: Option<usize>,
    ) -> Result<Option<Vec<u8>>, IoFault>
        ensures { Answers self.old (ReadLine limit) (bytes_reply result) self.new }
    {
        self.inner.readline(alloc, limit)
    }

    /// Reads lines, each with its LF but for the last, which may lack it, until their total is above `hint`; all that are left
    /// for `None` and 0. A short answer's last line may lack its LF too.
    ///
    /// `NoMemory` leaves the reader as it was, unless bytes had left the raw already: then it is failed.
    pub fn readlines(
        &mut self,
        alloc: Global,
        hint: Option<usize>,
    ) -> Result<Option<Lines>, IoFault>
        ensures { Answers self.old (ReadLines hint) (lines_reply result) self.new }
    {
        self.inner.readlines(alloc, hint)
    }

    /// The lines from the place on, one by one, as an iterator of what `readline` answers: it ends where nothing is left, and after
    /// a refusal; `None` among its items is a wait. A loop over it that stops early loses nothing.
    pub fn lines(&mut self, alloc: Global) -> BufferedLines<'_, R>
        ensures same_reference { result.reader.ghost_name ≡ self.entry.ghost_name }
        ensures reader { result.reader.now ≡ self.old }
        ensures left { result.left ≡ 18446744073709551615 }
    {
        BufferedLines::new(self, alloc)
    }

    /// The refusal of a call that a reader lacks (one that writes, or that moves what can't seek), or that the life doesn't let
    /// through: by the life, else `Unsupported`, with all as it was. It calls no raw. It is for those who take calls as values.
    pub fn refuse(&mut self) -> IoFault
        ensures answers { (call : FileCall) → RefusesAlone self.old call → Answers self.old call (Refused result) self.new }
        ensures only_reads { Reads self.old }
    {
        self.inner.refuse()
    }
}
