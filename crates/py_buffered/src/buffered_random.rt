//! The random stream: a buffered stream that is read and written.
ghost use Rattle.std.specs.Prelude.{◌≡◌, Some, IfOk, true, false, length};
ghost use types.Logic.{sem};
ghost use Rattle.std.specs.Io.BufRead.{Rests};
ghost use Rattle.py_flat.specs.Calls.{FileCall, Read, Read1, ReadLine, ReadLines, Peek, ReadInto, ReadInto1, Refused};
ghost use Rattle.py_stream.specs.declared.access.Access.TheVariants as access;
ghost use Rattle.py_stream.specs.Access.{can_of, is_able};
ghost use Rattle.py_stream.specs.Answers.{Answers, RefusesAlone};
ghost use Rattle.py_stream.specs.Replies.{bytes_reply, into_reply, CountFits, KeepsBuffer, KeepsUnread, lent_reply, lines_reply};
ghost use Rattle.py_stream.specs.Taken.{stream_in};
ghost use Rattle.py_stream.specs.Opening.{StandsAtStart, NewOutcome, opened_as};
ghost use Rattle.py_buffered_core.specs.Ahead.{LooksAhead, LendsAhead, PassesOver};

use crate::{AlsoRead, BufferedKind, BufferedOver, ReadWrite, ReadsToo};
use py_buffered_core::Buffered;
use py_raw::{IoFault, Lines, RawStream};
use py_stream::{Access, NewRefused};
use std::alloc::Global;
use std::marker::PhantomData;

/// A buffered stream that is read and written, over a raw stream that can seek, as Python's `io.BufferedRandom`.
///
/// It is seen as a `Stream`, as reader and writer are: what its raw shows, its place, what it can do, its life, the buffer's size,
/// whether its last answer was short, and the bytes that it owes the raw, with the place of the first of them; and beside it as how
/// many bytes of the last write were taken. Counts, sizes, limits and hints are bytes; places are bytes from the start of the stream,
/// from 0 to 9223372036854775807.
///
/// One buffer holds what was read ahead and what was written and isn't passed on yet: a read gives what was written before it. A read of so
/// many bytes as are held, or of a line that ends among them, and a write for which there is room call no raw. Before bytes come from the
/// raw, all that is owed is passed on.
///
/// Each call first answers by the life, with all as it was: `Failed` after a fault, or running out of memory that failed it (a `detach`
/// still works), `Closed` after a `close` (which may be called again), `Detached` after a `detach`. Else, where the raw failed in the
/// call, it is `RawFault`: the stream is failed from then on (after `close` closed). Where the raw would have blocked, a reading call
/// answers what came by then, or `None` where nothing had, or not all that is owed was passed on, with the place as it was; any other is `WouldBlock`, which says how many bytes
/// were taken. Whatever comes, no byte that was taken is lost: the raw has it, or it is still owed, and `detach` or `into_parts` hand it
/// back (but what a large write gave the raw straight away is never owed: the place tells how far it came). One that is dropped while it
/// lives loses what it owes: close, flush or detach it before. What waits and faults leave is this project's choice
/// (docs/DECISIONS.md), all else the rule of Python's `io` module.
pub type BufferedRandom<R> = BufferedOver<R, ReadWrite>;

impl<R: RawStream> BufferedRandom<R> {
    ghost use Rattle.py_buffered.specs.contracts.buffered_over.BufferedOver.{the_row};
    ghost use Rattle.py_buffered.specs.contracts.kind.Written.{the_row as kind_row};
    ghost use Rattle.py_buffered.specs.contracts.kind.AlsoRead.{the_row as read_row};

    /// A stream that is read and written, over a raw stream, from where that stands, with a buffer of `buffer_size` bytes. The raw is
    /// asked where it stands.
    ///
    /// Refused, the raw is handed back with nothing read or written: `Closed` where it is closed, then `Unsupported` where it can't be
    /// read from, written to and moved, `BadArgument` for a size of 0, `NoMemory`, and `RawFault` where it failed to say where it stands.
    /// But for the last it is as it was.
    pub fn new(alloc: Global, raw: R, buffer_size: usize) -> Result<Self, NewRefused<R>>
        requires start { StandsAtStart (R.shows raw) }
        ensures outcome { NewOutcome R.shows (is_able access.Update (Some buffer_size)) (can_of access.Update) raw (Some buffer_size) (opened_as stream_in result) }
        ensures taken { IfOk result (λ stream. stream.taken ≡ 0) }
    {
        match Buffered::new(alloc, raw, buffer_size, Access::Update) {
            Ok(inner) => Ok(BufferedOver {
                inner,
                kind: PhantomData,
            }),
            Err(refused) => Err(refused),
        }
    }

    /// Reads the next `size` bytes, or all that are left for `None`; fewer come only at the end. Bytes that are held are given without
    /// a call of the raw, where they are enough; else what is owed is passed on first.
    ///
    /// Space for a `size` is taken before anything is read or passed on. `NoMemory` leaves place and life as they were, unless bytes had left
    /// the raw already: then the stream is failed. What isn't passed on yet is still owed.
    pub fn read(&mut self, alloc: Global, size: Option<usize>) -> Result<Option<Vec<u8>>, IoFault>
        ensures answers { Answers self.old.stream (Read size) (bytes_reply result) self.new.stream }
        ensures taken { self.new.taken ≡ self.old.taken }
    {
        self.inner.read(alloc, size)
    }

    /// Reads some of the next bytes, at most `size`, by at most one transfer of the raw after all that is owed was passed on; for `None` the
    /// buffer's size is asked for. No bytes come only where `size` is 0 or nothing is left.
    ///
    /// `NoMemory` leaves place and life as they were.
    pub fn read1(&mut self, alloc: Global, size: Option<usize>) -> Result<Option<Vec<u8>>, IoFault>
        ensures answers { Answers self.old.stream (Read1 size) (bytes_reply result) self.new.stream }
        ensures taken { self.new.taken ≡ self.old.taken }
    {
        self.inner.read1(alloc, size)
    }

    /// Shows some of the next bytes, lent from the buffer; the place stays. Where some are held, these are shown without a call of the raw,
    /// owed or not; else at most one transfer of the raw brings them, after all that is owed was passed on. No bytes are shown only where
    /// nothing is left.
    ///
    /// It takes no memory: `NoMemory` comes only of a raw that takes some.
    pub fn peek(&mut self) -> Result<Option<&[u8]>, IoFault>
        ensures* { sem 𝓛 (Rests (the_row R.row (kind_row read_row ⟦<AlsoRead as ReadsToo>⟧) R.RawStream ⟦<ReadWrite as BufferedKind>⟧) self.entry (λ new. Answers self.old.stream Peek (lent_reply result) new.stream × (new.taken ≡ self.old.taken))) }
    {
        match self.inner.look() {
            Ok(true) => Ok(Some(self.inner.held())),
            Ok(false) => Ok(None),
            Err(fault) => Err(fault),
        }
    }

    /// Sees to it that some of the next bytes are held, for `held` to lend: where none are, by one transfer of the raw, after all that is
    /// owed was passed on. True where some are, and where nothing is left; false where the raw would have blocked. It is refused as `peek`
    /// is; the place stays.
    ///
    /// It takes no memory: `NoMemory` comes only of a raw that takes some.
    pub fn fill(&mut self) -> Result<bool, IoFault>
        ensures looks { LooksAhead self.old.stream result self.new.stream }
        ensures taken { self.new.taken ≡ self.old.taken }
    {
        self.inner.look()
    }

    /// The bytes that it holds from the place on, lent; none where it doesn't live. It calls no raw.
    pub fn held(&self) -> &[u8]
        ensures { LendsAhead self.now.stream result.now }
    {
        self.inner.lent()
    }

    /// Moves the place past the next `amount` of the bytes that `held` lends, or past all of them where they are fewer, and answers how
    /// many. Only the life refuses it. It calls no raw, and takes no memory; what is owed is still owed.
    pub fn consume(&mut self, amount: usize) -> Result<usize, IoFault>
        ensures passes { PassesOver self.old.stream amount result self.new.stream }
        ensures taken { self.new.taken ≡ self.old.taken }
    {
        self.inner.consume(amount)
    }

    /// Reads as many bytes as `buffer` is long into its front, and answers how many; fewer come only at the end. What `buffer`
    /// has after them may have changed, and after `None`, `RawFault` and `NoMemory` all of it; every other refusal leaves it.
    ///
    /// It takes no memory: `NoMemory` comes only of a raw that takes some, and leaves place and life as they were, unless bytes had
    /// left the raw already: then the stream is failed.
    pub fn readinto(&mut self, buffer: &mut [u8]) -> Result<Option<usize>, IoFault>
        ensures answers { Answers self.old.stream (ReadInto (length buffer.old)) (into_reply result buffer.new) self.new.stream }
        ensures length { length buffer.new ≡ length buffer.old }
        ensures fits { CountFits result buffer.new }
        ensures refused { KeepsBuffer result buffer.old buffer.new }
        ensures taken { self.new.taken ≡ self.old.taken }
    {
        self.inner.readinto(buffer)
    }

    /// Reads some of the next bytes into the front of `buffer`, and answers how many. Where some are held, these are given without a call
    /// of the raw, owed or not; else at most one transfer of the raw brings them, after all that is owed was passed on. No bytes come
    /// only where `buffer` is empty or nothing is left. What `buffer` has after them stays as it was; `None` and refusals leave all of
    /// it.
    ///
    /// It takes no memory: `NoMemory` comes only of a raw that takes some, and leaves place and life as they were.
    pub fn readinto1(&mut self, buffer: &mut [u8]) -> Result<Option<usize>, IoFault>
        ensures answers { Answers self.old.stream (ReadInto1 (length buffer.old)) (into_reply result buffer.new) self.new.stream }
        ensures length { length buffer.new ≡ length buffer.old }
        ensures fits { CountFits result buffer.new }
        ensures unread { KeepsUnread result buffer.old buffer.new }
        ensures taken { self.new.taken ≡ self.old.taken }
    {
        self.inner.readinto1(buffer)
    }

    /// Reads the bytes up to and with the next LF, at most `limit`; the last line may lack its LF. No bytes come only where
    /// `limit` is 0 or nothing is left.
    ///
    /// `NoMemory` leaves place and life as they were, unless bytes had left the raw already: then the stream is failed.
    pub fn readline(
        &mut self,
        alloc: Global,
        limit: Option<usize>,
    ) -> Result<Option<Vec<u8>>, IoFault>
        ensures answers { Answers self.old.stream (ReadLine limit) (bytes_reply result) self.new.stream }
        ensures taken { self.new.taken ≡ self.old.taken }
    {
        self.inner.readline(alloc, limit)
    }

    /// Reads lines, each with its LF but for the last, which may lack it, until their total is above `hint`; all that are left
    /// for `None` and 0. A short answer's last line may lack its LF too.
    ///
    /// `NoMemory` leaves place and life as they were, unless bytes had left the raw already: then the stream is failed.
    pub fn readlines(
        &mut self,
        alloc: Global,
        hint: Option<usize>,
    ) -> Result<Option<Lines>, IoFault>
        ensures answers { Answers self.old.stream (ReadLines hint) (lines_reply result) self.new.stream }
        ensures taken { self.new.taken ≡ self.old.taken }
    {
        self.inner.readlines(alloc, hint)
    }

    /// The refusal of a call that the life doesn't let through: by the life, with all as it was; else `Unsupported`. It calls no raw. It is for
    /// those who take calls as values.
    pub fn refuse(&mut self) -> IoFault
        ensures answers { (call : FileCall) → RefusesAlone self.old.stream call → Answers self.old.stream call (Refused result) self.new.stream }
        ensures taken { self.new.taken ≡ self.old.taken }
    {
        self.inner.refuse()
    }
}
