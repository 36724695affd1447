//! The writer: a buffered stream that is only written.
ghost use Rattle.std.specs.Prelude.{◌≡◌, Some, IfOk, true, false};
ghost use Rattle.py_flat.specs.Calls.{FileCall, Write, Refused};
ghost use Rattle.py_stream.specs.Stream.{writer_can};
ghost use Rattle.py_stream.specs.Answers.{Answers, RefusesAlone};
ghost use Rattle.py_stream.specs.Taken.{stream_in};
ghost use Rattle.py_stream.specs.Opening.{StandsAtStart, NewOutcome, opened_as};
ghost use Rattle.py_buffered_core.specs.Buffered.{Writes};

use crate::{BufferedOver, WriteOnly};
use py_buffered_core::Buffered;
use py_raw::{IoFault, RawStream};
use py_stream::{Access, NewRefused};
use std::alloc::Global;
use std::marker::PhantomData;

/// A buffered writer over a raw stream, as Python's `io.BufferedWriter`.
///
/// It is seen as a `Stream`: what its raw shows, its place, what it can do, its life, the buffer's size, whether its last
/// answer was short, and the bytes that it owes the raw, with the place of the first of them; and beside it as how many bytes of
/// the last write were taken. Counts are bytes; places are bytes from the start of the stream, from 0 to 9223372036854775807. But for `new` and `append` no call takes memory of its
/// own: `NoMemory` comes only of a raw that takes some.
///
/// Each call first answers by the life, with all as it was: `Failed` after a fault, or running out of memory that failed it (a `detach`
/// still works), `Closed` after a `close` (which may be called again), `Detached` after a `detach`. Else, where the raw failed in the call, it is
/// `RawFault`: the writer is failed from then on (after `close` closed). Where the raw would have blocked, and there is no room
/// for what is left, it is `WouldBlock`, which says how many bytes were taken. Whatever comes, no byte that was taken is
/// lost: the raw has it, or it is still owed, and `detach` or `into_parts` hand it back (but what a large write gave the raw
/// straight away is never owed: the place tells how far it came). A writer that is dropped while it lives loses what it owes:
/// close, flush or detach it before. What waits and faults leave is this project's choice
/// (docs/DECISIONS.md), all else the rule of Python's `io` module.
pub type BufferedWriter<R> = BufferedOver<R, WriteOnly>;

impl<R: RawStream> BufferedWriter<R> {
    /// A writer to a raw stream, from where that stands, with a buffer of `buffer_size` bytes. A raw that can seek is asked
    /// where it stands; one that can't stands at place 0.
    ///
    /// Refused, the raw is handed back with nothing written: `Closed` where it is closed, then `Unsupported` where it can't be
    /// written to, `BadArgument` for a size of 0, `NoMemory`, and `RawFault` where it failed to say where it stands. But for
    /// the last it is as it was.
    pub fn new(alloc: Global, raw: R, buffer_size: usize) -> Result<Self, NewRefused<R>>
        requires start { StandsAtStart (R.shows raw) }
        ensures outcome { NewOutcome R.shows (λ shown. shown.writable) (writer_can false) raw (Some buffer_size) (opened_as stream_in result) }
        ensures taken { IfOk result (λ writer. writer.taken ≡ 0) }
    {
        match Buffered::new(alloc, raw, buffer_size, Access::Write) {
            Ok(inner) => Ok(BufferedOver {
                inner,
                kind: PhantomData,
            }),
            Err(refused) => Err(refused),
        }
    }

    /// A writer that appends to a raw stream: it begins at the end, to which a raw that can seek is moved, and `seek` is
    /// `Unsupported`. A raw that can't seek stands at place 0. It is what Python's `open` makes for the mode `ab`.
    ///
    /// Refused as `new` is; `RawFault` where the raw failed to say where it ends, or to move there.
    pub fn append(alloc: Global, raw: R, buffer_size: usize) -> Result<Self, NewRefused<R>>
        requires start { StandsAtStart (R.shows raw) }
        ensures outcome { NewOutcome R.shows (λ shown. shown.writable) (writer_can true) raw (Some buffer_size) (opened_as stream_in result) }
        ensures taken { IfOk result (λ writer. writer.taken ≡ 0) }
    {
        match Buffered::new(alloc, raw, buffer_size, Access::Append) {
            Ok(inner) => Ok(BufferedOver {
                inner,
                kind: PhantomData,
            }),
            Err(refused) => Err(refused),
        }
    }

    /// The refusal of a call that a writer lacks (one that reads, or that moves what can't seek), or that the life doesn't let
    /// through: by the life, else
    /// `Unsupported`, with all as it was. It calls no raw. It is for those who take calls as values.
    pub fn refuse(&mut self) -> IoFault
        ensures answers { (call : FileCall) → RefusesAlone self.old.stream call → Answers self.old.stream call (Refused result) self.new.stream }
        ensures only_writes { Writes self.old.stream }
        ensures taken { self.new.taken ≡ self.old.taken }
    {
        self.inner.refuse()
    }
}
