ghost use Rattle.std.specs.Prelude.{◌≡◌, true, false, length, Some, is_err};
ghost use Rattle.std.specs.Io.{WritesAtMost};
ghost use Rattle.std.specs.Io.KnownBytes.{Keeps as KeepsKnown};
ghost use Rattle.std.proofs.Common.{rules};
ghost use Rattle.py_raw.specs.RawStream.{Keeps, KeepsPlace, StaysOpen, FailsWithout, WriteFits, WriteOutcome, CloseOutcome};
ghost use Rattle.py_raw_files.specs.Handle.{opened, one_fault, after_call, after_write, shut, ForInner, PassesThrough, PutsThrough};
ghost use Rattle.py_raw_files.specs.WriteRaw.{shown_write_raw};

use crate::Counts;
use crate::handle::{Handle, asks_to_wait};
use py_raw::{RawError, RawStream, flush_again};
use std::io;
use std::io::{ErrorKind, Write};

/// A raw stream over any writer of `std`: standard output, a socket, a pipe in hand.
///
/// It can't be read or moved: those calls count a fault and answer it. It tells no content, but its transfers, and how many bytes
/// the writer took. An answer of the writer that it would block or was interrupted is a wait; every other error is a fault, and
/// so is a write that takes nothing of a piece that isn't empty.
///
/// A writer with a buffer of its own is flushed at each write, so that an error shows at the write that caused it. Where its flush
/// would block, the write has taken its bytes all the same, and the writer holds them: the next write then flushes first, and is a
/// wait that takes nothing while that would block. `close` flushes once more and drops the writer; where that still would block,
/// what the writer holds is lost, which is a fault. A flush that was interrupted is made again.
#[derive(Debug, Drop)]
pub struct WriteRaw<W> {
    handle: Handle<W>,
    /// Whether the writer holds bytes that it took and that its last flush didn't pass on.
    held: bool,
}

impl<W> WriteRaw<W> {
    /// An open stream over a writer, with nothing counted. It takes no memory.
    pub fn new(writer: W) -> Self
        ensures shows { shown_write_raw result ≡ opened false true false }
        ensures writer { result.handle.inner ≡ Some writer }
    {
        WriteRaw {
            handle: Handle::new(writer, false, true, false),
            held: false,
        }
    }

    /// What was counted.
    pub fn counts(&self) -> Counts
        ensures { result ≡ self.now.handle.counts }
    {
        self.handle.counts()
    }

    /// What the system said of the last fault. `None` before the first, and after one that the system didn't see, as a call that
    /// the stream lacks. It is for a person who has to act on a fault; nothing is claimed of it.
    pub fn last_error(&self) -> Option<ErrorKind> {
        self.handle.last_error()
    }

    /// The writer, unless the stream is closed; what it holds is not passed on.
    pub fn into_inner(self) -> Option<W>
        ensures { result ≡ self.handle.inner }
    {
        let WriteRaw { handle, .. } = self;
        handle.into_inner()
    }
}

/// Flushes a writer, and notes whether it still holds bytes.
fn pass_on<W: Write>(writer: &mut W, held: &mut bool) -> io::Result<()>
    ensures bytes { KeepsKnown (W.contents writer.old) (W.contents writer.new) }
    ensures held { held.new ≡ is_err result }
{
    let passed = flush_again(writer);
    *held = passed.is_err();
    passed
}

/// Flushes a writer that holds bytes.
fn pass_held<W: Write>(writer: &mut W, held: &mut bool) -> io::Result<()>
    ensures bytes { KeepsKnown (W.contents writer.old) (W.contents writer.new) }
    ensures held { held.new ≡ is_err result }
{
    if !*held {
        return Ok(());
    }
    pass_on(writer, held)
}

/// Writes once, and passes on what was taken. Where that would block the writer holds it.
fn write_and_pass<W: Write>(writer: &mut W, held: &mut bool, piece: &[u8]) -> io::Result<usize>
    ensures bound { WritesAtMost result piece.now }
    ensures bytes { PassesThrough (W.contents writer.old) (W.contents writer.new) result piece.now }
{
    let count = writer.write(piece)?;
    match pass_on(writer, held) {
        Err(error) if !asks_to_wait(error.kind()) => Err(error),
        _ => Ok(count),
    }
}

/// Writes once, after what the writer holds of earlier writes: while that can't be passed on nothing is taken.
fn write_after_held<W: Write>(writer: &mut W, held: &mut bool, piece: &[u8]) -> io::Result<usize>
    ensures bound { WritesAtMost result piece.now }
    ensures bytes { PassesThrough (W.contents writer.old) (W.contents writer.new) result piece.now }
{
    pass_held(writer, held)?;
    write_and_pass(writer, held, piece)
}

impl<W: Write + Drop> RawStream for WriteRaw<W> {
    ghost shows = { shown_write_raw };

    ghost told_length = { λ raw _. Prim.search rules };

    fn unsupported(&mut self) -> RawError
        ensures keeps { Keeps (shown_write_raw self.old) (shown_write_raw self.new) }
        ensures open { StaysOpen (shown_write_raw self.old) (shown_write_raw self.new) }
        ensures answer { result ≡ RawError.Fault }
        ensures fails { FailsWithout 0 (shown_write_raw self.old) (shown_write_raw self.new) }
        ensures place { KeepsPlace (shown_write_raw self.old) (shown_write_raw self.new) }
        ensures counts { shown_write_raw self.new ≡ one_fault (shown_write_raw self.old) }
    {
        self.handle.fault(None)
    }

    fn write(&mut self, piece: &[u8]) -> Result<Option<usize>, RawError>
        requires open { (shown_write_raw self.old).closed ≡ false }
        requires fits { WriteFits (shown_write_raw self.old) piece.now }
        ensures keeps { Keeps (shown_write_raw self.old) (shown_write_raw self.new) }
        ensures open { StaysOpen (shown_write_raw self.old) (shown_write_raw self.new) }
        ensures outcome { WriteOutcome (shown_write_raw self.old) piece.now result (shown_write_raw self.new) }
        ensures writer { ForInner self.old.handle.inner self.new.handle.inner (λ old new. PutsThrough (W.contents old) (W.contents new) result piece.now) }
        ensures counts { shown_write_raw self.new ≡ after_write (shown_write_raw self.old) (length piece.now) result }
    {
        let Some(writer) = &mut self.handle.inner else {
            unreachable!()
        };
        let answer = write_after_held(writer, &mut self.held, piece);
        self.handle.take_write(piece.len(), answer)
    }

    fn close(&mut self) -> Result<(), RawError>
        requires { (shown_write_raw self.old).closed ≡ false }
        ensures keeps { Keeps (shown_write_raw self.old) (shown_write_raw self.new) }
        ensures outcome { CloseOutcome (shown_write_raw self.old) result (shown_write_raw self.new) }
        ensures counts { shown_write_raw self.new ≡ after_call (shut (shown_write_raw self.old)) result }
    {
        let Some(writer) = &mut self.handle.inner else {
            unreachable!()
        };
        let went = pass_on(writer, &mut self.held);
        self.handle.close(went)
    }

    fn closed(&self) -> bool {
        self.handle.closed()
    }

    fn readable(&self) -> bool {
        self.handle.readable()
    }

    fn writable(&self) -> bool {
        self.handle.writable()
    }

    fn seekable(&self) -> bool {
        self.handle.seekable()
    }
}
