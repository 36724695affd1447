ghost use Rattle.std.specs.Prelude.{◌≡◌, true, false, Some, is_none};
ghost use Rattle.std.proofs.Common.{rules};
ghost use Rattle.py_raw.specs.RawStream.{Keeps, KeepsPlace, StaysOpen, FailsWithout, ReadOutcome, CloseOutcome};
ghost use Rattle.py_raw_files.specs.Handle.{opened, one_fault, after_call, after_read, shut, ForInner, TakesFrom};
ghost use Rattle.py_raw_files.specs.ReadRaw.{shown_read_raw};

use crate::Counts;
use crate::handle::Handle;
use py_raw::{RawError, RawStream};
use std::io::{ErrorKind, Read};

/// A raw stream over any reader of `std`: standard input, a socket, a pipe in hand.
///
/// It can't be written or moved: those calls count a fault and answer it. It tells no content, but its transfers. An answer of the
/// reader that it would block or was interrupted is a wait; every other error is a fault. `close` drops the reader.
#[derive(Debug, Drop)]
pub struct ReadRaw<R> {
    handle: Handle<R>,
}

impl<R> ReadRaw<R> {
    /// An open stream over a reader, with nothing counted. It takes no memory.
    pub fn new(reader: R) -> Self
        ensures shows { shown_read_raw result ≡ opened true false false }
        ensures reader { result.handle.inner ≡ Some reader }
    {
        ReadRaw {
            handle: Handle::new(reader, true, false, false),
        }
    }

    /// What was counted.
    pub fn counts(&self) -> Counts
        ensures { result ≡ self.now.handle.counts }
    {
        self.handle.counts()
    }

    /// What the system said of the last fault. `None` before the first, and after one that the system didn't see, as a call that
    /// the stream lacks. It is for a person who has to act on a fault; nothing is claimed of it.
    pub fn last_error(&self) -> Option<ErrorKind> {
        self.handle.last_error()
    }

    /// The reader, unless the stream is closed.
    pub fn into_inner(self) -> Option<R>
        ensures { result ≡ self.handle.inner }
    {
        let ReadRaw { handle } = self;
        handle.into_inner()
    }
}

impl<R: Read + Drop> RawStream for ReadRaw<R> {
    ghost shows = { shown_read_raw };

    ghost told_length = { λ raw _. Prim.search rules };

    fn unsupported(&mut self) -> RawError
        ensures keeps { Keeps (shown_read_raw self.old) (shown_read_raw self.new) }
        ensures open { StaysOpen (shown_read_raw self.old) (shown_read_raw self.new) }
        ensures answer { result ≡ RawError.Fault }
        ensures fails { FailsWithout 0 (shown_read_raw self.old) (shown_read_raw self.new) }
        ensures place { KeepsPlace (shown_read_raw self.old) (shown_read_raw self.new) }
        ensures counts { shown_read_raw self.new ≡ one_fault (shown_read_raw self.old) }
    {
        self.handle.fault(None)
    }

    fn readinto(&mut self, buf: &mut [u8]) -> Result<Option<usize>, RawError>
        requires open { (shown_read_raw self.old).closed ≡ false }
        ensures keeps { Keeps (shown_read_raw self.old) (shown_read_raw self.new) }
        ensures open { StaysOpen (shown_read_raw self.old) (shown_read_raw self.new) }
        ensures outcome { ReadOutcome (shown_read_raw self.old) buf.old result buf.new (shown_read_raw self.new) }
        ensures reader { ForInner self.old.handle.inner self.new.handle.inner (λ old new. TakesFrom (R.remaining old) (R.remaining new) result buf.new) }
        ensures counts { shown_read_raw self.new ≡ after_read (shown_read_raw self.old) result }
    {
        self.handle.readinto(buf)
    }

    fn close(&mut self) -> Result<(), RawError>
        requires { (shown_read_raw self.old).closed ≡ false }
        ensures keeps { Keeps (shown_read_raw self.old) (shown_read_raw self.new) }
        ensures outcome { CloseOutcome (shown_read_raw self.old) result (shown_read_raw self.new) }
        ensures counts { shown_read_raw self.new ≡ after_call (shut (shown_read_raw self.old)) result }
    {
        self.handle.close(Ok(()))
    }

    fn closed(&self) -> bool {
        self.handle.closed()
    }

    fn readable(&self) -> bool {
        self.handle.readable()
    }

    fn writable(&self) -> bool {
        self.handle.writable()
    }

    fn seekable(&self) -> bool {
        self.handle.seekable()
    }
}
