ghost use Rattle.std.specs.Prelude.{◌≡◌, ◌≤◌, true, false, length, Some};
ghost use Rattle.py_flat.specs.Limits.{greatest_count};
ghost use Rattle.py_raw.specs.RawStream.{Keeps, StaysOpen, FailsWithout, ReadOutcome, WriteOutcome, WriteFits, CloseOutcome};
ghost use Rattle.py_raw_files.specs.Handle.{shown_handle, opened, asks_to_wait, transfer_reply, call_reply, one_fault, after_call, after_transfer, after_read, after_write, shut, ForInner, TakesFrom, PutsIn};

use super::Handle;
use crate::Counts;
use py_raw::RawError;
use std::io;
use std::io::{ErrorKind, Read, Write};

/// Whether an error of a transfer says that the call is to be made again later.
pub(crate) fn asks_to_wait(kind: ErrorKind) -> bool
    ensures { result ≡ asks_to_wait kind }
{
    matches!(kind, ErrorKind::WouldBlock | ErrorKind::Interrupted)
}

impl<T> Handle<T> {
    /// An open one, with nothing counted.
    pub(crate) fn new(inner: T, readable: bool, writable: bool, seekable: bool) -> Self
        ensures shows { shown_handle result ≡ opened readable writable seekable }
        ensures inner { result.inner ≡ Some inner }
    {
        Handle {
            inner: Some(inner),
            readable,
            writable,
            seekable,
            counts: Counts::default(),
            last_error: None,
        }
    }

    /// What was counted.
    pub(crate) fn counts(&self) -> Counts
        ensures { result ≡ self.now.counts }
    {
        self.counts
    }

    /// What the system said of the last fault; nothing is claimed of it.
    pub(crate) fn last_error(&self) -> Option<ErrorKind> {
        self.last_error
    }

    /// What it stands on, unless it is closed.
    pub(crate) fn into_inner(self) -> Option<T>
        ensures { result ≡ self.inner }
    {
        let Handle { inner, .. } = self;
        inner
    }

    /// Counts a fault, and answers with it.
    pub(crate) fn fault(&mut self, said: Option<ErrorKind>) -> RawError
        ensures answer { result ≡ RawError.Fault }
        ensures keeps { Keeps (shown_handle self.old) (shown_handle self.new) }
        ensures fails { FailsWithout 0 (shown_handle self.old) (shown_handle self.new) }
        ensures after { shown_handle self.new ≡ one_fault (shown_handle self.old) }
        ensures inner { self.new.inner ≡ self.old.inner }
    {
        self.counts.faults = self.counts.faults.saturating_add(1);
        self.last_error = said;
        RawError::Fault
    }

    /// Takes the system's answer to a call that is no transfer, and counts a fault; `None`, an answer that can't be true, is one.
    pub(crate) fn take_reply<A: Drop>(
        &mut self,
        answer: io::Result<Option<A>>,
    ) -> Result<A, RawError>
        ensures answer { result ≡ call_reply answer }
        ensures keeps { Keeps (shown_handle self.old) (shown_handle self.new) }
        ensures fits { (shown_handle self.old).transfers ≤ greatest_count }
        ensures after { shown_handle self.new ≡ after_call (shown_handle self.old) result }
        ensures inner { self.new.inner ≡ self.old.inner }
    {
        match answer {
            Ok(Some(value)) => Ok(value),
            Ok(None) => Err(self.fault(None)),
            Err(error) => Err(self.fault(Some(error.kind()))),
        }
    }

    /// Takes the system's answer to a transfer, which is counted, and counts a wait or a fault.
    fn take_transfer(&mut self, answer: io::Result<usize>) -> Result<Option<usize>, RawError>
        ensures answer { result ≡ transfer_reply answer }
        ensures keeps { Keeps (shown_handle self.old) (shown_handle self.new) }
        ensures fits { (shown_handle self.old).transfers ≤ greatest_count }
        ensures after { shown_handle self.new ≡ after_transfer (shown_handle self.old) result }
        ensures inner { self.new.inner ≡ self.old.inner }
    {
        self.counts.transfers = self.counts.transfers.saturating_add(1);
        match answer {
            Ok(count) => Ok(Some(count)),
            Err(error) if asks_to_wait(error.kind()) => {
                self.counts.waits = self.counts.waits.saturating_add(1);
                Ok(None)
            }
            Err(error) => Err(self.fault(Some(error.kind()))),
        }
    }

    /// Takes the system's answer to a write, which is counted with the bytes that it took: none of a piece that isn't empty is a
    /// fault.
    pub(crate) fn take_write(
        &mut self,
        size: usize,
        answer: io::Result<usize>,
    ) -> Result<Option<usize>, RawError>
        ensures answer { result ≡ transfer_reply answer }
        ensures keeps { Keeps (shown_handle self.old) (shown_handle self.new) }
        ensures fits { (shown_handle self.old).transfers ≤ greatest_count }
        ensures after { shown_handle self.new ≡ after_write (shown_handle self.old) size result }
        ensures inner { self.new.inner ≡ self.old.inner }
    {
        let reply = self.take_transfer(answer)?;
        match reply {
            Some(0) if size > 0 => {
                self.fault(None);
            }
            Some(count) => self.counts.written = self.counts.written.saturating_add(count as u64),
            None => {}
        }
        Ok(reply)
    }

    /// Lets go of what it stands on, whatever its own closing came to, and takes that for the answer.
    pub(crate) fn close(&mut self, went: io::Result<()>) -> Result<(), RawError>
    where
        T: Drop,
        requires { (shown_handle self.old).closed ≡ false }
        ensures keeps { Keeps (shown_handle self.old) (shown_handle self.new) }
        ensures outcome { CloseOutcome (shown_handle self.old) result (shown_handle self.new) }
        ensures counts { shown_handle self.new ≡ after_call (shut (shown_handle self.old)) result }
    {
        self.inner = None;
        self.take_reply(went.map(Some))
    }

    pub(crate) fn closed(&self) -> bool
        ensures { result ≡ (shown_handle self.now).closed }
    {
        self.inner.is_none()
    }

    pub(crate) fn readable(&self) -> bool
        ensures { result ≡ (shown_handle self.now).readable }
    {
        self.readable
    }

    pub(crate) fn writable(&self) -> bool
        ensures { result ≡ (shown_handle self.now).writable }
    {
        self.writable
    }

    pub(crate) fn seekable(&self) -> bool
        ensures { result ≡ (shown_handle self.now).seekable }
    {
        self.seekable
    }
}

impl<T: Read> Handle<T> {
    /// Reads once, into the front of a buffer.
    pub(crate) fn readinto(&mut self, buf: &mut [u8]) -> Result<Option<usize>, RawError>
        requires open { (shown_handle self.old).closed ≡ false }
        ensures keeps { Keeps (shown_handle self.old) (shown_handle self.new) }
        ensures open { StaysOpen (shown_handle self.old) (shown_handle self.new) }
        ensures outcome { ReadOutcome (shown_handle self.old) buf.old result buf.new (shown_handle self.new) }
        ensures inner { ForInner self.old.inner self.new.inner (λ old new. TakesFrom (T.remaining old) (T.remaining new) result buf.new) }
        ensures counts { shown_handle self.new ≡ after_read (shown_handle self.old) result }
    {
        let Some(inner) = &mut self.inner else {
            unreachable!()
        };
        let answer = inner.read(buf);
        let reply = self.take_transfer(answer)?;
        if let Some(count) = reply {
            self.counts.reads.count(count);
        }
        Ok(reply)
    }
}

impl<T: Write> Handle<T> {
    /// Writes a front of a piece, once.
    pub(crate) fn write(&mut self, piece: &[u8]) -> Result<Option<usize>, RawError>
        requires open { (shown_handle self.old).closed ≡ false }
        requires fits { WriteFits (shown_handle self.old) piece.now }
        ensures keeps { Keeps (shown_handle self.old) (shown_handle self.new) }
        ensures open { StaysOpen (shown_handle self.old) (shown_handle self.new) }
        ensures outcome { WriteOutcome (shown_handle self.old) piece.now result (shown_handle self.new) }
        ensures inner { ForInner self.old.inner self.new.inner (λ old new. PutsIn (T.contents old) (T.contents new) result piece.now) }
        ensures counts { shown_handle self.new ≡ after_write (shown_handle self.old) (length piece.now) result }
    {
        let Some(inner) = &mut self.inner else {
            unreachable!()
        };
        let answer = inner.write(piece);
        self.take_write(piece.len(), answer)
    }
}
