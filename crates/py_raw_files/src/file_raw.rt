ghost use Rattle.std.proofs.Common.{rules};
ghost use Rattle.std.specs.Prelude.{◌≡◌, ◌≤◌, false, true, length, Some, IsSome, IfSome, IfOk, OnOk};
ghost use Rattle.py_raw_files.specs.Handle.{opened, one_fault, after_call, after_read, after_write, shut, ForInner, TakesFrom, PutsIn};
ghost use Rattle.py_raw_files.specs.FileRaw.{shown};
ghost use Rattle.py_raw.specs.RawStream.{Keeps, KeepsPlace, StaysOpen, FailsWithout, WriteFits, ReadOutcome, WriteOutcome, SeekOutcome, TellOutcome, EndOutcome, TruncateOutcome, CloseOutcome};
ghost use Rattle.py_flat.specs.Limits.{greatest_place};

use crate::Counts;
use crate::handle::Handle;
use py_raw::{GREATEST_PLACE, RawError, RawStream};
use std::fs::{File, OpenFile};
use std::io;
use std::io::{ErrorKind, Read, Seek, SeekFrom, Write};

/// A raw stream over a file, a pipe or a device of the system.
///
/// It tells no content: what a file holds is the system's; but it tells its transfers. An answer that a call would block or was
/// interrupted is a wait; every other error is a fault, and so is an answer that can't be true, as a place past
/// 9223372036854775807 or a seek that ends elsewhere, and a write that takes nothing of a piece that isn't empty. Each wait and
/// each fault is counted once, and nothing else is. `close` lets the file go, and so does dropping the stream: that can't report a
/// fault, so none of the system's at its own closing is seen.
#[derive(Debug, Drop)]
pub struct FileRaw<F = File> {
    handle: Handle<F>,
}

impl<F> FileRaw<F> {
    /// An open stream over a file, with what it can do, and nothing counted. It takes no memory.
    pub fn new(file: F, readable: bool, writable: bool, seekable: bool) -> Self
        ensures shows { shown result ≡ opened readable writable seekable }
        ensures file { result.handle.inner ≡ Some file }
    {
        FileRaw {
            handle: Handle::new(file, readable, writable, seekable),
        }
    }

    /// What was counted.
    pub fn counts(&self) -> Counts
        ensures { result ≡ self.now.handle.counts }
    {
        self.handle.counts()
    }

    /// What the system said of the last fault: that the file is missing or full, that there are no rights, and so on. `None` before
    /// the first fault, and after one that the system didn't see, as an answer that can't be true.
    ///
    /// It is for a person who has to act on a fault; nothing is claimed of it.
    pub fn last_error(&self) -> Option<ErrorKind> {
        self.handle.last_error()
    }

    /// The file, unless the stream is closed.
    pub fn into_inner(self) -> Option<F>
        ensures { result ≡ self.handle.inner }
    {
        let FileRaw { handle } = self;
        handle.into_inner()
    }
}

/// Where a file ends: it is moved there and back, since a device and some files of the system end elsewhere than their metadata
/// says. `None` where an answer can't be true.
fn end_of<F: Seek>(file: &mut F) -> io::Result<Option<u64>>
    ensures end { IfOk result (λ answer. IfSome answer (λ end. end ≤ greatest_place)) }
    ensures place { IfOk result (λ answer. IsSome answer → IfSome (F.stream_position file.old) (λ stood. F.stream_position file.new ≡ Some stood)) }
{
    let place = file.stream_position()?;
    let end = file.seek(SeekFrom::End(0))?;
    let back = file.seek(SeekFrom::Start(place))?;
    Ok((back == place && end <= GREATEST_PLACE).then_some(end))
}

impl<F: Read + Write + Seek + OpenFile + Drop> RawStream for FileRaw<F> {
    ghost shows = { shown };

    ghost told_length = { λ raw _. Prim.search rules };

    fn unsupported(&mut self) -> RawError
        ensures keeps { Keeps (shown self.old) (shown self.new) }
        ensures open { StaysOpen (shown self.old) (shown self.new) }
        ensures answer { result ≡ RawError.Fault }
        ensures fails { FailsWithout 0 (shown self.old) (shown self.new) }
        ensures place { KeepsPlace (shown self.old) (shown self.new) }
        ensures counts { shown self.new ≡ one_fault (shown self.old) }
    {
        self.handle.fault(None)
    }

    fn readinto(&mut self, buf: &mut [u8]) -> Result<Option<usize>, RawError>
        requires open { (shown self.old).closed ≡ false }
        ensures keeps { Keeps (shown self.old) (shown self.new) }
        ensures open { StaysOpen (shown self.old) (shown self.new) }
        ensures outcome { ReadOutcome (shown self.old) buf.old result buf.new (shown self.new) }
        ensures file { ForInner self.old.handle.inner self.new.handle.inner (λ old new. TakesFrom (F.remaining old) (F.remaining new) result buf.new) }
        ensures counts { shown self.new ≡ after_read (shown self.old) result }
    {
        self.handle.readinto(buf)
    }

    fn write(&mut self, piece: &[u8]) -> Result<Option<usize>, RawError>
        requires open { (shown self.old).closed ≡ false }
        requires fits { WriteFits (shown self.old) piece.now }
        ensures keeps { Keeps (shown self.old) (shown self.new) }
        ensures open { StaysOpen (shown self.old) (shown self.new) }
        ensures outcome { WriteOutcome (shown self.old) piece.now result (shown self.new) }
        ensures file { ForInner self.old.handle.inner self.new.handle.inner (λ old new. PutsIn (F.contents old) (F.contents new) result piece.now) }
        ensures counts { shown self.new ≡ after_write (shown self.old) (length piece.now) result }
    {
        self.handle.write(piece)
    }

    fn seek(&mut self, place: u64) -> Result<(), RawError>
        requires open { (shown self.old).closed ≡ false }
        requires within { place ≤ greatest_place }
        ensures keeps { Keeps (shown self.old) (shown self.new) }
        ensures open { StaysOpen (shown self.old) (shown self.new) }
        ensures outcome { SeekOutcome (shown self.old) place result (shown self.new) }
        ensures file { OnOk result (ForInner self.old.handle.inner self.new.handle.inner (λ old new. IfSome (F.stream_position old) (λ stood. F.stream_position new ≡ Some place))) }
        ensures counts { shown self.new ≡ after_call (shown self.old) result }
    {
        let Some(file) = &mut self.handle.inner else {
            unreachable!()
        };
        let answer = file.seek(SeekFrom::Start(place));
        self.handle
            .take_reply(answer.map(|stands| (stands == place).then_some(())))
    }

    fn tell(&mut self) -> Result<u64, RawError>
        requires open { (shown self.old).closed ≡ false }
        ensures keeps { Keeps (shown self.old) (shown self.new) }
        ensures open { StaysOpen (shown self.old) (shown self.new) }
        ensures outcome { TellOutcome (shown self.old) result (shown self.new) }
        ensures file { IfOk result (λ answer. IfSome self.old.handle.inner (λ old. IfSome (F.stream_position old) (λ stands. answer ≡ stands))) }
        ensures counts { shown self.new ≡ after_call (shown self.old) result }
    {
        let Some(file) = &mut self.handle.inner else {
            unreachable!()
        };
        let answer = file.stream_position();
        self.handle.take_reply(answer.map(|place| (place <= GREATEST_PLACE).then_some(place)))
    }

    fn end(&mut self) -> Result<u64, RawError>
        requires open { (shown self.old).closed ≡ false }
        ensures keeps { Keeps (shown self.old) (shown self.new) }
        ensures open { StaysOpen (shown self.old) (shown self.new) }
        ensures outcome { EndOutcome (shown self.old) result (shown self.new) }
        ensures file { OnOk result (ForInner self.old.handle.inner self.new.handle.inner (λ old new. IfSome (F.stream_position old) (λ stood. F.stream_position new ≡ Some stood))) }
        ensures counts { shown self.new ≡ after_call (shown self.old) result }
    {
        let Some(file) = &mut self.handle.inner else {
            unreachable!()
        };
        let answer = end_of(file);
        self.handle.take_reply(answer)
    }

    /// The length that the system tells of the file, which is 0 of a pipe, a device and most files below `/proc`; none where it tells
    /// none, and once the stream is closed.
    fn end_hint(&self) -> Option<u64> {
        let file = self.handle.inner.as_ref()?;
        let metadata = file.metadata().ok()?;
        Some(metadata.len())
    }

    fn truncate(&mut self, size: u64) -> Result<(), RawError>
        requires open { (shown self.old).closed ≡ false }
        requires within { size ≤ greatest_place }
        ensures keeps { Keeps (shown self.old) (shown self.new) }
        ensures open { StaysOpen (shown self.old) (shown self.new) }
        ensures outcome { TruncateOutcome (shown self.old) size result (shown self.new) }
        ensures counts { shown self.new ≡ after_call (shown self.old) result }
    {
        let Some(file) = &mut self.handle.inner else {
            unreachable!()
        };
        let answer = file.set_len(size);
        self.handle.take_reply(answer.map(Some))
    }

    fn close(&mut self) -> Result<(), RawError>
        requires { (shown self.old).closed ≡ false }
        ensures keeps { Keeps (shown self.old) (shown self.new) }
        ensures outcome { CloseOutcome (shown self.old) result (shown self.new) }
        ensures counts { shown self.new ≡ after_call (shut (shown self.old)) result }
    {
        self.handle.close(Ok(()))
    }

    fn closed(&self) -> bool {
        self.handle.closed()
    }

    fn readable(&self) -> bool {
        self.handle.readable()
    }

    fn writable(&self) -> bool {
        self.handle.writable()
    }

    fn seekable(&self) -> bool {
        self.handle.seekable()
    }
}
