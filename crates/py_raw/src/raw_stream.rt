ghost use Rattle.std.specs.Prelude.{◌≡◌, ◌≤◌, max, true, false, length, IsTrue};
ghost use Rattle.py_flat.specs.Limits.{greatest_place};
ghost use Rattle.py_raw.specs.ReadAll.{ReadOnceOutcome, ReadAllOutcome};
ghost use Rattle.py_raw.specs.RawStream.{Raw, Keeps, KeepsPlace, StaysOpen, FailsWithout, ReadOutcome, WriteOutcome, SeekOutcome, TellOutcome, EndOutcome, TruncateOutcome, CloseOutcome, WriteFits};

use crate::{RawError, lengthen};
use std::alloc::Global;

/// The greatest place and the greatest size of a stream, in bytes from its start: the greatest signed number of 64 bits, as in
/// Python's `io`.
pub const GREATEST_PLACE: u64 = 9223372036854775807;

/// How many bytes the next transfer of a reading up to the end asks for, after n: 8192, and then as many as came,
/// so that the room doubles.
fn next_chunk(came: usize) -> usize
    ensures { result ≡ max came 8192 }
{
    came.max(8192)
}

/// A stream of bytes under the buffers: a file, a pipe, a device, or memory.
///
/// Places and sizes are bytes from the start, at most 9223372036854775807. A call may move fewer bytes than asked,
/// say that it would block (`None`) or fail; each of these has its cause in a count of the stream that rose.
///
/// A stream that lacks a call by its type, as a pipe lacks `seek`, doesn't write it: the call then counts a fault and answers it.
pub trait RawStream {
    /// What the stream shows: its counts, what it can do, and, where it tells them, its bytes, its place and its transfers.
    ghost shows: { Self → Raw };

    /// Counts a fault, and answers with it: what a call comes to that the stream lacks. Its bytes, its place and its transfers
    /// stay as they are.
    fn unsupported(&mut self) -> RawError
        ensures keeps { Keeps (shows self.old) (shows self.new) }
        ensures open { StaysOpen (shows self.old) (shows self.new) }
        ensures answer { result ≡ RawError.Fault }
        ensures fails { FailsWithout 0 (shows self.old) (shows self.new) }
        ensures place { KeepsPlace (shows self.old) (shows self.new) };

    /// Reads up to as many bytes as `buf` is long, from the place on, into its front; the place moves after them.
    ///
    /// `Some(n)` says how many: 0 into a buffer that isn't empty only at the end or past it. `None`: not ready, all is
    /// as before. After `Fault` the bytes are unchanged; after `Memory` all is.
    fn readinto(&mut self, buf: &mut [u8]) -> Result<Option<usize>, RawError>
        requires open { (shows self.old).closed ≡ false }
        ensures keeps { Keeps (shows self.old) (shows self.new) }
        ensures open { StaysOpen (shows self.old) (shows self.new) }
        ensures outcome { ReadOutcome (shows self.old) buf.old result buf.new (shows self.new) }
    {
        Err(self.unsupported())
    }

    /// Reads up to `n` bytes from the place on by one transfer, into a vector of its own; the place moves after them.
    ///
    /// `Some(bytes)`: the next bytes, at most `n`; none only where `n` is 0, or at the end or past it. `None`: not ready,
    /// all is as before. After `Fault` the bytes of the stream are unchanged. `Memory`: the stream ran out of memory, or there
    /// was none for the vector, which is taken before the transfer, so all is unchanged. The rule is that of `read` of
    /// Python's `io.RawIOBase`.
    fn read(&mut self, alloc: Global, n: usize) -> Result<Option<Vec<u8>>, RawError>
        requires open { (shows self.old).closed ≡ false }
        ensures keeps { Keeps (shows self.old) (shows self.new) }
        ensures open { StaysOpen (shows self.old) (shows self.new) }
        ensures outcome { ReadOnceOutcome (shows self.old) n result (shows self.new) }
    {
        let mut bytes = Vec::new(alloc);
        if lengthen(&mut bytes, n).is_err() {
            return Err(RawError::Memory);
        }
        match self.readinto(bytes.as_mut_slice()) {
            Ok(Some(count)) => {
                bytes.truncate(count);
                Ok(Some(bytes))
            }
            Ok(None) => Ok(None),
            Err(error) => Err(error),
        }
    }

    /// Reads from the place on up to the end, or until the stream would block, and appends what comes to `out`; the place
    /// moves after it.
    ///
    /// `Some(n)`: `n` bytes were appended, and the end was reached or, after at least one byte, the stream would have blocked.
    /// `None`: it would have blocked before any byte, and all else is as before. After `Fault` and `Memory` what was read until
    /// then is in `out`. After `Fault` the bytes of the stream are unchanged; where it stands isn't told. `Memory`: the
    /// stream ran out of memory, or there was none to lengthen `out`, which is done before each transfer, so the place is
    /// after what was appended. The rule is that of `readall` of Python's `io.RawIOBase`.
    fn readall(&mut self, out: &mut Vec<u8>) -> Result<Option<usize>, RawError>
        requires open { (shows self.old).closed ≡ false }
        ensures keeps { Keeps (shows self.old) (shows self.new) }
        ensures open { StaysOpen (shows self.old) (shows self.new) }
        ensures outcome { ReadAllOutcome (shows self.old) out.old.items result out.new.items (shows self.new) }
    {
        let start = out.len();
        'transfers: loop {
            let held = out.len();
            if lengthen(out, held + next_chunk(held - start)).is_err() {
                return Err(RawError::Memory);
            }
            match self.readinto(&mut out[held..]) {
                Ok(Some(0)) => {
                    out.truncate(held);
                    return Ok(Some(held - start));
                }
                Ok(Some(count)) => out.truncate(held + count),
                Ok(None) => {
                    out.truncate(held);
                    return Ok((start < held).then_some(held - start));
                }
                Err(error) => {
                    out.truncate(held);
                    return Err(error);
                }
            }
        }
    }

    /// Writes a front of `piece` at the place, zeros up to it where it lies past the end; the place moves after it.
    ///
    /// `Some(n)` says how many bytes were taken; 0 of a piece that isn't empty is a fault. `None`: not ready, all is as
    /// before. After `Fault` a front of the piece may have been written; after `Memory` all is unchanged.
    fn write(&mut self, piece: &[u8]) -> Result<Option<usize>, RawError>
        requires open { (shows self.old).closed ≡ false }
        requires fits { WriteFits (shows self.old) piece.now }
        ensures keeps { Keeps (shows self.old) (shows self.new) }
        ensures open { StaysOpen (shows self.old) (shows self.new) }
        ensures outcome { WriteOutcome (shows self.old) piece.now result (shows self.new) }
    {
        Err(self.unsupported())
    }

    /// Moves to a place from the start; past the end is allowed. After an error the bytes are unchanged.
    fn seek(&mut self, place: u64) -> Result<(), RawError>
        requires open { (shows self.old).closed ≡ false }
        requires within { place ≤ greatest_place }
        ensures keeps { Keeps (shows self.old) (shows self.new) }
        ensures open { StaysOpen (shows self.old) (shows self.new) }
        ensures outcome { SeekOutcome (shows self.old) place result (shows self.new) }
    {
        Err(self.unsupported())
    }

    /// The place. After an error the bytes are unchanged.
    fn tell(&mut self) -> Result<u64, RawError>
        requires open { (shows self.old).closed ≡ false }
        ensures keeps { Keeps (shows self.old) (shows self.new) }
        ensures open { StaysOpen (shows self.old) (shows self.new) }
        ensures outcome { TellOutcome (shows self.old) result (shows self.new) }
    {
        Err(self.unsupported())
    }

    /// How many bytes there are; the place is kept. After an error the bytes are unchanged.
    fn end(&mut self) -> Result<u64, RawError>
        requires open { (shows self.old).closed ≡ false }
        ensures keeps { Keeps (shows self.old) (shows self.new) }
        ensures open { StaysOpen (shows self.old) (shows self.new) }
        ensures outcome { EndOutcome (shows self.old) result (shows self.new) }
    {
        Err(self.unsupported())
    }

    /// About how many bytes there are, counted from the start; `None` where nobody can say.
    ///
    /// A guess, by which a reading of all takes its space at once: nothing rests on it but how much that is. Where there is no memory
    /// for so much, or the guess lies below the end, such a reading takes space again as bytes come. It counts nothing.
    fn end_hint(&self) -> Option<u64> {
        None
    }

    /// Cuts the bytes to a size, or lengthens them by zeros; the place is kept.
    ///
    /// After `Fault` the bytes are unchanged or have that size; after `Memory` all is unchanged.
    fn truncate(&mut self, size: u64) -> Result<(), RawError>
        requires open { (shows self.old).closed ≡ false }
        requires within { size ≤ greatest_place }
        ensures keeps { Keeps (shows self.old) (shows self.new) }
        ensures open { StaysOpen (shows self.old) (shows self.new) }
        ensures outcome { TruncateOutcome (shows self.old) size result (shows self.new) }
    {
        Err(self.unsupported())
    }

    /// Closes the stream, which stays closed after `Fault` too. After `Memory` nothing changed.
    fn close(&mut self) -> Result<(), RawError>
        requires open { (shows self.old).closed ≡ false }
        ensures keeps { Keeps (shows self.old) (shows self.new) }
        ensures outcome { CloseOutcome (shows self.old) result (shows self.new) };

    /// Whether the stream is closed.
    fn closed(&self) -> bool
        ensures { result ≡ (shows self.now).closed };

    /// Whether it can be read from, closed or not.
    fn readable(&self) -> bool
        ensures { result ≡ (shows self.now).readable };

    /// Whether it can be written to, closed or not.
    fn writable(&self) -> bool
        ensures { result ≡ (shows self.now).writable };

    /// Whether it can be moved, closed or not.
    fn seekable(&self) -> bool
        ensures { result ≡ (shows self.now).seekable };

    /// The bytes that it tells are no longer than a file can be.
    ghost told_length: { (raw : Self) → IsTrue (shows raw).tells_bytes → length (shows raw).bytes ≤ greatest_place };
}
