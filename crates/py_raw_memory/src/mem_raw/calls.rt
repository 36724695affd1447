ghost use Rattle.std.proofs.Common.{rules};
ghost use Rattle.std.specs.Prelude.{◌≡◌, ◌≤◌, true, false, length};
ghost use Rattle.py_flat.specs.Limits.{greatest_place};
ghost use Rattle.py_raw_memory.specs.MemRaw.{shown, view_of, refused_once, ReadPlanned, WritePlanned, CallPlanned, ClosePlanned, TruncatePlanned};
ghost use Rattle.py_raw.specs.RawStream.{Keeps, KeepsPlace, StaysOpen, FailsWithout, WriteFits, ReadOutcome, WriteOutcome, SeekOutcome, TellOutcome, EndOutcome, TruncateOutcome, CloseOutcome};

use super::MemRaw;
use crate::cut::Turn;
use py_raw::{RawError, RawStream, fill_front};

impl RawStream for MemRaw {
    ghost shows = { shown };

    ghost told_length = { λ raw _. Prim.search rules };

    fn unsupported(&mut self) -> RawError
        ensures keeps { Keeps (shown self.old) (shown self.new) }
        ensures open { StaysOpen (shown self.old) (shown self.new) }
        ensures answer { result ≡ RawError.Fault }
        ensures fails { FailsWithout 0 (shown self.old) (shown self.new) }
        ensures place { KeepsPlace (shown self.old) (shown self.new) }
        ensures counted { view_of self.new ≡ refused_once (view_of self.old) }
    {
        self.count_refusal();
        RawError::Fault
    }

    fn readinto(&mut self, buf: &mut [u8]) -> Result<Option<usize>, RawError>
        requires open { (shown self.old).closed ≡ false }
        ensures keeps { Keeps (shown self.old) (shown self.new) }
        ensures open { StaysOpen (shown self.old) (shown self.new) }
        ensures outcome { ReadOutcome (shown self.old) buf.old result buf.new (shown self.new) }
        ensures planned { ReadPlanned (view_of self.old) buf.old result buf.new (view_of self.new) }
    {
        let asked = buf.len().min(self.left().len());
        match self.read_turn(asked) {
            Turn::Moves(count) => {
                fill_front(buf, &self.left()[..count]);
                self.count_read(count);
                Ok(Some(count))
            }
            Turn::Waits => {
                self.count_wait();
                Ok(None)
            }
            Turn::Refuses => {
                self.count_refusal();
                Err(RawError::Fault)
            }
            Turn::Stalls | Turn::Breaks(_) => {
                self.count_break();
                Err(RawError::Fault)
            }
        }
    }

    fn write(&mut self, piece: &[u8]) -> Result<Option<usize>, RawError>
        requires open { (shown self.old).closed ≡ false }
        requires fits { WriteFits (shown self.old) piece.now }
        ensures keeps { Keeps (shown self.old) (shown self.new) }
        ensures open { StaysOpen (shown self.old) (shown self.new) }
        ensures outcome { WriteOutcome (shown self.old) piece.now result (shown self.new) }
        ensures planned { WritePlanned (view_of self.old) piece.now result (view_of self.new) }
    {
        match self.write_turn(piece.len()) {
            Turn::Moves(count) => {
                self.lay(&piece[..count])?;
                self.count_written(count);
                Ok(Some(count))
            }
            Turn::Stalls => {
                self.count_break();
                Ok(Some(0))
            }
            Turn::Waits => {
                self.count_wait();
                Ok(None)
            }
            Turn::Refuses => {
                self.count_refusal();
                Err(RawError::Fault)
            }
            Turn::Breaks(count) => {
                self.lay(&piece[..count])?;
                self.count_break();
                Err(RawError::Fault)
            }
        }
    }

    fn seek(&mut self, place: u64) -> Result<(), RawError>
        requires open { (shown self.old).closed ≡ false }
        requires within { place ≤ greatest_place }
        ensures keeps { Keeps (shown self.old) (shown self.new) }
        ensures open { StaysOpen (shown self.old) (shown self.new) }
        ensures outcome { SeekOutcome (shown self.old) place result (shown self.new) }
        ensures planned { CallPlanned (shown self.old).seekable (view_of self.old) tt (record (shown self.old) { place = place }) result (view_of self.new) }
    {
        if self.refuses(self.flags.is_seekable()) {
            self.count_refusal();
            return Err(RawError::Fault);
        }
        self.count_call();
        self.place = place;
        Ok(())
    }

    fn tell(&mut self) -> Result<u64, RawError>
        requires open { (shown self.old).closed ≡ false }
        ensures keeps { Keeps (shown self.old) (shown self.new) }
        ensures open { StaysOpen (shown self.old) (shown self.new) }
        ensures outcome { TellOutcome (shown self.old) result (shown self.new) }
        ensures planned { CallPlanned (shown self.old).seekable (view_of self.old) self.old.place (shown self.old) result (view_of self.new) }
    {
        if self.refuses(self.flags.is_seekable()) {
            self.count_refusal();
            return Err(RawError::Fault);
        }
        self.count_call();
        Ok(self.place)
    }

    fn end(&mut self) -> Result<u64, RawError>
        requires open { (shown self.old).closed ≡ false }
        ensures keeps { Keeps (shown self.old) (shown self.new) }
        ensures open { StaysOpen (shown self.old) (shown self.new) }
        ensures outcome { EndOutcome (shown self.old) result (shown self.new) }
        ensures planned { CallPlanned (shown self.old).seekable (view_of self.old) (length self.old.bytes.items) (shown self.old) result (view_of self.new) }
    {
        if self.refuses(self.flags.is_seekable()) {
            self.count_refusal();
            return Err(RawError::Fault);
        }
        self.count_call();
        Ok(self.bytes.len() as u64)
    }

    /// How many bytes there are, where the raw can be moved.
    fn end_hint(&self) -> Option<u64> {
        self.flags.is_seekable().then_some(self.bytes.len() as u64)
    }

    fn truncate(&mut self, size: u64) -> Result<(), RawError>
        requires open { (shown self.old).closed ≡ false }
        requires within { size ≤ greatest_place }
        ensures keeps { Keeps (shown self.old) (shown self.new) }
        ensures open { StaysOpen (shown self.old) (shown self.new) }
        ensures outcome { TruncateOutcome (shown self.old) size result (shown self.new) }
        ensures planned { TruncatePlanned (view_of self.old) size result (view_of self.new) }
    {
        if self.refuses(self.flags.is_writable()) {
            self.count_refusal();
            return Err(RawError::Fault);
        }
        self.resize(size as usize)?;
        self.count_call();
        Ok(())
    }

    fn close(&mut self) -> Result<(), RawError>
        requires { (shown self.old).closed ≡ false }
        ensures keeps { Keeps (shown self.old) (shown self.new) }
        ensures outcome { CloseOutcome (shown self.old) result (shown self.new) }
        ensures planned { ClosePlanned (view_of self.old) result (view_of self.new) }
    {
        self.closed = true;
        if self.is_refused() {
            self.count_refusal();
            return Err(RawError::Fault);
        }
        self.count_call();
        Ok(())
    }

    fn closed(&self) -> bool {
        self.closed
    }

    fn readable(&self) -> bool {
        self.flags.is_readable()
    }

    fn writable(&self) -> bool {
        self.flags.is_writable()
    }

    fn seekable(&self) -> bool {
        self.flags.is_seekable()
    }
}
