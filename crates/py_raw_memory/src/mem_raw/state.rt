ghost use Rattle.std.specs.Prelude.{◌≡◌, ◌+◌, ◌≤◌, true, false, length, OnOk, IfErr};
ghost use Rattle.py_flat.specs.Bytes.{left_at};
ghost use Rattle.py_flat.specs.Limits.{greatest_place};
ghost use Rattle.py_raw.specs.Flags.{can_read, can_write, can_seek};
ghost use Rattle.py_raw.specs.Reads.{no_reads};
ghost use Rattle.py_raw_memory.specs.MemRaw.{shown, view_of, is_refused, refuses, next_cut, read_turn, write_turn, called, refused_once, broken, waited, advanced, moved, wrote, laid, cut_to};

use super::MemRaw;
use crate::Cut;
use crate::cut::{Turn, read_by, write_by};
use py_raw::{RawError, RawFlags, Reads, lay_on};

impl MemRaw {
    /// An open stream of these bytes, at place 0, with the plan of its transfers and the numbers of the calls that fail.
    /// It takes no memory.
    pub fn new(bytes: Vec<u8>, flags: RawFlags, plan: Vec<Cut>, faults: Vec<u64>) -> Self
        ensures { view_of result ≡ record {
          shows = record {
            tells_bytes = true;
            tells_place = true;
            tells_transfers = true;
            bytes = bytes.items;
            place = 0;
            transfers = 0;
            written = 0;
            reads = no_reads;
            faults = 0;
            waits = 0;
            closed = false;
            readable = can_read flags;
            writable = can_write flags;
            seekable = can_seek flags;
            takes_memory = can_write flags;
            counts_exactly = true;
          };
          plan = plan.items;
          refused = faults.items;
          calls = 0;
        } }
    {
        MemRaw {
            bytes,
            place: 0,
            flags,
            plan,
            refused: faults,
            calls: 0,
            transfers: 0,
            written: 0,
            reads: Reads::default(),
            faults: 0,
            waits: 0,
            closed: false,
        }
    }

    /// The bytes, lent.
    pub fn bytes_of(&self) -> &[u8]
        ensures { result.now ≡ (shown self.now).bytes }
    {
        self.bytes.as_slice()
    }

    /// The bytes as a vector. It takes no memory.
    pub fn into_bytes(self) -> Vec<u8>
        ensures { result.items ≡ (shown self).bytes }
    {
        let MemRaw { bytes, .. } = self;
        bytes
    }

    /// The bytes from the place on: none at the end and past it.
    pub(super) fn left(&self) -> &[u8]
        ensures { result.now ≡ left_at self.now.bytes.items self.now.place }
    {
        let place = self.place as usize;
        if place < self.bytes.len() {
            &self.bytes[place..]
        } else {
            &[]
        }
    }

    /// Whether the next call is listed as one that fails.
    pub(super) fn is_refused(&self) -> bool
        ensures { result ≡ is_refused (view_of self.now) }
    {
        self.refused.contains(&self.calls)
    }

    /// Whether the next call fails outright: it is listed, or the stream can't do what it asks.
    pub(super) fn refuses(&self, can: bool) -> bool
        ensures { result ≡ refuses can (view_of self.now) }
    {
        !can || self.is_refused()
    }

    /// The element of the plan that the next transfer uses.
    fn next_cut(&self) -> Option<Cut>
        ensures { result ≡ next_cut (view_of self.now) }
    {
        self.plan.get(self.transfers as usize).copied()
    }

    /// What the next call makes of a read of n bytes, which are there.
    pub(super) fn read_turn(&self, asked: usize) -> Turn
        ensures { result ≡ read_turn (view_of self.now) asked }
    {
        if self.refuses(self.flags.is_readable()) {
            return Turn::Refuses;
        }
        read_by(self.next_cut(), asked)
    }

    /// What the next call makes of a write of n bytes.
    pub(super) fn write_turn(&self, asked: usize) -> Turn
        ensures { result ≡ write_turn (view_of self.now) asked }
    {
        if self.refuses(self.flags.is_writable()) {
            return Turn::Refuses;
        }
        write_by(self.next_cut(), asked)
    }

    /// Counts a call that is no transfer.
    pub(super) fn count_call(&mut self)
        ensures { view_of self.new ≡ called (view_of self.old) (shown self.old) }
    {
        self.calls = self.calls.saturating_add(1);
    }

    /// Counts a call that is refused.
    pub(super) fn count_refusal(&mut self)
        ensures { view_of self.new ≡ refused_once (view_of self.old) }
    {
        self.calls = self.calls.saturating_add(1);
        self.faults = self.faults.saturating_add(1);
    }

    /// Counts a transfer that would block.
    pub(super) fn count_wait(&mut self)
        ensures { view_of self.new ≡ waited (view_of self.old) }
    {
        self.calls = self.calls.saturating_add(1);
        self.transfers = self.transfers.saturating_add(1);
        self.waits = self.waits.saturating_add(1);
    }

    /// Counts a transfer that fails or takes nothing.
    pub(super) fn count_break(&mut self)
        ensures { view_of self.new ≡ broken (view_of self.old) }
    {
        self.calls = self.calls.saturating_add(1);
        self.transfers = self.transfers.saturating_add(1);
        self.faults = self.faults.saturating_add(1);
    }

    /// Counts a transfer of n bytes, and moves the place after them.
    fn advance(&mut self, count: usize)
        requires { self.old.place + count ≤ greatest_place }
        ensures { view_of self.new ≡ advanced (view_of self.old) count }
    {
        self.calls = self.calls.saturating_add(1);
        self.transfers = self.transfers.saturating_add(1);
        self.place += count as u64;
    }

    /// Counts a read that brought n bytes, and moves the place after them.
    pub(super) fn count_read(&mut self, count: usize)
        requires { self.old.place + count ≤ greatest_place }
        ensures { view_of self.new ≡ moved (view_of self.old) count }
    {
        self.advance(count);
        self.reads.count(count);
    }

    /// Counts a write that answers for n bytes, and moves the place after them.
    pub(super) fn count_written(&mut self, count: usize)
        requires { self.old.place + count ≤ greatest_place }
        ensures { view_of self.new ≡ wrote (view_of self.old) count }
    {
        self.advance(count);
        self.written = self.written.saturating_add(count as u64);
    }

    /// Lays a part of a piece on at the place, or runs out of memory and leaves all as it was.
    pub(super) fn lay(&mut self, part: &[u8]) -> Result<(), RawError>
        requires { self.old.place + length part.now ≤ greatest_place }
        ensures ok { OnOk result (view_of self.new ≡ laid (view_of self.old) part.now) }
        ensures err { IfErr result (λ error. (error ≡ RawError.Memory) × (view_of self.new ≡ view_of self.old)) }
    {
        match lay_on(&mut self.bytes, self.place as usize, part) {
            Ok(()) => Ok(()),
            Err(_) => Err(RawError::Memory),
        }
    }
    /// Cuts the bytes to a size or lengthens them by zeros, or runs out of memory and leaves all as it was.
    pub(super) fn resize(&mut self, size: usize) -> Result<(), RawError>
        ensures ok { OnOk result (view_of self.new ≡ cut_to (view_of self.old) size) }
        ensures err { IfErr result (λ error. (error ≡ RawError.Memory) × (view_of self.new ≡ view_of self.old)) }
    {
        match self.bytes.resize(size, 0) {
            Ok(()) => Ok(()),
            Err(_) => Err(RawError::Memory),
        }
    }
}
