ghost use Rattle.std.specs.Prelude.{◌≡◌, ◌≤◌, vec_len, vec_capacity};

use crate::{Failed, Sink};
use std::alloc::{AllocError, Global};

/// A sink in memory, of a room that is made at the start, whose writes fail where it is told to: what a test prints
/// replies to.
#[derive(Debug, Drop)]
pub struct MemSink {
    bytes: Vec<u8>,
    room: usize,
    faults: Vec<u64>,
    writes: u64,
    failed: u64,
    ghost held: { vec_len bytes ≤ room },
    ghost made: { room ≤ vec_capacity bytes },
}

impl MemSink {
    ghost use Rattle.std.specs.Prelude.{true, [], IfOk};
    ghost use Rattle.py_raw.specs.MemSink.{shown_sink, written_in, room_of, failing_writes, writes_made};

    /// A sink that holds at most `room` bytes. `faults` lists the numbers of the writes that fail outright, counted
    /// from 0.
    pub fn with_room(alloc: Global, room: usize, faults: Vec<u64>) -> Result<Self, AllocError>
        ensures shows { IfOk result (λ sink. shown_sink sink ≡ record { tells = true; written = []; faults = 0; counts_exactly = true }) }
        ensures room { IfOk result (λ sink. room_of sink ≡ room) }
        ensures failing { IfOk result (λ sink. failing_writes sink ≡ faults.items) }
        ensures unwritten { IfOk result (λ sink. writes_made sink ≡ 0) }
    {
        let bytes = Vec::with_capacity(alloc, room)?;
        Ok(MemSink {
            bytes,
            room,
            faults,
            writes: 0,
            failed: 0,
        })
    }

    /// The bytes that were written.
    pub fn written(&self) -> &[u8]
        ensures { result.now ≡ written_in self.now }
    {
        self.bytes.as_slice()
    }

    /// How many writes failed; the count stops at 18446744073709551615.
    pub fn fault_count(&self) -> u64
        ensures { result ≡ (shown_sink self.now).faults }
    {
        self.failed
    }

    /// The bytes that were written, taken out of the sink.
    pub fn into_bytes(self) -> Vec<u8>
        ensures { result.items ≡ written_in self }
    {
        self.bytes
    }
}

impl Sink for MemSink {
    ghost use Rattle.std.specs.Prelude.{◌+◌, ◌-◌, ◌++◌, ◌↔◌, length, take, IsOk, IsErr, OnOk, OnErr};
    ghost use Rattle.py_flat.specs.Causes.{counted};
    ghost use Rattle.py_raw.specs.Sink.{SinkKeeps, SinkOutcome, NoSinkFault};
    ghost use Rattle.py_raw.specs.MemSink.{shown_sink, written_in, room_of, failing_writes, writes_made, NextWriteFails, HasRoomFor};

    ghost shows = { shown_sink };

    /// Writes all of a piece that fits the room. Of one that doesn't it writes what fits and fails, as a full device
    /// does; a listed write fails and writes nothing. The number of writes and the count of faults stop at
    /// 18446744073709551615.
    fn write(&mut self, piece: &[u8]) -> Result<(), Failed>
        ensures keeps { SinkKeeps (shown_sink self.old) (shown_sink self.new) }
        ensures outcome { SinkOutcome (shown_sink self.old) piece.now result (shown_sink self.new) }
        ensures exact { OnOk result (NoSinkFault (shown_sink self.old) (shown_sink self.new)) }
        ensures listed { NextWriteFails self.old → IsErr result }
        ensures nothing { NextWriteFails self.old → written_in self.new ≡ written_in self.old }
        ensures complete { ¬ (NextWriteFails self.old) → (IsOk result ↔ HasRoomFor self.old piece.now) }
        ensures fitting { ¬ (NextWriteFails self.old) → written_in self.new ≡ written_in self.old ++ take (room_of self.old - length (written_in self.old)) piece.now }
        ensures room { room_of self.new ≡ room_of self.old }
        ensures failing { failing_writes self.new ≡ failing_writes self.old }
        ensures made { writes_made self.new ≡ counted (writes_made self.old) 1 }
        ensures quiet { OnOk result ((shown_sink self.new).faults ≡ (shown_sink self.old).faults) }
        ensures one_fault { OnErr result ((shown_sink self.new).faults ≡ counted (shown_sink self.old).faults 1) }
    {
        let fails = self.faults.contains(&self.writes);
        self.writes = self.writes.saturating_add(1);
        if fails {
            self.failed = self.failed.saturating_add(1);
            return Err(Failed);
        }
        let count = piece.len().min(self.room - self.bytes.len());
        // The room was made at the start, so no memory is wanted here.
        self.bytes.extend_from_slice(&piece[..count]).unwrap();
        if count < piece.len() {
            self.failed = self.failed.saturating_add(1);
            return Err(Failed);
        }
        Ok(())
    }
}
