ghost use Rattle.std.specs.Prelude.{◌≡◌, ◌≤◌, ◌++◌, min, length, take, drop, vec_len};

use crate::{Failed, Source};

/// A source in memory, whose reads fail where it is told to: what a test reads a script from.
#[derive(Debug, Drop)]
pub struct MemSource {
    bytes: Vec<u8>,
    place: usize,
    faults: Vec<u64>,
    reads: u64,
    failed: u64,
    ghost within: { place ≤ vec_len bytes },
}

impl MemSource {
    ghost use Rattle.std.specs.Prelude.{true};
    ghost use Rattle.py_raw.specs.MemSource.{shown_source, failing_reads, reads_made};

    /// A source that gives these bytes. `faults` lists the numbers of the reads that fail, counted from 0.
    pub fn new(bytes: Vec<u8>, faults: Vec<u64>) -> Self
        ensures shows { shown_source result ≡ record { tells = true; left = bytes.items; faults = 0; counts_exactly = true } }
        ensures failing { failing_reads result ≡ faults.items }
        ensures unread { reads_made result ≡ 0 }
    {
        MemSource {
            bytes,
            place: 0,
            faults,
            reads: 0,
            failed: 0,
        }
    }

    /// How many reads were asked for, those that failed among them; the count stops at 18446744073709551615.
    pub fn read_count(&self) -> u64
        ensures { result ≡ reads_made self.now }
    {
        self.reads
    }

    /// How many reads failed; the count stops at 18446744073709551615.
    pub fn fault_count(&self) -> u64
        ensures { result ≡ (shown_source self.now).faults }
    {
        self.failed
    }
}

/// Copies as many bytes as both have room for, and answers how many.
fn copy_front(from: &[u8], to: &mut [u8]) -> usize
    ensures count { result ≡ min (length from.now) (length to.old) }
    ensures copied { to.new ≡ take result from.now ++ drop result to.old }
{
    let count = from.len().min(to.len());
    to[..count].copy_from_slice(&from[..count]);
    count
}

impl Source for MemSource {
    ghost use Rattle.std.specs.Prelude.{◌↔◌, IsErr, IfOk, OnOk, OnErr};
    ghost use Rattle.py_flat.specs.Causes.{counted};
    ghost use Rattle.py_raw.specs.Source.{SourceKeeps, SourceOutcome, NoSourceFault};
    ghost use Rattle.py_raw.specs.MemSource.{shown_source, left_in, failing_reads, reads_made, NextReadFails};

    ghost shows = { shown_source };

    /// Gives as many of the bytes that are left as fit, and fails exactly at the listed reads. The number of reads and
    /// the count of faults stop at 18446744073709551615.
    fn read(&mut self, buf: &mut [u8]) -> Result<usize, Failed>
        ensures keeps { SourceKeeps (shown_source self.old) (shown_source self.new) }
        ensures outcome { SourceOutcome (shown_source self.old) buf.old result buf.new (shown_source self.new) }
        ensures exact { OnOk result (NoSourceFault (shown_source self.old) (shown_source self.new)) }
        ensures fails { IsErr result ↔ NextReadFails self.old }
        ensures count { IfOk result (λ count. count ≡ min (length (left_in self.old)) (length buf.old)) }
        ensures failing { failing_reads self.new ≡ failing_reads self.old }
        ensures made { reads_made self.new ≡ counted (reads_made self.old) 1 }
        ensures quiet { OnOk result ((shown_source self.new).faults ≡ (shown_source self.old).faults) }
        ensures one_fault { OnErr result ((shown_source self.new).faults ≡ counted (shown_source self.old).faults 1) }
    {
        let fails = self.faults.contains(&self.reads);
        self.reads = self.reads.saturating_add(1);
        if fails {
            self.failed = self.failed.saturating_add(1);
            return Err(Failed);
        }
        let count = copy_front(&self.bytes[self.place..], buf);
        self.place += count;
        Ok(count)
    }
}
