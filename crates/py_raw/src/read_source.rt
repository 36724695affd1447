ghost use Rattle.std.specs.Io.KnownBytes.{ReadConsumes};

use crate::again::read_again;
use crate::{Failed, Source};
use std::fmt;
use std::io::Read;

/// A source over any reader, as standard input. It tells nothing of what is left.
#[derive(Drop)]
pub struct ReadSource<R> {
    reader: R,
    failed: u64,
}

// Only the count, since few readers can be shown.
impl<R> fmt::Debug for ReadSource<R> {
    fn fmt<W: fmt::Write>(&self, f: &mut fmt::Formatter<W>) -> fmt::Result {
        f.debug_struct("ReadSource")
            .field("faults", &self.failed)
            .finish_non_exhaustive()
    }
}

impl<R: Read> ReadSource<R> {
    ghost use Rattle.std.specs.Prelude.{◌≡◌, true, false, []};
    ghost use Rattle.py_raw.specs.ReadSource.{reader_of, shown_read_source};

    /// A source that reads from this reader.
    pub fn new(reader: R) -> Self
        ensures shows { shown_read_source result ≡ record { tells = false; left = []; faults = 0; counts_exactly = true } }
        ensures reader { reader_of result ≡ reader }
    {
        ReadSource { reader, failed: 0 }
    }
}

impl<R: Read> Source for ReadSource<R> {
    ghost use Rattle.std.specs.Prelude.{◌≡◌, OnOk, OnErr};
    ghost use Rattle.py_flat.specs.Causes.{counted};
    ghost use Rattle.py_raw.specs.Source.{SourceKeeps, SourceOutcome, NoSourceFault};
    ghost use Rattle.py_raw.specs.ReadSource.{reader_of, shown_read_source};

    ghost shows = { shown_read_source };

    /// Reads once from the reader, and again where that was interrupted; any other error is a fault, one that says that it would
    /// block too. The count of faults stops at 18446744073709551615. Where the reader's bytes are known, those that it gives are the next of them.
    fn read(&mut self, buf: &mut [u8]) -> Result<usize, Failed>
        ensures keeps { SourceKeeps (shown_read_source self.old) (shown_read_source self.new) }
        ensures outcome { SourceOutcome (shown_read_source self.old) buf.old result buf.new (shown_read_source self.new) }
        ensures exact { OnOk result (NoSourceFault (shown_read_source self.old) (shown_read_source self.new)) }
        ensures bytes { ReadConsumes (R.remaining (reader_of self.old)) (R.remaining (reader_of self.new)) result buf.new }
        ensures quiet { OnOk result ((shown_read_source self.new).faults ≡ (shown_read_source self.old).faults) }
        ensures one_fault { OnErr result ((shown_read_source self.new).faults ≡ counted (shown_read_source self.old).faults 1) }
    {
        match read_again(&mut self.reader, buf) {
            Ok(count) => Ok(count),
            Err(_) => {
                self.failed = self.failed.saturating_add(1);
                Err(Failed)
            }
        }
    }
}
