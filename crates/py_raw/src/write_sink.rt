ghost use Rattle.std.specs.Prelude.{OnOk};
ghost use Rattle.std.specs.Io.KnownBytes.{Appends};

use crate::again::flush_again;
use crate::{Failed, Sink};
use std::io::Write;
use std::{fmt, io};

/// A sink over any writer, as standard output. It tells nothing of what was written.
#[derive(Drop)]
pub struct WriteSink<W> {
    writer: W,
    failed: u64,
}

// Only the count, since few writers can be shown.
impl<W> fmt::Debug for WriteSink<W> {
    fn fmt<T: fmt::Write>(&self, f: &mut fmt::Formatter<T>) -> fmt::Result {
        f.debug_struct("WriteSink")
            .field("faults", &self.failed)
            .finish_non_exhaustive()
    }
}

impl<W: Write> WriteSink<W> {
    ghost use Rattle.std.specs.Prelude.{◌≡◌, true, false, []};
    ghost use Rattle.py_raw.specs.WriteSink.{writer_of, shown_write_sink};

    /// A sink that writes to this writer.
    pub fn new(writer: W) -> Self
        ensures shows { shown_write_sink result ≡ record { tells = false; written = []; faults = 0; counts_exactly = true } }
        ensures writer { writer_of result ≡ writer }
    {
        WriteSink { writer, failed: 0 }
    }
}

/// Writes all of a piece and flushes, so that an error of a writer with a buffer shows at the write that caused it.
fn write_through<W: Write>(writer: &mut W, piece: &[u8]) -> io::Result<()>
    ensures { OnOk result (Appends (W.contents writer.old) (W.contents writer.new) piece.now) }
{
    writer.write_all(piece)?;
    flush_again(writer)
}

impl<W: Write> Sink for WriteSink<W> {
    ghost use Rattle.std.specs.Prelude.{◌≡◌, OnErr};
    ghost use Rattle.py_flat.specs.Causes.{counted};
    ghost use Rattle.py_raw.specs.Sink.{SinkKeeps, SinkOutcome, NoSinkFault};
    ghost use Rattle.py_raw.specs.WriteSink.{writer_of, shown_write_sink};

    ghost shows = { shown_write_sink };

    /// Writes all of a piece and flushes; what was interrupted of either is made again, and any other error is a fault. The
    /// count of faults stops at 18446744073709551615. Where the writer's bytes are known, they grew by the piece.
    fn write(&mut self, piece: &[u8]) -> Result<(), Failed>
        ensures keeps { SinkKeeps (shown_write_sink self.old) (shown_write_sink self.new) }
        ensures outcome { SinkOutcome (shown_write_sink self.old) piece.now result (shown_write_sink self.new) }
        ensures exact { OnOk result (NoSinkFault (shown_write_sink self.old) (shown_write_sink self.new)) }
        ensures bytes { OnOk result (Appends (W.contents (writer_of self.old)) (W.contents (writer_of self.new)) piece.now) }
        ensures quiet { OnOk result ((shown_write_sink self.new).faults ≡ (shown_write_sink self.old).faults) }
        ensures one_fault { OnErr result ((shown_write_sink self.new).faults ≡ counted (shown_write_sink self.old).faults 1) }
    {
        match write_through(&mut self.writer, piece) {
            Ok(()) => Ok(()),
            Err(_) => {
                self.failed = self.failed.saturating_add(1);
                Err(Failed)
            }
        }
    }
}
