ghost use Rattle.std.specs.Prelude.{OnOk};
ghost use Rattle.py_raw.specs.Sink.{SinkView, SinkKeeps, SinkOutcome, NoSinkFault};

use crate::Failed;

/// Where a program prints its replies.
pub trait Sink {
    /// What the sink shows: its count of faults, whether that is exact, and, where it tells them, the bytes that were written.
    ghost shows: { Self → SinkView };

    /// Writes all of a piece after what was written. A failed write leaves a front of it written. A sink that counts exactly
    /// counts no fault in a write that succeeds.
    fn write(&mut self, piece: &[u8]) -> Result<(), Failed>
        ensures keeps { SinkKeeps (shows self.old) (shows self.new) }
        ensures outcome { SinkOutcome (shows self.old) piece.now result (shows self.new) }
        ensures exact { OnOk result (NoSinkFault (shows self.old) (shows self.new)) };
}
