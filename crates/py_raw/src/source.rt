ghost use Rattle.std.specs.Prelude.{OnOk};
ghost use Rattle.py_raw.specs.Source.{SourceView, SourceKeeps, SourceOutcome, NoSourceFault};

use thiserror::Error;

/// A source or a sink failed; its count of faults rose.
#[derive(Clone, Copy, Debug, PartialEq, Eq, Error)]
#[error("the source or sink failed")]
pub struct Failed;

/// Where a program reads its script from.
pub trait Source {
    /// What the source shows: its count of faults, whether that is exact, and, where it tells them, the bytes that are left.
    ghost shows: { Self → SourceView };

    /// Reads up to as many bytes as `buf` is long into its front, and answers how many: a front of what is left. 0 into
    /// a buffer that isn't empty comes exactly at the end. A failed read takes nothing. A source that counts exactly counts
    /// no fault in a read that succeeds.
    fn read(&mut self, buf: &mut [u8]) -> Result<usize, Failed>
        ensures keeps { SourceKeeps (shows self.old) (shows self.new) }
        ensures outcome { SourceOutcome (shows self.old) buf.old result buf.new (shows self.new) }
        ensures exact { OnOk result (NoSourceFault (shows self.old) (shows self.new)) };
}
