ghost use Rattle.std.specs.Prelude.{OnOk};
ghost use Rattle.py_raw.specs.RawMode.{IsRawMode};
ghost use Rattle.py_raw.specs.Opener.{OpenerView, OpenKeeps, OpenOutcome, DoneKeeps, DoneOutcome, NoOpenerFault};

use crate::RawStream;
use std::alloc::Global;
use thiserror::Error;

/// Why an opener gave no raw stream, or didn't take one back.
#[derive(Clone, Copy, Debug, PartialEq, Eq, Error)]
pub enum OpenError {
    /// The path couldn't be opened or put away; the opener's count of faults rose.
    #[error("the opener failed")]
    Fault,
    /// There was no memory left.
    #[error("out of memory")]
    Memory,
}

/// What opens raw streams by a path and a mode, and takes them back.
pub trait Opener {
    /// The raw streams that it opens.
    type Raw: RawStream + Send;

    /// What the opener shows: its own count of faults, whether that is exact, how many raws it opened and how many it took back,
    /// the counts of those that it took back and, where it tells it, what each path holds.
    ghost shows: { Self → OpenerView };

    /// Opens a path by one of the modes `rb`, `rb+`, `wb`, `wb+`, `xb`, `xb+`, `ab`, `ab+`: `r` an existing path as it
    /// is, `w` an empty one, `x` a new one, `a` an existing or a new one; `+` both to read and to write.
    ///
    /// The raw is open, its counts are 0, those of its transfers too where it tells them, and where it can't seek it stands at
    /// place 0. Refused, all paths hold what they held. An opener that tells answers `Fault` exactly where `x` finds the path
    /// or `r` misses it, and one that counts exactly counts no fault in an opening that succeeds. A raw that it opens is counted.
    fn open_raw(&mut self, alloc: Global, path: &str, mode: &str) -> Result<Self::Raw, OpenError>
        requires { IsRawMode mode.now }
        ensures keeps { OpenKeeps (shows self.old) (shows self.new) }
        ensures outcome { OpenOutcome Self.Raw.shows (shows self.old) path.now mode.now result (shows self.new) }
        ensures exact { OnOk result (NoOpenerFault (shows self.old) (shows self.new)) };

    /// Takes a raw back that was opened at that path. Whatever it answers, the opener's two counts of raws rise by that
    /// raw's counts, neither of them falls, one raw more was taken back, and of an opener that tells the path holds the raw's bytes. One that counts exactly counts no fault where
    /// it answers `Ok`.
    fn done(&mut self, path: &str, raw: Self::Raw) -> Result<(), OpenError>
        ensures keeps { DoneKeeps (Self.Raw.shows raw) (shows self.old) (shows self.new) }
        ensures outcome { DoneOutcome (Self.Raw.shows raw) (shows self.old) path.now result (shows self.new) }
        ensures exact { OnOk result (NoOpenerFault (shows self.old) (shows self.new)) };
}
