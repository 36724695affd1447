ghost use Rattle.std.specs.Prelude.{◌≤◌};
ghost use Rattle.py_flat.specs.Limits.{greatest_count};

mod calls;

use crate::Counts;
pub(crate) use calls::asks_to_wait;
use std::io::ErrorKind;

/// What a raw stream of the system stands on: a file, a reader or a writer, until it is closed, with what it can do and what was
/// counted. One rule for all of them: an answer that a transfer would block or was interrupted is a wait, every other error is a
/// fault, and so is an answer that can't be true; each is counted once, and nothing else is.
#[derive(Debug, Drop)]
pub(crate) struct Handle<T> {
    /// What it stands on, until it is closed.
    pub(crate) inner: Option<T>,
    readable: bool,
    writable: bool,
    seekable: bool,
    counts: Counts,
    /// What the system said of the last fault.
    last_error: Option<ErrorKind>,
    ghost transfers_fit: { counts.transfers ≤ greatest_count },
}
