//! The refusal of an opening, which hands the raw stream back.
ghost use Rattle.std.specs.Prelude.{◌≡◌};
ghost use Rattle.std.specs.IoError.{error_kind};
ghost use Rattle.py_flat.specs.Conversions.{kind_of};

use py_flat::IoFault;
use std::io;
use thiserror::Error;

/// Why a session wasn't opened over a raw stream, and the raw that is handed back. `run_session` says which refusals there
/// are. It is shown as its fault. In a function that answers an `IoFault` or an `io::Error`, `?` lets the raw go and answers
/// the fault.
#[derive(Debug, Drop, Error)]
#[error("{fault}")]
pub struct OpenRefused<R> {
    /// The raw stream, with nothing read from it or written to it, and open or closed as it came.
    pub raw: R,
    /// Why it was refused.
    pub fault: IoFault,
}

impl<R: Drop> From<OpenRefused<R>> for IoFault {
    ghost from_gives = { λ refused made. made ≡ refused.fault };

    fn from(refused: OpenRefused<R>) -> IoFault {
        refused.fault
    }
}

impl<R: Drop> From<OpenRefused<R>> for io::Error {
    ghost from_gives = { λ refused made. error_kind made ≡ kind_of refused.fault };

    fn from(refused: OpenRefused<R>) -> io::Error {
        io::Error::from(refused.fault)
    }
}
