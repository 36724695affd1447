//! The refusal of a stream over a raw one, which hands the raw back.
ghost use Rattle.std.specs.Prelude.{◌≡◌};
ghost use Rattle.std.specs.IoError.{error_kind};
ghost use Rattle.py_flat.specs.Conversions.{kind_of};

use py_raw::IoFault;
use std::io;
use thiserror::Error;

/// Why a stream wasn't made over a raw stream, and the raw stream that is handed back. It is shown as its fault. In a function
/// that answers an `IoFault` or an `io::Error`, `?` lets the raw go and answers the fault.
#[derive(Debug, Drop, Error)]
#[error("{fault}")]
pub struct NewRefused<R> {
    /// The raw stream, with nothing read from it, and open or closed as it came.
    pub raw: R,
    /// Why the raw stream was refused.
    pub fault: IoFault,
}

impl<R: Drop> From<NewRefused<R>> for IoFault {
    ghost from_gives = { λ refused made. made ≡ refused.fault };

    fn from(refused: NewRefused<R>) -> IoFault {
        refused.fault
    }
}

impl<R: Drop> From<NewRefused<R>> for io::Error {
    ghost from_gives = { λ refused made. error_kind made ≡ kind_of refused.fault };

    fn from(refused: NewRefused<R>) -> io::Error {
        io::Error::from(refused.fault)
    }
}
