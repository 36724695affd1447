//! Why a path wasn't opened.
ghost use Rattle.std.specs.Prelude.{◌≡◌};
ghost use Rattle.std.specs.IoError.{error_kind};
ghost use Rattle.py_flat.specs.Conversions.{kind_of};
ghost use Rattle.py_open.specs.Failed.{fault_in};

use py_flat::IoFault;
use py_raw::OpenError;
use std::io;
use thiserror::Error;

/// Why a path wasn't opened; `io_open` says when. It is shown as its cause. In a function that answers an `IoFault` or an
/// `io::Error`, `?` lets the raw go and answers the fault, and `RawFault` where the opener failed.
#[derive(Debug, Drop, Error)]
pub enum OpenFailed<R> {
    /// The opening was refused: by the plan or for want of memory with nothing opened, or over the raw that was opened.
    #[error("{fault}")]
    Refused {
        /// Why it was refused.
        fault: IoFault,
        /// The raw stream that was opened, with nothing read from it or written to it; `None` exactly where none was.
        raw: Option<R>,
    },
    /// The opener failed, and opened nothing.
    #[error("the opener failed")]
    Opener,
}

impl<R: Drop> From<OpenFailed<R>> for IoFault {
    ghost from_gives = { λ failed made. made ≡ fault_in failed };

    fn from(failed: OpenFailed<R>) -> IoFault {
        match failed {
            OpenFailed::Refused { fault, raw: _ } => fault,
            OpenFailed::Opener => IoFault::from(OpenError::Fault),
        }
    }
}

impl<R: Drop> From<OpenFailed<R>> for io::Error {
    ghost from_gives = { λ failed made. error_kind made ≡ kind_of (fault_in failed) };

    fn from(failed: OpenFailed<R>) -> io::Error {
        io::Error::from(IoFault::from(failed))
    }
}
