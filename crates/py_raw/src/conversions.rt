//! What `?` makes of the errors of raw streams and openers, in a function that answers an `IoFault` or an error of std's `io`.
ghost use Rattle.std.specs.Prelude.{◌≡◌};
ghost use Rattle.std.specs.IoError.{error_kind};
ghost use Rattle.py_flat.specs.Conversions.{kind_of};
ghost use Rattle.py_raw.specs.Conversions.{fault_of_raw, fault_of_opener};

use crate::{IoFault, OpenError, RawError};
use std::io;

impl From<RawError> for IoFault {
    ghost from_gives = { λ error made. made ≡ fault_of_raw error };

    fn from(error: RawError) -> IoFault {
        match error {
            RawError::Fault => IoFault::RawFault,
            RawError::Memory => IoFault::NoMemory,
        }
    }
}

/// A path that couldn't be opened or put away is a failure of the outside, as one of the raw stream is.
impl From<OpenError> for IoFault {
    ghost from_gives = { λ error made. made ≡ fault_of_opener error };

    fn from(error: OpenError) -> IoFault {
        match error {
            OpenError::Fault => IoFault::RawFault,
            OpenError::Memory => IoFault::NoMemory,
        }
    }
}

impl From<RawError> for io::Error {
    ghost from_gives = { λ error made. error_kind made ≡ kind_of (fault_of_raw error) };

    fn from(error: RawError) -> io::Error {
        io::Error::from(IoFault::from(error))
    }
}

impl From<OpenError> for io::Error {
    ghost from_gives = { λ error made. error_kind made ≡ kind_of (fault_of_opener error) };

    fn from(error: OpenError) -> io::Error {
        match error {
            OpenError::Fault => io::Error::other("the opener failed"),
            OpenError::Memory => io::Error::from(IoFault::NoMemory),
        }
    }
}
