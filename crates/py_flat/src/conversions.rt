//! What `?` makes of an error, in a function that answers an `IoFault` or an error of std's `io`.
ghost use Rattle.std.specs.Prelude.{◌≡◌};
ghost use Rattle.std.specs.IoError.{error_kind};
ghost use Rattle.py_flat.specs.declared.fault.IoFault.TheVariants as fault;
ghost use Rattle.py_flat.specs.Conversions.{kind_of};

use crate::{IoFault, ModeError, ParseModeError};
use std::alloc::{AllocError, AllocFailed};
use std::fmt::InlineText;
use std::io;
use std::io::ErrorKind;

impl From<AllocError> for IoFault {
    ghost from_gives = { λ _ made. made ≡ fault.NoMemory };

    fn from(_error: AllocError) -> IoFault {
        IoFault::NoMemory
    }
}

impl<T: Drop> From<AllocFailed<T>> for IoFault {
    ghost from_gives = { λ _ made. made ≡ fault.NoMemory };

    fn from(_error: AllocFailed<T>) -> IoFault {
        IoFault::NoMemory
    }
}

impl From<ModeError> for IoFault {
    ghost from_gives = { λ error made. made ≡ fault.ModeText error };

    fn from(error: ModeError) -> IoFault {
        IoFault::ModeText(error)
    }
}

impl From<ParseModeError> for IoFault {
    ghost from_gives = { λ error made. made ≡ fault.ParseMode error };

    fn from(error: ParseModeError) -> IoFault {
        IoFault::ParseMode(error)
    }
}

/// The most bytes that a message of a fault has, and that an error of std's `io` keeps.
const MESSAGE_ROOM: usize = 80;

/// The kind of error that a fault is to std's `io`.
fn kind_of(fault: IoFault) -> ErrorKind
    ensures { result ≡ kind_of fault }
{
    match fault {
        IoFault::NoMemory => ErrorKind::OutOfMemory,
        IoFault::WouldBlock { taken: _ } => ErrorKind::WouldBlock,
        IoFault::Unsupported => ErrorKind::Unsupported,
        IoFault::EndOfFile => ErrorKind::UnexpectedEof,
        IoFault::UnicodeDecodeError { start: _, end: _ }
        | IoFault::UnicodeEncodeError { start: _, end: _ } => ErrorKind::InvalidData,
        IoFault::BadWhence
        | IoFault::NegativeSeek
        | IoFault::TooFar
        | IoFault::BadArgument
        | IoFault::InvalidCookie
        | IoFault::UnknownEncoding
        | IoFault::UnknownHandler
        | IoFault::ParseMode(_)
        | IoFault::ModeText(_)
        | IoFault::IndexError { dimension: _ } => ErrorKind::InvalidInput,
        _ => ErrorKind::Other,
    }
}

/// The error has the fault's message.
impl From<IoFault> for io::Error {
    ghost from_gives = { λ fault error. error_kind error ≡ kind_of fault };

    fn from(fault: IoFault) -> io::Error {
        let message = InlineText::<MESSAGE_ROOM>::of(fault);
        io::Error::new(kind_of(fault), message.as_str())
    }
}
