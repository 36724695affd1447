//! What a stream answers, as std's traits do.
ghost use Rattle.std.specs.Prelude.{◌≡◌, ◌≢◌, Err};
ghost use Rattle.std.specs.IoError.{error_kind};
ghost use Rattle.std.specs.declared.io.ErrorKind.TheVariants as kind;
ghost use Rattle.py_flat.specs.Conversions.{kind_of};
ghost use Rattle.py_adapters.specs.Answers.{Says, SaysWritten, SaysMoved, IsntInterrupted};

use py_flat::IoFault;
use std::io;

/// The error of a refusal.
#[inline(never)]
pub(crate) fn io_refused(fault: IoFault) -> io::Error
    ensures says { error_kind result ≡ kind_of fault }
    ensures retried { error_kind result ≢ kind.Interrupted }
{
    io::Error::from(fault)
}

/// The error of a call before which the raw would have blocked.
pub(crate) fn io_would_block() -> io::Error
    ensures { error_kind result ≡ kind.WouldBlock }
{
    io::Error::from(io::ErrorKind::WouldBlock)
}

/// The error of a reading that filled less than was asked for, since nothing is left.
pub(crate) fn io_ended() -> io::Error
    ensures { error_kind result ≡ kind.UnexpectedEof }
{
    io::Error::new(io::ErrorKind::UnexpectedEof, "failed to fill whole buffer")
}

/// An answer of a stream, or the error of its refusal.
pub(crate) fn io_result<A>(came: Result<A, IoFault>) -> io::Result<A>
    ensures says { Says came result }
    ensures retried { IsntInterrupted result }
{
    match came {
        Ok(value) => Ok(value),
        Err(fault) => Err(io_refused(fault)),
    }
}

/// How many bytes a write took that was refused once it took some, or the error of its refusal.
pub(crate) fn io_refused_write(fault: IoFault, taken: u64) -> io::Result<usize>
    ensures says { SaysWritten (Err fault) taken result }
    ensures retried { IsntInterrupted result }
{
    if taken == 0 {
        return Err(io_refused(fault));
    }
    Ok(taken as usize)
}

/// An answer of a seek, without the place.
pub(crate) fn io_moved(came: Result<u64, IoFault>) -> io::Result<()>
    ensures says { SaysMoved came result }
    ensures retried { IsntInterrupted result }
{
    match came {
        Ok(_) => Ok(()),
        Err(fault) => Err(io_refused(fault)),
    }
}

/// An answer of a seek to before the start, made for one past every place: of such a place the refusal says that it is too far.
pub(crate) fn io_past_all(came: Result<u64, IoFault>) -> io::Result<u64>
    ensures says { Says came result }
    ensures retried { IsntInterrupted result }
{
    match came {
        Err(IoFault::NegativeSeek) => Err(io_refused(IoFault::TooFar)),
        came => io_result(came),
    }
}
