//! What opening a stream over a raw one begins with.
ghost use Rattle.std.specs.Prelude.{◌≡◌, false};
ghost use Rattle.py_raw.specs.RawStream.{Keeps, StaysOpen};
ghost use Rattle.py_stream.specs.LiveRaw.{fault_of};
ghost use Rattle.py_stream.specs.Opening.{first_refusal, PlaceOutcome};

use crate::NewRefused;
use py_raw::{IoFault, RawError, RawStream};

/// Why a raw stream is refused before it is asked for anything: `Closed` where it is closed, then `Unsupported` where it isn't
/// `able` to do what is needed, then `BadArgument` for a buffer of 0 bytes; a stream without a buffer gives no size. `None`
/// where nothing refuses it.
pub fn refused_at_first<R: RawStream>(
    raw: &R,
    able: bool,
    buffer_size: Option<usize>,
) -> Option<IoFault>
    ensures { result ≡ first_refusal able (R.shows raw.now) buffer_size }
{
    if raw.closed() {
        Some(IoFault::Closed)
    } else if !able {
        Some(IoFault::Unsupported)
    } else if buffer_size == Some(0) {
        Some(IoFault::BadArgument)
    } else {
        None
    }
}

/// Where a stream begins on a raw one, in bytes from the start: where that stands; or, of a stream that `appends`, at the end, to
/// which it is moved. One that can't seek isn't asked: it stands at 0. After an error the bytes are unchanged.
pub fn first_place<R: RawStream>(raw: &mut R, appends: bool) -> Result<u64, RawError>
    requires open { (R.shows raw.old).closed ≡ false }
    ensures keeps { Keeps (R.shows raw.old) (R.shows raw.new) }
    ensures open { StaysOpen (R.shows raw.old) (R.shows raw.new) }
    ensures outcome { PlaceOutcome appends (R.shows raw.old) result (R.shows raw.new) }
{
    if !raw.seekable() {
        Ok(0)
    } else if appends {
        let end = raw.end()?;
        raw.seek(end)?;
        Ok(end)
    } else {
        raw.tell()
    }
}

/// The refusal of a raw stream that failed, or ran out of memory, when it was asked where a stream begins: it is handed back.
pub fn refused_raw<R: RawStream>(raw: R, error: RawError) -> NewRefused<R>
    ensures { result ≡ record { raw = raw; fault = fault_of error } }
{
    let fault = match error {
        RawError::Fault => IoFault::RawFault,
        RawError::Memory => IoFault::NoMemory,
    };
    NewRefused { raw, fault }
}
