//! What a fault says.
ghost use Rattle.std.specs.Prelude.{◌≡◌};
ghost use Rattle.py_flat.specs.Calls.{Refused};
ghost use Rattle.py_stream.specs.Kinds.{says_wait, says_fault, says_no_memory};

use py_flat::IoFault;

/// Whether the raw would have blocked.
pub fn is_wait(fault: IoFault) -> bool
    ensures { result ≡ says_wait (Refused fault) }
{
    matches!(fault, IoFault::WouldBlock { .. })
}

/// Whether the raw failed.
pub fn is_raw_fault(fault: IoFault) -> bool
    ensures { result ≡ says_fault (Refused fault) }
{
    matches!(fault, IoFault::RawFault)
}

/// Whether memory ran out.
pub(crate) fn is_no_memory(fault: IoFault) -> bool
    ensures { result ≡ says_no_memory (Refused fault) }
{
    matches!(fault, IoFault::NoMemory)
}
