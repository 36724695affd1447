//! Answers as words.
use py_own_codecs::Marks;
use py_registry::{HandlerRef, HandlerRefusal, IoFault, PyCodec, SlotRefusal};
use std::alloc::{AllocError, Global};

/// A codec.
pub(crate) fn codec<S: Copy>(alloc: Global, codec: PyCodec<S>) -> Result<String, AllocError> {
    match codec {
        PyCodec::Builtin(encoding) => format!(in alloc; "builtin {}", encoding.name()),
        PyCodec::Slot(_, slot) => format!(in alloc; "slot {slot}"),
    }
}

/// A handler.
pub(crate) fn handler(alloc: Global, handler: HandlerRef<Marks>) -> Result<String, AllocError> {
    match handler {
        HandlerRef::Builtin(own) => format!(in alloc; "builtin {}", own.name()),
        HandlerRef::Custom(marks) => format!(in alloc; "custom {}", marks.mark),
    }
}

/// The texts of the refusals of handlers and of slots.
pub(crate) fn refusals(alloc: Global) -> Result<String, AllocError> {
    let slot = SlotRefusal::Refuse { start: 1, end: 2 };
    format!(in alloc;
        "{}; {}; {slot}; {}",
        HandlerRefusal::Refuse,
        HandlerRefusal::Memory,
        SlotRefusal::Memory
    )
}

/// A refusal.
pub(crate) fn fault(alloc: Global, fault: IoFault) -> Result<String, AllocError> {
    match fault {
        IoFault::UnknownEncoding => String::from_str(alloc, "err UnknownEncoding"),
        IoFault::UnknownHandler => String::from_str(alloc, "err UnknownHandler"),
        IoFault::NoMemory => String::from_str(alloc, "err NoMemory"),
        IoFault::UnicodeDecodeError { start, end } => {
            format!(in alloc; "err UnicodeDecodeError {start} {end}")
        }
        IoFault::UnicodeEncodeError { start, end } => {
            format!(in alloc; "err UnicodeEncodeError {start} {end}")
        }
        _ => String::from_str(alloc, "err another"),
    }
}
