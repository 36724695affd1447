//! What came, as words.
use crate::words::hex_of;
use anyhow::{Result, anyhow};
use py_memio::IoFault;
use std::alloc::Global;

/// A refusal.
pub(crate) fn refused(alloc: Global, fault: IoFault) -> Result<String> {
    let word = match fault {
        IoFault::Closed => "refused closed",
        IoFault::BufferError => "refused lent",
        IoFault::NegativeSeek => "refused negative",
        IoFault::BadArgument => "refused argument",
        fault => return Err(anyhow!("{fault}")),
    };
    Ok(String::from_str(alloc, word)?)
}

/// A count, a place or a number.
pub(crate) fn number(alloc: Global, came: Result<u64, IoFault>) -> Result<String> {
    match came {
        Ok(number) => Ok(format!(in alloc; "{number}")?),
        Err(fault) => refused(alloc, fault),
    }
}

/// How many bytes or characters were taken.
pub(crate) fn count(alloc: Global, came: Result<usize, IoFault>) -> Result<String> {
    number(alloc, came.map(|count| count as u64))
}

/// What is only done.
pub(crate) fn done(alloc: Global, came: Result<(), IoFault>) -> Result<String> {
    match came {
        Ok(()) => Ok(String::from_str(alloc, "done")?),
        Err(fault) => refused(alloc, fault),
    }
}

/// A text.
pub(crate) fn text(alloc: Global, came: Result<String, IoFault>) -> Result<String> {
    match came {
        Ok(text) => hex_of(alloc, text.as_bytes()),
        Err(fault) => refused(alloc, fault),
    }
}

/// A flag.
pub(crate) fn flag(alloc: Global, value: bool) -> Result<String> {
    Ok(format!(in alloc; "{value}")?)
}
