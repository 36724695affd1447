//! What a text and the stream under it come to, as words.
use crate::apart::Apart;
use std::alloc::{AllocError, Global};

fn push_bytes(alloc: Global, out: &mut String, bytes: &[u8]) -> Result<(), AllocError> {
    if bytes.is_empty() {
        return out.push('-');
    }
    out.push_str(hex::encode(alloc, bytes)?.as_str())
}

/// Appends bytes that are owed, and where they begin.
fn push_owed(
    alloc: Global,
    out: &mut String,
    bytes: &[u8],
    at: Option<u64>,
) -> Result<(), AllocError> {
    push_bytes(alloc, out, bytes)?;
    match at {
        Some(at) if !bytes.is_empty() => out.push_str(format!(in alloc; " at {at}")?.as_str()),
        _ => Ok(()),
    }
}

/// Appends the bytes of the raw, what the buffer owes, and what the text owes; of a stream that has nothing left to show nothing.
pub fn push_apart(alloc: Global, out: &mut String, apart: &Apart) -> Result<(), AllocError> {
    let Some(raw) = &apart.held.raw else {
        return Ok(());
    };
    out.push_str(", raw ")?;
    push_bytes(alloc, out, raw)?;
    if apart.held.is_closed {
        out.push_str(" closed")?;
    }
    out.push_str(", buffer ")?;
    push_owed(alloc, out, &apart.held.owed, apart.held.owed_at)?;
    out.push_str(", text ")?;
    push_owed(alloc, out, &apart.unwritten, apart.at)
}
