//! Line ends of texts that come in pieces.
use anyhow::Result;
use py_text::{IncrementalNewlineDecoder, Newlines};
use std::alloc::Global;

/// A CR that ends a piece waits for what follows.
pub(crate) fn pieces(alloc: Global) -> Result<String> {
    let mut decoder = IncrementalNewlineDecoder::new(Newlines::Universal);
    let first = decoder.decode(alloc, "a\r", false)?; // "a": an LF may follow
    let second = decoder.decode(alloc, "\nb\r", false)?; // "\nb"
    let last = decoder.decode(alloc, "", true)?; // "\n": nothing follows
    Ok(format!(in alloc;
        "pieces: {:?} {:?} {:?}",
        first.as_str(),
        second.as_str(),
        last.as_str()
    )?)
}

/// A place of a search, and whether a line ends there.
fn push_place(alloc: Global, out: &mut String, found: Result<usize, usize>) -> Result<()> {
    let shown = match found {
        Ok(place) => format!(in alloc; " {place}")?,
        Err(place) => format!(in alloc; " from {place}")?,
    };
    Ok(out.push_str(shown.as_str())?)
}

/// The places behind first line ends, by some rules.
pub(crate) fn found(alloc: Global) -> Result<String> {
    let mut out = String::from_str(alloc, "found:")?;
    push_place(alloc, &mut out, Newlines::Lf.find_newline("é\nb"))?; // Ok(3)
    push_place(
        alloc,
        &mut out,
        Newlines::Passthrough.find_newline("a\r\nb"),
    )?; // Ok(3)
    push_place(alloc, &mut out, Newlines::Crlf.find_newline("a\nb\r"))?; // Err(3): look on from the CR
    Ok(out)
}
