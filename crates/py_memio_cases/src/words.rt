//! The words of a call.
use anyhow::Result;
use std::alloc::Global;

/// A word and what stands after the next space.
pub(crate) fn split(line: &str) -> (&str, &str) {
    match line.split_once(' ') {
        Some((word, rest)) => (word, rest),
        None => (line, ""),
    }
}

/// Bytes by their hex digits; `-` is none.
pub(crate) fn bytes_of(alloc: Global, word: &str) -> Result<Vec<u8>> {
    if word == "-" {
        return Ok(Vec::new(alloc));
    }
    Ok(hex::decode(alloc, word.as_bytes())?)
}

/// The hex digits of bytes; `-` for none.
pub(crate) fn hex_of(alloc: Global, bytes: &[u8]) -> Result<String> {
    if bytes.is_empty() {
        return Ok(String::from_str(alloc, "-")?);
    }
    Ok(hex::encode(alloc, bytes)?)
}

/// A size; `all` is none.
pub(crate) fn size_of(word: &str) -> Result<Option<usize>> {
    if word == "all" {
        return Ok(None);
    }
    Ok(Some(word.parse::<usize>()?))
}

/// A size as a place.
pub(crate) fn place_of(word: &str) -> Result<Option<u64>> {
    if word == "all" {
        return Ok(None);
    }
    Ok(Some(word.parse::<u64>()?))
}
