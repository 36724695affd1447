use crate::codec::Refusal;
use hex::FromHexError;
use py_codec::{Encoding, Handler};
use std::alloc::{AllocError, Global};

/// Why a line gives no row.
#[derive(Clone, Copy)]
pub(crate) enum Unread {
    Malformed,
    NoMemory,
}

impl From<AllocError> for Unread {
    fn from(_error: AllocError) -> Unread {
        Unread::NoMemory
    }
}

/// An encoding by its name.
pub(crate) fn encoding(word: &str) -> Result<Encoding, Unread> {
    match word {
        "utf-8" => Ok(Encoding::Utf8),
        "latin-1" => Ok(Encoding::Latin1),
        "ascii" => Ok(Encoding::Ascii),
        "utf-16-le" => Ok(Encoding::Utf16Le),
        "utf-16-be" => Ok(Encoding::Utf16Be),
        _ => Err(Unread::Malformed),
    }
}

/// A built-in handler by its name.
pub(crate) fn handler(word: &str) -> Result<Handler, Unread> {
    match word {
        "strict" => Ok(Handler::Strict),
        "ignore" => Ok(Handler::Ignore),
        "replace" => Ok(Handler::Replace),
        "xmlcharrefreplace" => Ok(Handler::XmlCharRefReplace),
        "backslashreplace" => Ok(Handler::BackslashReplace),
        "surrogatepass" => Ok(Handler::SurrogatePass),
        "surrogateescape" => Ok(Handler::SurrogateEscape),
        _ => Err(Unread::Malformed),
    }
}

/// A number in decimal digits.
pub(crate) fn number(word: &str) -> Result<u64, Unread> {
    match word.parse() {
        Ok(number) => Ok(number),
        Err(_) => Err(Unread::Malformed),
    }
}

/// A refused range or run: its start and the place after it.
pub(crate) fn refusal(start: &str, end: &str) -> Result<Refusal, Unread> {
    Ok(Refusal {
        start: number(start)?,
        end: number(end)?,
    })
}

/// Bytes in hex, two digits to a byte, or `-` for none.
pub(crate) fn bytes(alloc: Global, word: &str) -> Result<Vec<u8>, Unread> {
    if word == "-" {
        return Ok(Vec::new(alloc));
    }
    match hex::decode(alloc, word.as_bytes()) {
        Ok(bytes) => Ok(bytes),
        Err(FromHexError::OutOfMemory) => Err(Unread::NoMemory),
        Err(_) => Err(Unread::Malformed),
    }
}
