ghost use Rattle.std.specs.Prelude.{◌≡◌, map, IfOk};
ghost use Rattle.py_script.specs.Words.{text_of, hex_bytes, hex_text, word_bytes, word_text, words_bytes};

use hex::{FromHexError, decode};
use py_flat::{Chars, Data, Lines};
use std::alloc::{AllocError, Global};

/// The bytes that are written in hex, two digits of either case to a byte, or `None` where they are no hex; `Err` when out of memory.
pub(crate) fn hex_bytes(alloc: Global, digits: &[u8]) -> Result<Option<Data>, AllocError>
    ensures { IfOk result (λ bytes. bytes ≡ hex_bytes digits.now) }
{
    match decode(alloc, digits) {
        Ok(bytes) => Ok(Some(Data::from_vec(bytes))),
        Err(FromHexError::OutOfMemory) => Err(AllocError),
        Err(_) => Ok(None),
    }
}

/// The bytes of a word, at least one in hex, or `-` for none; `None` where it is neither, and `Err` when out of memory.
pub(crate) fn word_bytes(alloc: Global, word: &[u8]) -> Result<Option<Data>, AllocError>
    ensures { IfOk result (λ bytes. bytes ≡ word_bytes word.now) }
{
    if word.is_empty() {
        Ok(None)
    } else if word == "-".as_bytes() {
        Ok(Some(Data::new(alloc)))
    } else {
        hex_bytes(alloc, word)
    }
}

/// The text whose UTF-8 is written in hex, in digits of either case, or `None` where it is none; `Err` when out of memory.
pub(crate) fn hex_text(alloc: Global, digits: &str) -> Result<Option<Chars>, AllocError>
    ensures { IfOk result (λ text. text ≡ hex_text digits.now) }
{
    match hex_bytes(alloc, digits.as_bytes())? {
        Some(bytes) => Ok(text_of(bytes.into_vec())),
        None => Ok(None),
    }
}

/// The text of some bytes, or `None` where they are no UTF-8.
pub(crate) fn text_of(bytes: Vec<u8>) -> Option<Chars>
    ensures { result ≡ text_of bytes.items }
{
    match String::from_utf8(bytes) {
        Ok(text) => Some(Chars::from_string(text)),
        Err(_) => None,
    }
}

/// The text of a word, whose UTF-8 is written in hex, or `-` for none; `None` where it is neither, and `Err` when out of memory.
pub(crate) fn word_text(alloc: Global, word: &[u8]) -> Result<Option<Chars>, AllocError>
    ensures { IfOk result (λ text. text ≡ word_text word.now) }
{
    match word_bytes(alloc, word)? {
        Some(bytes) => Ok(text_of(bytes.into_vec())),
        None => Ok(None),
    }
}

/// The bytes of words, those of each a line, or `None` where one is malformed; `Err` when out of memory.
pub(crate) fn words_bytes(alloc: Global, words: &[&[u8]]) -> Result<Option<Lines>, AllocError>
    ensures { IfOk result (λ lines. lines ≡ words_bytes (map (λ word. word.now) words.now)) }
{
    let mut lines = Lines::new(alloc);
    for word in words {
        match word_bytes(alloc, word)? {
            Some(line) => lines.push(line)?,
            None => return Ok(None),
        }
    }
    Ok(Some(lines))
}
