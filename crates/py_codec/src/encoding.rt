ghost use Rattle.std.specs.Prelude.{◌≡◌, ◌<◌, ◌≤◌, chars, length, drop, MatchOption, IfSome};
ghost use Rattle.std.specs.Str.{IsUtf8};
ghost use Rattle.py_plain.specs.Encode.{run_length};
ghost use Rattle.py_codec.specs.Answers.{bytes_of, IsAnswer};
ghost use Rattle.py_codec.specs.Encoding.{encoding_by};
ghost use Rattle.py_codec.specs.Refusing.{RefusedFirst};

use crate::refusing::first_refusal;
use crate::substituting::push_substitute;
use crate::{ErrorHandler, HandlerRef};
use py_blocks::{first_character, push_written};
use py_flat::IoFault;
use py_plain::{Encoding, has_bytes};
use std::alloc::Global;

/// How many characters without bytes a text begins with.
pub(crate) fn run_length(encoding: Encoding, text: &str) -> usize
    ensures { result ≡ run_length encoding (chars text.now) }
{
    let mut left = text;
    let mut length = 0;
    while let Some((character, behind)) = first_character(left) {
        if has_bytes(encoding, character) {
            return length;
        }
        length += 1;
        left = behind;
    }
    length
}

/// A text without its first characters; `None` where it has fewer.
pub(crate) fn without_front(text: &str, count: usize) -> Option<&str>
    ensures behind { MatchOption result (length (chars text.now) < count) (λ left. chars left.now ≡ drop count (chars text.now)) }
    ensures within { IfSome result (λ left. count ≤ length (chars text.now)) }
    ensures utf8 { IfSome result (λ left. IsUtf8 left.now) }
{
    let mut left = text;
    for _ in 0..count {
        let Some((_, behind)) = first_character(left) else {
            return None;
        };
        left = behind;
    }
    Some(left)
}

/// How many bytes there is to be room for at first: as many as a text of ASCII takes.
fn room(encoding: Encoding, text: &str) -> usize {
    match encoding {
        Encoding::Utf8 | Encoding::Latin1 | Encoding::Ascii => text.len(),
        Encoding::Utf16Le | Encoding::Utf16Be => text.len().saturating_mul(2),
    }
}

/// The bytes of a text and the number of its characters, for all encodings and handlers: characters that have bytes as
/// they come, and one run without bytes at a time between them.
fn encode_each<H: ErrorHandler>(
    alloc: Global,
    encoding: Encoding,
    text: &str,
    errors: HandlerRef<H>,
) -> Result<(Vec<u8>, usize), IoFault>
    ensures { IsAnswer bytes_of result (encoding_by H.encodes errors encoding (chars text.now)) }
{
    let Ok(mut bytes) = Vec::with_capacity(alloc, room(encoding, text)) else {
        return Err(IoFault::NoMemory);
    };
    let mut place = 0;
    let mut left = text;
    loop {
        let Ok((count, behind)) = push_written(encoding, left, &mut bytes) else {
            return Err(IoFault::NoMemory);
        };
        place += count;
        let length = run_length(encoding, behind);
        if length == 0 {
            return Ok((bytes, place));
        }
        let (used, rest) = push_substitute(
            alloc, encoding, errors, text, behind, place, length, &mut bytes,
        )?;
        place += used;
        left = rest;
    }
}

/// The bytes of a text in an encoding, and how many characters the text has.
///
/// It is the call by whichever name the encoding has, as `latin_1_encode`, and refuses as that does. By strict and the two
/// handlers of surrogates a text with a run is refused before any memory is taken.
pub fn encode<H: ErrorHandler>(
    alloc: Global,
    encoding: Encoding,
    text: &str,
    errors: HandlerRef<H>,
) -> Result<(Vec<u8>, usize), IoFault>
    ensures answer { IsAnswer bytes_of result (encoding_by H.encodes errors encoding (chars text.now)) }
    ensures first { RefusedFirst errors (encoding_by H.encodes errors encoding (chars text.now)) result }
{
    match first_refusal(encoding, text, errors) {
        Some(fault) => Err(fault),
        None => encode_each(alloc, encoding, text, errors),
    }
}
