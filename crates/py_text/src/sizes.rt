//! How many bytes texts and characters come to where nothing is refused.
ghost use Rattle.std.specs.Prelude.{◌≡◌, ◌*◌, ◌≤◌, ◌⊎◌, decimal, length, chars};
ghost use Rattle.py_plain.specs.Escapes.{backslash_escape};
ghost use Rattle.py_text.specs.EachWritten.{substitute, character_bytes, each_encoded, each_written};

use crate::Coder;
use crate::line_ends::{cut_at_lf, line_end};
use crate::own_bytes::stays;
use py_blocks::first_character;
use py_plain::{Encoding, Handler, Newlines, has_bytes};

/// How many decimal digits a number has.
fn decimal_digits(value: u32) -> u32
    ensures digits { result ≡ length (decimal value) }
    ensures few { result ≤ 10 }
{
    if value < 10 {
        return 1;
    }
    decimal_digits(value / 10) + 1
}

/// How many characters the backslash escape of a number has.
fn backslash_length(value: u32) -> u32
    ensures characters { result ≡ length (backslash_escape value) }
    ensures few { result ≤ 10 }
{
    if value < 0x100 {
        4
    } else if value < 0x10000 {
        6
    } else {
        10
    }
}

/// How many characters a handler gives for a character without bytes.
fn substitute_length(errors: Handler, character: char) -> u32
    ensures characters { result ≡ length (substitute errors character) }
    ensures few { result ≤ 13 }
{
    match errors {
        Handler::Replace => 1,
        Handler::XmlCharRefReplace => decimal_digits(u32::from(character)) + 3,
        Handler::BackslashReplace => backslash_length(u32::from(character)),
        Handler::Ignore | Handler::Strict | Handler::SurrogatePass | Handler::SurrogateEscape => 0,
    }
}

/// How many bytes a character comes to.
fn character_length(coder: Coder, character: char) -> u32
    ensures bytes { result ≡ length (character_bytes coder.errors coder.encoding character) }
    ensures few { result ≤ 13 }
{
    match coder.encoding {
        Encoding::Utf8 => character.len_utf8() as u32,
        Encoding::Utf16Le | Encoding::Utf16Be => {
            if u32::from(character) < 0x10000 { 2 } else { 4 }
        }
        Encoding::Latin1 | Encoding::Ascii => {
            if has_bytes(coder.encoding, character) {
                1
            } else {
                substitute_length(coder.errors, character)
            }
        }
    }
}

/// How many bytes the characters of a text come to, one at a time.
fn length_of_each(coder: Coder, text: &str) -> u128
    ensures bytes { result ≡ length (each_encoded coder (chars text.now)) }
    ensures few { result ≤ 13 * length (chars text.now) }
{
    let mut left = text;
    let mut size: u128 = 0;
    while let Some((character, behind)) = first_character(left) {
        size += u128::from(character_length(coder, character));
        left = behind;
    }
    size
}

/// How many bytes a text comes to as it stands.
fn length_as_is(coder: Coder, text: &str) -> u128
    ensures bytes { result ≡ length (each_encoded coder (chars text.now)) }
    ensures few { result ≤ 13 * length (chars text.now) }
{
    if stays(coder, text) {
        return text.len() as u128;
    }
    length_of_each(coder, text)
}

/// How many bytes a text comes to, cut at its LFs.
fn length_of_lines(coder: Coder, newline: Newlines, text: &str) -> u128
    ensures { result ≡ length (each_written coder newline (chars text.now)) }
{
    let end = length_as_is(coder, line_end(newline));
    let mut left = text;
    let mut size: u128 = 0;
    while !left.is_empty() {
        let cut = cut_at_lf(left);
        size += length_as_is(coder, cut.run);
        if !cut.ended {
            return size;
        }
        size += end;
        left = cut.left;
    }
    size
}

/// How many bytes a text comes to by the writing rule. Only the rule of CR LF makes it longer.
fn written_length(coder: Coder, newline: Newlines, text: &str) -> u128
    ensures { result ≡ length (each_written coder newline (chars text.now)) }
{
    match newline {
        Newlines::Crlf => length_of_lines(coder, newline, text),
        Newlines::Universal | Newlines::Passthrough | Newlines::Lf | Newlines::Cr => {
            length_as_is(coder, text)
        }
    }
}

/// Up to how many bytes of UTF-8 a text is short, so that space for twice as many costs little.
pub(crate) const SHORT: usize = 4096;

/// How many bytes a text comes to by the writing rule, where these are more than the room for them; else at most how many. An LF becomes
/// two characters at most: of a short text that stays in its bytes none is looked for, where there is room for twice as many.
pub(crate) fn length_within(coder: Coder, newline: Newlines, text: &str, room: u128) -> u128
    ensures most { length (each_written coder newline (chars text.now)) ≤ result }
    ensures bytes { (result ≤ room) ⊎ (result ≡ length (each_written coder newline (chars text.now))) }
    ensures few { result ≤ 2 * length (each_written coder newline (chars text.now)) }
{
    let twice = text.len() as u128 * 2;
    if text.len() <= SHORT && twice <= room && stays(coder, text) {
        return twice;
    }
    written_length(coder, newline, text)
}
