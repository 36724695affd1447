ghost use Rattle.std.specs.Prelude.{◌≡◌, ◌<◌, ◌≤◌, ◌++◌, ◌∷◌, ℕ, List, [], take, length, chars, is_some, MatchOption, IfSome, IfOk, OnOk};
ghost use Rattle.std.specs.Str.{IsUtf8, IsAscii};
ghost use Rattle.py_plain.specs.declared.encoding.Encoding.TheVariants.{Utf8};
ghost use Rattle.py_plain.specs.Encode.{unit_bytes, utf16_bytes, own_bytes};
ghost use Rattle.py_blocks.specs.Runs.{utf16};
ghost use Rattle.py_blocks.specs.Writing.{IsOneByte, byte_bytes, Wrote, Stops};

use crate::ascii::near_ascii_front;
use crate::counting::push_text;
use crate::utf16_blocks;
use py_plain::Encoding;
use std::alloc::AllocError;

/// How many characters are written one at a time before the next test for ASCII.
const FEW: usize = 8;

/// The first character of a text, and the text after it.
pub fn first_character(text: &str) -> Option<(char, &str)>
    ensures parts { MatchOption result (chars text.now ≡ []) (λ t. chars text.now ≡ t.0 ∷ chars t.1.now) }
    ensures utf8 { IfSome result (λ t. IsUtf8 t.1.now) }
{
    let mut characters = text.chars();
    let first = characters.next()?;
    Some((first, characters.as_str()))
}

/// Appends a unit of UTF-16 as its two bytes; `big` says that the greater comes first.
fn push_unit(big: bool, unit: u16, bytes: &mut Vec<u8>) -> Result<(), AllocError>
    ensures { OnOk result (bytes.new.items ≡ bytes.old.items ++ unit_bytes big unit) }
{
    if big {
        bytes.extend_from_slice(&unit.to_be_bytes())
    } else {
        bytes.extend_from_slice(&unit.to_le_bytes())
    }
}

/// Appends a character in UTF-16.
fn push_utf16(big: bool, character: char, bytes: &mut Vec<u8>) -> Result<(), AllocError>
    ensures { OnOk result (bytes.new.items ≡ bytes.old.items ++ utf16_bytes big character) }
{
    let number = character as u32;
    if number < 0x10000 {
        return push_unit(big, number as u16, bytes);
    }
    let pair = number - 0x10000;
    push_unit(big, 0xD800 + (pair / 0x400) as u16, bytes)?;
    push_unit(big, 0xDC00 + (pair % 0x400) as u16, bytes)
}

/// Appends a few characters that a text begins with in UTF-16, up to n, and answers how many they are and the text
/// after them.
fn write_few_utf16<'a>(
    big: bool,
    limit: usize,
    text: &'a str,
    bytes: &mut Vec<u8>,
) -> Result<(usize, &'a str), AllocError>
    ensures wrote { IfOk result (λ t. Wrote (utf16 big) (chars text.now) bytes.old.items bytes.new.items t.0 (chars t.1.now)) }
    ensures stops { IfOk result (λ t. t.0 < limit → chars t.1.now ≡ []) }
    ensures utf8 { IfOk result (λ t. IsUtf8 t.1.now) }
{
    let mut left = text;
    let mut count = 0;
    while count < limit {
        let Some((character, behind)) = first_character(left) else {
            return Ok((count, left));
        };
        push_utf16(big, character, bytes)?;
        count += 1;
        left = behind;
    }
    Ok((count, left))
}

/// Appends a text in UTF-16, and answers how many characters it has: blocks of ASCII at once, and some characters one at
/// a time where a block isn't all ASCII.
fn write_utf16<'a>(
    big: bool,
    text: &'a str,
    bytes: &mut Vec<u8>,
) -> Result<(usize, &'a str), AllocError>
    ensures wrote { IfOk result (λ t. Wrote (utf16 big) (chars text.now) bytes.old.items bytes.new.items t.0 (chars t.1.now)) }
    ensures stops { IfOk result (λ t. chars t.1.now ≡ []) }
    ensures utf8 { IfOk result (λ t. IsUtf8 t.1.now) }
{
    let mut left = text;
    let mut count = 0;
    loop {
        let (ascii, behind) = utf16_blocks::write_blocks(big, left, bytes)?;
        let (few, rest) = write_few_utf16(big, utf16_blocks::BLOCK, behind, bytes)?;
        count += ascii + few;
        left = rest;
        if few < utf16_blocks::BLOCK {
            return Ok((count, left));
        }
    }
}

/// Appends a text in UTF-8.
fn write_utf8<'a>(text: &'a str, bytes: &mut Vec<u8>) -> Result<(usize, &'a str), AllocError>
    ensures wrote { IfOk result (λ t. Wrote Utf8 (chars text.now) bytes.old.items bytes.new.items t.0 (chars t.1.now)) }
    ensures stops { IfOk result (λ t. chars t.1.now ≡ []) }
    ensures utf8 { IfOk result (λ t. IsUtf8 t.1.now) }
{
    Ok((push_text(text, bytes)?, &text[text.len()..]))
}

/// The byte of a character in an encoding that has one for each of its characters.
fn byte_of(encoding: Encoding, character: char) -> Option<u8>
    requires { IsOneByte encoding }
    ensures { byte_bytes result ≡ own_bytes encoding character }
{
    let within = match encoding {
        Encoding::Ascii => character.is_ascii(),
        _ => character < '\u{100}',
    };
    if within { Some(character as u8) } else { None }
}

/// Appends the bytes of at most n characters of a text, up to the first that has none, in an encoding that has one
/// for each of its characters.
fn write_bytes<'a>(
    encoding: Encoding,
    limit: usize,
    text: &'a str,
    bytes: &mut Vec<u8>,
) -> Result<(usize, &'a str), AllocError>
    requires { IsOneByte encoding }
    ensures wrote { IfOk result (λ t. Wrote encoding (chars text.now) bytes.old.items bytes.new.items t.0 (chars t.1.now)) }
    ensures stops { IfOk result (λ t. t.0 < limit → Stops encoding (chars t.1.now)) }
    ensures within { IfOk result (λ t. t.0 ≤ limit) }
    ensures utf8 { IfOk result (λ t. IsUtf8 t.1.now) }
{
    let mut left = text;
    let mut count = 0;
    while count < limit {
        let Some((character, behind)) = first_character(left) else {
            return Ok((count, left));
        };
        let Some(byte) = byte_of(encoding, character) else {
            return Ok((count, left));
        };
        bytes.push(byte)?;
        count += 1;
        left = behind;
    }
    Ok((count, left))
}

/// Characters of ASCII that a text begins with, and the text after them.
pub fn split_ascii(encoding: Encoding, text: &str) -> (&str, &str)
    requires { IsOneByte encoding }
    ensures wrote { (before : List ℕ) → Wrote encoding (chars text.now) before (before ++ result.0.now) (length result.0.now) (chars result.1.now) }
    ensures utf8 { IsUtf8 result.1.now }
{
    text.split_at(near_ascii_front(text.as_bytes()))
}

/// Appends characters of ASCII that a text begins with.
fn write_ascii<'a>(
    encoding: Encoding,
    text: &'a str,
    bytes: &mut Vec<u8>,
) -> Result<(usize, &'a str), AllocError>
    requires { IsOneByte encoding }
    ensures { IfOk result (λ t. Wrote encoding (chars text.now) bytes.old.items bytes.new.items t.0 (chars t.1.now)) }
{
    let (front, left) = split_ascii(encoding, text);
    bytes.extend_from_slice(front.as_bytes())?;
    Ok((front.len(), left))
}

/// Appends the bytes of the characters of a text up to the first that has none, in an encoding that has one for each of
/// its characters.
fn write_one_byte<'a>(
    encoding: Encoding,
    text: &'a str,
    bytes: &mut Vec<u8>,
) -> Result<(usize, &'a str), AllocError>
    requires { IsOneByte encoding }
    ensures wrote { IfOk result (λ t. Wrote encoding (chars text.now) bytes.old.items bytes.new.items t.0 (chars t.1.now)) }
    ensures stops { IfOk result (λ t. Stops encoding (chars t.1.now)) }
    ensures utf8 { IfOk result (λ t. IsUtf8 t.1.now) }
{
    let mut left = text;
    let mut count = 0;
    loop {
        let (ascii, behind) = write_ascii(encoding, left, bytes)?;
        let (few, rest) = write_bytes(encoding, FEW, behind, bytes)?;
        count += ascii + few;
        left = rest;
        if few < FEW {
            return Ok((count, left));
        }
    }
}

/// Appends the bytes of the characters of a text up to the first that has none, and answers how many they are and the
/// text after them.
pub fn push_written<'a>(
    encoding: Encoding,
    text: &'a str,
    bytes: &mut Vec<u8>,
) -> Result<(usize, &'a str), AllocError>
    ensures wrote { IfOk result (λ t. Wrote encoding (chars text.now) bytes.old.items bytes.new.items t.0 (chars t.1.now)) }
    ensures stops { IfOk result (λ t. Stops encoding (chars t.1.now)) }
    ensures utf8 { IfOk result (λ t. IsUtf8 t.1.now) }
{
    match encoding {
        Encoding::Utf8 => write_utf8(text, bytes),
        Encoding::Latin1 | Encoding::Ascii => write_one_byte(encoding, text, bytes),
        Encoding::Utf16Le => write_utf16(false, text, bytes),
        Encoding::Utf16Be => write_utf16(true, text, bytes),
    }
}
