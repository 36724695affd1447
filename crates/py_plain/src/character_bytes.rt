ghost use Rattle.std.specs.Prelude.{◌≡◌, ◌++◌, ◌≤◌, nat_lt, [], ◌∷◌, Some, None, if◌then◌else◌, is_some, IfOk, OnOk};
ghost use Rattle.std.specs.Char.{encode_utf8};
ghost use Rattle.py_plain.specs.Encode.{unit_bytes, utf16_bytes, own_bytes};
ghost use Rattle.py_plain.specs.Writing.{Writes};

use crate::Encoding;
use std::alloc::AllocError;

/// Appends a code unit's two bytes; `big` says that the greater comes first. The `Err`, here as below, means out of memory.
fn push_unit(out: &mut Vec<u8>, big: bool, unit: u16) -> Result<(), AllocError>
    ensures { OnOk result (out.new.items ≡ out.old.items ++ unit_bytes big unit) }
{
    let greater = (unit / 256) as u8;
    let lesser = (unit % 256) as u8;
    let (first, second) = if big {
        (greater, lesser)
    } else {
        (lesser, greater)
    };
    out.push(first)?;
    out.push(second)?;
    Ok(())
}

/// Appends the bytes of a character in UTF-16: one code unit, or a pair of them.
fn push_utf16(out: &mut Vec<u8>, big: bool, character: char) -> Result<(), AllocError>
    ensures { OnOk result (out.new.items ≡ out.old.items ++ utf16_bytes big character) }
{
    let number = u32::from(character);
    if number < 0x10000 {
        return push_unit(out, big, number as u16);
    }
    let beyond = number - 0x10000;
    push_unit(out, big, (0xD800 + beyond / 0x400) as u16)?;
    push_unit(out, big, (0xDC00 + beyond % 0x400) as u16)
}

fn push_utf8(out: &mut Vec<u8>, character: char) -> Result<(), AllocError>
    ensures { OnOk result (out.new.items ≡ out.old.items ++ encode_utf8 character) }
{
    let mut buffer = [0u8; 4];
    out.extend_from_slice(character.encode_utf8(&mut buffer).as_bytes())
}

/// Whether an encoding has bytes for a character.
pub fn has_bytes(encoding: Encoding, character: char) -> bool
    ensures { result ≡ is_some (own_bytes encoding character) }
{
    match encoding {
        Encoding::Utf8 | Encoding::Utf16Le | Encoding::Utf16Be => true,
        Encoding::Latin1 => u32::from(character) < 0x100,
        Encoding::Ascii => u32::from(character) < 0x80,
    }
}

/// Appends a character that is a byte by itself, where its number is below `limit`.
fn push_byte(out: &mut Vec<u8>, limit: u32, character: char) -> Result<bool, AllocError>
    requires { limit ≤ 0x100 }
    ensures { IfOk result (Writes (if nat_lt character limit then Some (character ∷ []) else None)
        out.old.items out.new.items) }
{
    let number = u32::from(character);
    if number >= limit {
        return Ok(false);
    }
    out.push(number as u8)?;
    Ok(true)
}

/// Appends the bytes of a character, and answers whether the encoding has any for it. The `Err` means out of memory.
pub fn push_character(
    out: &mut Vec<u8>,
    encoding: Encoding,
    character: char,
) -> Result<bool, AllocError>
    ensures { IfOk result (Writes (own_bytes encoding character) out.old.items out.new.items) }
{
    match encoding {
        Encoding::Utf8 => push_utf8(out, character)?,
        Encoding::Latin1 => return push_byte(out, 0x100, character),
        Encoding::Ascii => return push_byte(out, 0x80, character),
        Encoding::Utf16Le => push_utf16(out, false, character)?,
        Encoding::Utf16Be => push_utf16(out, true, character)?,
    }
    Ok(true)
}
