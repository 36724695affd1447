ghost use Rattle.std.specs.Prelude.{◌≡◌, IfOk};
ghost use Rattle.py_plain.specs.Utf16.{code_unit};
ghost use Rattle.py_blocks.specs.Texts.{text_of};
ghost use Rattle.py_blocks.specs.Runs.{IsRun, utf16};

use crate::utf16_blocks::{WIDE, push_blocks};
use std::alloc::AllocError;

/// A unit of UTF-16 of its two bytes; `big` says that the greater comes first.
fn code_unit(big: bool, first: u8, second: u8) -> u16
    ensures { result ≡ code_unit big first second }
{
    if big {
        u16::from_be_bytes([first, second])
    } else {
        u16::from_le_bytes([first, second])
    }
}

/// Appends the characters of one unit each that some bytes of UTF-16 begin with, of a block of them at most, and answers
/// how many bytes they are.
fn push_units(big: bool, bytes: &[u8], text: &mut String) -> Result<usize, AllocError>
    ensures { IfOk result (IsRun (utf16 big) bytes.now (text_of text.old) (text_of text.new)) }
{
    let mut place = 0;
    while place + 2 <= bytes.len() && place < WIDE {
        let Some(character) = char::from_u32(u32::from(code_unit(
            big,
            bytes[place],
            bytes[place + 1],
        ))) else {
            return Ok(place);
        };
        text.push(character)?;
        place += 2;
    }
    Ok(place)
}

/// Appends the characters of one unit each that some bytes of UTF-16 begin with, and answers how many bytes they are:
/// blocks of ASCII at once, and some units one at a time where a block isn't all ASCII.
pub(crate) fn push_utf16_run(
    big: bool,
    bytes: &[u8],
    text: &mut String,
) -> Result<usize, AllocError>
    ensures { IfOk result (IsRun (utf16 big) bytes.now (text_of text.old) (text_of text.new)) }
{
    let mut place = 0;
    loop {
        let blocks = push_blocks(big, &bytes[place..], text)?;
        let few = push_units(big, &bytes[place + blocks..], text)?;
        place += blocks + few;
        if few < WIDE {
            return Ok(place);
        }
    }
}
