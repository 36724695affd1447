//! The mode of a raw stream by itself, as Python's `io.FileIO` takes it.
ghost use Rattle.std.specs.Prelude.{◌≡◌, ◌||◌, [], ◌+◌};
ghost use Rattle.py_raw.specs.RawMode.{letter_x, letter_a};
ghost use Rattle.py_raw.specs.ComputeMode.{ComputesMode, first_offence, offence_behind, says_file, has_file_letter, has_letter, letters_read, letters_write, letters_bits, bit_if};

use crate::{ModeError, RawFlags};
use bitflags::Flags;

/// Whether a letter says what is done with the file.
fn says_file(letter: u8) -> bool
    ensures { result ≡ says_file letter }
{
    letter == b'x' || letter == b'r' || letter == b'w' || letter == b'a'
}

/// Whether a file letter stands among some letters.
fn has_file_letter(letters: &[u8]) -> bool
    ensures { result ≡ has_file_letter letters.now }
{
    letters.iter().any(|letter| says_file(*letter))
}

/// How a letter offends after others, if it does.
fn offence_behind(before: &[u8], letter: u8) -> Option<ModeError>
    ensures { result ≡ offence_behind before.now letter }
{
    if says_file(letter) {
        return has_file_letter(before).then_some(ModeError::BadRwa);
    }
    match letter {
        b'+' => before.contains(&b'+').then_some(ModeError::BadRwa),
        b'b' => None,
        _ => Some(ModeError::Invalid),
    }
}

/// How the first letter that offends does; at last, that no letter says what is done with the file.
fn first_offence(letters: &[u8]) -> Option<ModeError>
    ensures { result ≡ first_offence [] letters.now }
{
    for (place, letter) in letters.iter().enumerate() {
        if let Some(why) = offence_behind(&letters[..place], *letter) {
            return Some(why);
        }
    }
    (!has_file_letter(letters)).then_some(ModeError::BadRwa)
}

/// The flags that letters give.
fn letters_flags(letters: &[u8]) -> RawFlags
    ensures { result.0 ≡ letters_bits letters.now }
{
    let creates = letters.contains(&b'x');
    let appends = letters.contains(&b'a');
    let plus = letters.contains(&b'+');
    let mut flags = RawFlags::empty();
    flags.set(RawFlags::CREATED, creates);
    flags.set(RawFlags::READABLE, letters.contains(&b'r') || plus);
    flags.set(
        RawFlags::WRITABLE,
        creates || letters.contains(&b'w') || appends || plus,
    );
    flags.set(RawFlags::APPENDING, appends);
    flags
}

/// The flags that a mode gives to a raw stream, as Python's `io.FileIO` reads it: its letters from left to right, in any
/// order. `x` gives `WRITABLE` and `CREATED`, `r` `READABLE`, `w` `WRITABLE`, `a` `WRITABLE` and `APPENDING`, `+` both
/// `READABLE` and `WRITABLE`, and `b` nothing.
///
/// The first letter that offends decides: `BadRwa` for a second one of `x`, `r`, `w` and `a`, be it another or the same,
/// and for a second `+`; `Invalid` for any other character, `t` too. Where no letter offends and none of `x`, `r`, `w` and
/// `a` stood, it is `BadRwa`. `ModeError::error_msg` has Python's message for each.
pub fn compute_mode(mode: &str) -> Result<RawFlags, ModeError>
    ensures { ComputesMode mode.now result }
{
    let letters = mode.as_bytes();
    match first_offence(letters) {
        Some(why) => Err(why),
        None => Ok(letters_flags(letters)),
    }
}
