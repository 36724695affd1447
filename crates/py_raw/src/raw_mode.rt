ghost use Rattle.std.specs.Prelude.{◌≡◌, ◌↔◌, IsTrue, ◌&&◌, ◌||◌, true, not, nat_eq, if◌then◌else◌};
ghost use Rattle.std.specs.Int.RustNames.{bit_or};
ghost use Rattle.py_raw.specs.RawMode.{IsRawMode, IsFileLetter, file_letter, has_plus, mode_reads, mode_writes, letter_r, letter_w, letter_x, letter_a};
ghost use Rattle.py_raw.specs.Flags.{can_read, can_write, can_seek, has_bits};

use crate::RawFlags;
use bitflags::Flags;

/// Whether a byte is a file letter.
fn is_file_letter(letter: u8) -> bool
    ensures { IsTrue result ↔ IsFileLetter letter }
{
    letter == b'r' || letter == b'w' || letter == b'x' || letter == b'a'
}

/// Whether a text is one of the modes that an opener takes: `rb`, `rb+`, `wb`, `wb+`, `xb`, `xb+`, `ab`, `ab+`.
pub fn is_raw_mode(mode: &str) -> bool
    ensures { IsTrue result ↔ IsRawMode mode.now }
{
    match mode.as_bytes() {
        [letter, b'b'] => is_file_letter(*letter),
        [letter, b'b', b'+'] => is_file_letter(*letter),
        _ => false,
    }
}

/// The file letter of a raw mode: `r`, `w`, `x` or `a`.
pub fn file_letter(mode: &str) -> u8
    requires { IsRawMode mode.now }
    ensures { result ≡ file_letter mode.now }
{
    mode.as_bytes()[0]
}

/// Whether a raw mode has a plus.
fn has_plus(mode: &str) -> bool
    ensures { result ≡ has_plus mode.now }
{
    mode.len() == 3
}

/// Whether what a raw mode opens can be read.
pub fn mode_reads(mode: &str) -> bool
    requires { IsRawMode mode.now }
    ensures { result ≡ mode_reads mode.now }
{
    file_letter(mode) == b'r' || has_plus(mode)
}

/// Whether what a raw mode opens can be written.
pub fn mode_writes(mode: &str) -> bool
    requires { IsRawMode mode.now }
    ensures { result ≡ mode_writes mode.now }
{
    file_letter(mode) != b'r' || has_plus(mode)
}

/// Whether a raw mode can't open a path that is found or isn't: `x` finds it, or `r` misses it.
pub fn misses(mode: &str, found: bool) -> bool
    requires { IsRawMode mode.now }
    ensures { result ≡ ((nat_eq (file_letter mode.now) letter_x && found) || (nat_eq (file_letter mode.now) letter_r && not found)) }
{
    let letter = file_letter(mode);
    (letter == b'x' && found) || (letter == b'r' && !found)
}

/// The flags of two sets together.
fn together(some: RawFlags, more: RawFlags) -> RawFlags
    ensures { result.0 ≡ bit_or some.0 more.0 }
{
    let mut all = some;
    all.insert(more);
    all
}

/// The flags that a file letter gives: 16 for what can seek, 2 to read, 4 to write, 1 for what it made, 8 to append.
fn letter_flags(letter: u8) -> RawFlags
    ensures { result.0 ≡ (if nat_eq letter letter_r then 18 else (if nat_eq letter letter_w then 20 else (if nat_eq letter letter_x then 21 else 28))) }
{
    let writes = together(RawFlags::WRITABLE, RawFlags::SEEKABLE);
    match letter {
        b'r' => together(RawFlags::READABLE, RawFlags::SEEKABLE),
        b'w' => writes,
        b'x' => together(RawFlags::CREATED, writes),
        _ => together(RawFlags::APPENDING, writes),
    }
}

/// The flags of a stream in memory that a raw mode opens, which can always seek.
pub fn mode_flags(mode: &str) -> RawFlags
    requires { IsRawMode mode.now }
    ensures reads { can_read result ≡ mode_reads mode.now }
    ensures writes { can_write result ≡ mode_writes mode.now }
    ensures seeks { can_seek result ≡ true }
    ensures creates { has_bits result 1 ≡ nat_eq (file_letter mode.now) letter_x }
    ensures appends { has_bits result 8 ≡ nat_eq (file_letter mode.now) letter_a }
{
    let flags = letter_flags(file_letter(mode));
    if !has_plus(mode) {
        return flags;
    }
    together(flags, together(RawFlags::READABLE, RawFlags::WRITABLE))
}
