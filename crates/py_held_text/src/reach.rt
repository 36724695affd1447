//! How far the bytes in hand are decoded for an answer. A line ends no further than behind the first LF or CR that its rule ends
//! lines by, and a line of n characters in no more bytes than those have. That is a guess: an LF that no CR comes before, by the rule
//! of CR LF, and one that a malformed sequence takes in end no line, and then more is wanted the next time; and where a malformed
//! sequence of UTF-16 has an odd number of bytes the units behind it aren't seen. Where the line is short so are those behind it, as a
//! rule, and so some of them are decoded with it, but where no more bytes are in hand than a text asks for where it was put.
ghost use Rattle.std.specs.Prelude.{◌≤◌, length, IfSome};

use crate::Wanted;
use memchr::{memchr, memchr2};
use py_blocks::window;
use py_plain::{Encoding, Newlines};

/// The most bytes that a character has, in any encoding.
const LONGEST: usize = 4;

/// How many bytes are decoded at once for short lines.
const SHARED: usize = 4096;

/// How many bytes a text asks for first where it was put: mostly a line is wanted there, which is shorter. Of so many in hand, or fewer, it is
/// decoded alone.
pub const FIRST_SIZE: usize = 512;

/// How many of some bytes are decoded for an answer that wants so many characters.
pub(crate) fn reach(
    encoding: Encoding,
    newline: Newlines,
    wanted: Wanted,
    want: usize,
    bytes: &[u8],
) -> usize
    ensures { result ≤ length bytes.now }
{
    match wanted {
        Wanted::Characters(_) => bytes.len(),
        Wanted::Line(_) => {
            let near = window(bytes, want.saturating_mul(LONGEST));
            match behind_end(encoding, newline, near) {
                Some(end) if bytes.len() <= FIRST_SIZE => end,
                Some(end) => end.max(SHARED.min(bytes.len())),
                None => bytes.len(),
            }
        }
    }
}

/// The place behind the first line end that stands in some bytes.
fn behind_end(encoding: Encoding, newline: Newlines, bytes: &[u8]) -> Option<usize>
    ensures { IfSome result (λ end. end ≤ length bytes.now) }
{
    match encoding {
        Encoding::Utf8 | Encoding::Latin1 | Encoding::Ascii => behind_byte(newline, bytes),
        Encoding::Utf16Le => behind_unit(newline, bytes, 0),
        Encoding::Utf16Be => behind_unit(newline, bytes, 1),
    }
}

/// The place behind the first byte that may end a line; by the rules that know both, with the LF that goes with a CR.
fn behind_byte(newline: Newlines, bytes: &[u8]) -> Option<usize>
    ensures { IfSome result (λ end. end ≤ length bytes.now) }
{
    let found = match newline {
        Newlines::Universal | Newlines::Passthrough => memchr2(b'\n', b'\r', bytes),
        Newlines::Lf | Newlines::Crlf => memchr(b'\n', bytes),
        Newlines::Cr => memchr(b'\r', bytes),
    };
    let at = found?;
    if newline != Newlines::Cr && bytes[at..].starts_with(b"\r\n") {
        return Some(at + 2);
    }
    Some(at + 1)
}

/// The place behind the first unit of two bytes that may end a line, where the byte at `low` of each is its lower one.
fn behind_unit(newline: Newlines, bytes: &[u8], low: usize) -> Option<usize>
    requires { low ≤ 1 }
    ensures { IfSome result (λ end. end ≤ length bytes.now) }
{
    let mut at = 0;
    while at + 1 < bytes.len() {
        if bytes[at + 1 - low] == 0
            && behind_byte(newline, &bytes[at + low..at + low + 1]).is_some()
        {
            return Some(at + 2);
        }
        at += 2;
    }
    None
}
