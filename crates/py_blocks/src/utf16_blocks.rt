//! Blocks of characters of ASCII, read from UTF-16 and written in it at once.
ghost use Rattle.std.specs.Prelude.{◌≡◌, ◌<◌, ◌≤◌, length, take, drop, chars, Some, IfOk, IfSome, if◌then◌else◌};
ghost use Rattle.std.specs.Bool.{OnTrue};
ghost use Rattle.std.specs.List.{All};
ghost use Rattle.std.specs.Str.{IsAscii, IsUtf8};
ghost use Rattle.py_plain.specs.Encode.{text_bytes};
ghost use Rattle.py_blocks.specs.Texts.{text_of};
ghost use Rattle.py_blocks.specs.Runs.{IsRun, utf16};
ghost use Rattle.py_blocks.specs.Blocks.{paired};
ghost use Rattle.py_blocks.specs.Writing.{Wrote};

use std::alloc::AllocError;
use std::simd::Simd;

/// How many characters a block has; as many are taken one at a time where a block isn't all ASCII.
pub(crate) const BLOCK: usize = 16;

/// How many bytes a block has in UTF-16.
pub(crate) const WIDE: usize = 32;

/// A byte of each unit of a block.
type Half = Simd<u8, BLOCK>;

/// True only where all bytes are below a limit.
fn all_below(bytes: Half, limit: u8) -> bool
    requires { length bytes ≡ 16 }
    ensures { OnTrue result (All (λ byte. byte < limit) bytes) }
{
    !bytes.simd_ge(Half::splat(limit)).any()
}

/// The first and the second bytes of the units of a block of UTF-16.
fn halves(wide: &[u8]) -> (Half, Half)
    requires { length wide.now ≡ 32 }
    ensures first { length result.0 ≡ 16 }
    ensures second { length result.1 ≡ 16 }
    ensures units { paired result.0 result.1 ≡ wide.now }
{
    Half::from_slice(wide).deinterleave(Half::from_slice(&wide[BLOCK..]))
}

/// The block of UTF-16 whose units have these first and second bytes.
fn joined(first: Half, second: Half) -> [u8; WIDE]
    requires first { length first ≡ 16 }
    requires second { length second ≡ 16 }
    ensures { result ≡ paired first second }
{
    let (front, back) = first.interleave(second);
    let mut wide = [0; WIDE];
    front.copy_to_slice(&mut wide[..BLOCK]);
    back.copy_to_slice(&mut wide[BLOCK..]);
    wide
}

/// The first and the second bytes of units from the greater and the lesser ones, or the other way round; `big` says
/// that the greater come first.
fn ordered(big: bool, one: Half, other: Half) -> (Half, Half)
    requires one { length one ≡ 16 }
    requires other { length other ≡ 16 }
    ensures first { result.0 ≡ (if big then one else other) }
    ensures second { result.1 ≡ (if big then other else one) }
{
    if big { (one, other) } else { (other, one) }
}

/// The characters of a block of UTF-16, only where all are ASCII.
fn narrow_block(big: bool, wide: &[u8]) -> Option<[u8; BLOCK]>
    requires { length wide.now ≡ 32 }
    ensures ascii { IfSome result IsAscii }
    ensures written { IfSome result (λ block. text_bytes (utf16 big) block ≡ Some wide.now) }
{
    let (first, second) = halves(wide);
    let (greater, lesser) = ordered(big, first, second);
    if all_below(greater, 1) && all_below(lesser, 0x80) {
        Some(lesser.to_array())
    } else {
        None
    }
}

/// A block of characters in UTF-16, only where all are ASCII.
fn wide_block(big: bool, narrow: &[u8]) -> Option<[u8; WIDE]>
    requires { length narrow.now ≡ 16 }
    ensures ascii { IfSome result (λ wide. IsAscii narrow.now) }
    ensures written { IfSome result (λ wide. text_bytes (utf16 big) narrow.now ≡ Some wide) }
{
    let lesser = Half::from_slice(narrow);
    if !all_below(lesser, 0x80) {
        return None;
    }
    let (first, second) = ordered(big, Half::splat(0), lesser);
    Some(joined(first, second))
}

/// Appends the characters of the blocks of ASCII that some bytes of UTF-16 begin with, and answers how many bytes they
/// are.
pub(crate) fn push_blocks(big: bool, bytes: &[u8], text: &mut String) -> Result<usize, AllocError>
    ensures { IfOk result (IsRun (utf16 big) bytes.now (text_of text.old) (text_of text.new)) }
{
    let mut place = 0;
    while place + WIDE <= bytes.len() {
        let Some(block) = narrow_block(big, &bytes[place..place + WIDE]) else {
            return Ok(place);
        };
        text.push_str(unsafe { str::from_utf8_unchecked(&block) })?;
        place += WIDE;
    }
    Ok(place)
}

/// Appends the blocks of ASCII that some bytes begin with in UTF-16, and answers how many bytes were read.
fn push_wide(big: bool, text: &[u8], bytes: &mut Vec<u8>) -> Result<usize, AllocError>
    ensures within { IfOk result (λ front. front ≤ length text.now) }
    ensures ascii { IfOk result (λ front. IsAscii (take front text.now)) }
    ensures wrote { IfOk result (λ front. Wrote (utf16 big) text.now bytes.old.items bytes.new.items front (drop front text.now)) }
{
    let mut front = 0;
    while front + BLOCK <= text.len() {
        let Some(block) = wide_block(big, &text[front..front + BLOCK]) else {
            return Ok(front);
        };
        bytes.extend_from_slice(&block)?;
        front += BLOCK;
    }
    Ok(front)
}

/// Appends the blocks of ASCII that a text begins with in UTF-16, and answers how many characters they are and the text
/// after them.
pub(crate) fn write_blocks<'a>(
    big: bool,
    text: &'a str,
    bytes: &mut Vec<u8>,
) -> Result<(usize, &'a str), AllocError>
    ensures wrote { IfOk result (λ t. Wrote (utf16 big) (chars text.now) bytes.old.items bytes.new.items t.0 (chars t.1.now)) }
    ensures utf8 { IfOk result (λ t. IsUtf8 t.1.now) }
{
    let front = push_wide(big, text.as_bytes(), bytes)?;
    Ok((front, &text[front..]))
}
