//! A text in UTF-8, and how many characters it has: as many as its bytes that begin one.
ghost use Rattle.std.specs.Prelude.{◌≡◌, ◌++◌, ◌+◌, ◌<◌, ◌≤◌, length, take, drop, chars, IfOk, OnOk};
ghost use Rattle.std.specs.Fmt.{is_char_start};
ghost use Rattle.std.specs.List.{count_by};

use std::alloc::AllocError;
use std::simd::Simd;

/// How many bytes are looked at at once.
pub(crate) const BLOCK: usize = 16;

/// How many bytes are looked at at once of a few.
const FEW: usize = 8;

/// From how many bytes on it is tested first whether all are ASCII.
const MANY: usize = 32;

/// How many bytes are copied before they are counted: few enough that they are still near then.
const NEAR: usize = 16384;

/// Bytes that are looked at at once.
pub(crate) type Block = Simd<u8, BLOCK>;

/// Bytes that are looked at at once, of a few.
type Few = Simd<u8, FEW>;

/// How many bytes of a block begin a character: all but those from 0x80 to 0xBF, which are those below 0x40 once 0x80 is added to each, past
/// 0xFF from 0 on.
pub(crate) fn starts_in_block(bytes: Block) -> usize
    requires { length bytes ≡ 16 }
    ensures { result ≡ count_by is_char_start bytes }
{
    let others = (bytes + Block::splat(0x80)).simd_lt(Block::splat(0x40));
    BLOCK - others.to_bitmask().count_ones() as usize
}

/// How many bytes of a block begin a character, but for the first of them.
fn starts_behind(bytes: Block, skipped: usize) -> usize
    requires bytes { length bytes ≡ 16 }
    requires skipped { skipped ≤ 16 }
    ensures { result ≡ count_by is_char_start (drop skipped bytes) }
{
    let others = (bytes + Block::splat(0x80)).simd_lt(Block::splat(0x40));
    BLOCK - skipped - (others.to_bitmask() >> skipped).count_ones() as usize
}

/// How many bytes begin a character of eight, and of eight more but for the first of these: those that begin none are counted together.
fn starts_in_two(first: Few, second: Few, skipped: usize) -> usize
    requires first { length first ≡ 8 }
    requires second { length second ≡ 8 }
    requires skipped { skipped ≤ 8 }
    ensures { result ≡ count_by is_char_start (first ++ drop skipped second) }
{
    let begun = (first + Few::splat(0x80)).simd_lt(Few::splat(0x40));
    let others = (second + Few::splat(0x80)).simd_lt(Few::splat(0x40));
    let all = begun.to_bitmask() + (others.to_bitmask() >> skipped) * 0x100;
    BLOCK - skipped - all.count_ones() as usize
}

/// How many bytes of whole blocks begin a character, and the place behind those blocks, fewer than a block before the end.
fn starts_in_blocks(bytes: &[u8]) -> (usize, usize)
    ensures counted { result.0 ≡ count_by is_char_start (take result.1 bytes.now) }
    ensures within { result.1 ≤ length bytes.now }
    ensures near { length bytes.now < result.1 + 16 }
{
    let mut count = 0;
    let mut place = 0;
    while place + BLOCK <= bytes.len() {
        count += starts_in_block(Block::from_slice(&bytes[place..]));
        place += BLOCK;
    }
    (count, place)
}

/// Whether a byte begins a character.
pub(crate) fn is_start(byte: u8) -> bool
    ensures { result ≡ is_char_start byte }
{
    byte < 0x80 || byte >= 0xC0
}

/// How many of some bytes begin a character, one byte at a time.
#[inline(never)]
fn starts_in_few(bytes: &[u8]) -> usize
    ensures { result ≡ count_by is_char_start bytes.now }
{
    bytes.iter().filter(|byte| is_start(**byte)).count()
}

/// How many of a block of bytes or more begin a character: by blocks, and the last block again with those before left out. Of many those of
/// ASCII aren't counted, as each begins one.
#[inline(never)]
fn starts_in_many(bytes: &[u8]) -> usize
    requires { 16 ≤ length bytes.now }
    ensures { result ≡ count_by is_char_start bytes.now }
{
    if bytes.len() >= MANY && bytes.is_ascii() {
        return bytes.len();
    }
    let (count, place) = starts_in_blocks(bytes);
    let last = bytes.len() - BLOCK;
    count + starts_behind(Block::from_slice(&bytes[last..]), place - last)
}

/// How many of some bytes begin a character of UTF-8: all but those from 0x80 to 0xBF. Those of a short line are counted where this is called.
#[inline(always)]
pub fn count_starts(bytes: &[u8]) -> usize
    ensures { result ≡ count_by is_char_start bytes.now }
{
    if bytes.len() > BLOCK {
        return starts_in_many(bytes);
    }
    if bytes.len() < FEW {
        return starts_in_few(bytes);
    }
    let last = bytes.len() - FEW;
    let (first, second) = (Few::from_slice(bytes), Few::from_slice(&bytes[last..]));
    starts_in_two(first, second, FEW - last)
}

/// Appends some bytes, and answers how many of them begin a character.
fn push_counted(text: &[u8], bytes: &mut Vec<u8>) -> Result<usize, AllocError>
    ensures counted { IfOk result (λ count. count ≡ count_by is_char_start text.now) }
    ensures appended { OnOk result (bytes.new.items ≡ bytes.old.items ++ text.now) }
{
    let mut count = 0;
    let mut place = 0;
    while place < text.len() {
        let end = text.len().min(place + NEAR);
        bytes.extend_from_slice(&text[place..end])?;
        count += count_starts(&text[place..end]);
        place = end;
    }
    Ok(count)
}

/// Appends a text, and answers how many characters it has.
pub(crate) fn push_text(text: &str, bytes: &mut Vec<u8>) -> Result<usize, AllocError>
    ensures counted { IfOk result (λ count. count ≡ length (chars text.now)) }
    ensures appended { OnOk result (bytes.new.items ≡ bytes.old.items ++ text.now) }
{
    push_counted(text.as_bytes(), bytes)
}
