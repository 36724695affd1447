ghost use Rattle.std.specs.Prelude.{◌≤◌, length, take};
ghost use Rattle.std.specs.Str.{IsAscii};

use crate::runs::window;

/// How many bytes are tested at once.
const BLOCK: usize = 64;

/// A count of first bytes that are ASCII: whole blocks, up to the first that isn't.
fn ascii_blocks(bytes: &[u8]) -> usize
    ensures within { result ≤ length bytes.now }
    ensures ascii { IsAscii (take result bytes.now) }
{
    let mut front = 0;
    while front + BLOCK <= bytes.len() && bytes[front..front + BLOCK].is_ascii() {
        front += BLOCK;
    }
    front
}

/// A count of first bytes that are ASCII, up to the first that isn't: whole blocks at once, and then one byte at a time.
pub(crate) fn ascii_front(bytes: &[u8]) -> usize
    ensures within { result ≤ length bytes.now }
    ensures ascii { IsAscii (take result bytes.now) }
{
    let mut front = ascii_blocks(bytes);
    while front < bytes.len() && bytes[front] < 0x80 {
        front += 1;
    }
    front
}

/// The most bytes that are looked at before they are copied: few enough that they are still near then.
const NEAR: usize = 16384;

/// A count of first bytes that are ASCII, up to the first that isn't, among those that are looked at.
pub(crate) fn near_ascii_front(bytes: &[u8]) -> usize
    ensures within { result ≤ length bytes.now }
    ensures ascii { IsAscii (take result bytes.now) }
{
    ascii_front(window(bytes, NEAR))
}
