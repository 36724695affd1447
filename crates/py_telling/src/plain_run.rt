ghost use Rattle.std.specs.Prelude.{◌≡◌, ◌≤◌, ◌<◌, true, false, length};
ghost use Rattle.py_telling.specs.Plain.{is_plain, has_ascii, ArePlain};

use py_plain::Encoding;

/// How many bytes are tested at once.
const BLOCK: usize = 64;

/// Whether a byte is ASCII and no CR.
fn is_plain(byte: u8) -> bool
    ensures { result ≡ is_plain byte }
{
    byte < 0x80 && byte != b'\r'
}

/// Whether all of some bytes are ASCII, and none a CR: each is looked at, with no branch between them.
fn are_plain(bytes: &[u8]) -> bool
    ensures { result ≡ true → ArePlain (length bytes.now) bytes.now }
{
    let mut plain = true;
    for byte in bytes {
        plain &= is_plain(*byte);
    }
    plain
}

/// How many bytes come first, at most so many, that are ASCII and no CR, in whole blocks.
fn plain_blocks(bytes: &[u8], most: usize) -> usize
    requires { most ≤ length bytes.now }
    ensures few { result ≤ most }
    ensures plain { ArePlain result bytes.now }
{
    let mut run = 0;
    while most - run >= BLOCK && are_plain(&bytes[run..run + BLOCK]) {
        run += BLOCK;
    }
    run
}

/// How many bytes come first, at most so many, that are ASCII and no CR: whole blocks at once, and then one byte at a time.
fn plain_front(bytes: &[u8], most: usize) -> usize
    requires { most ≤ length bytes.now }
    ensures few { result ≤ most }
    ensures plain { ArePlain result bytes.now }
{
    if most == 0 || !is_plain(bytes[0]) {
        return 0;
    }
    let mut run = plain_blocks(bytes, most);
    while run < most && is_plain(bytes[run]) {
        run += 1;
    }
    run
}

/// How many bytes come first, at most so many, that are characters by themselves and leave no CR held; none where one is held before.
pub(crate) fn plain_run(encoding: Encoding, held: bool, bytes: &[u8], left: u128) -> usize
    ensures few { result ≤ left }
    ensures within { result ≤ length bytes.now }
    ensures ascii { 0 < result → has_ascii encoding ≡ true }
    ensures free { 0 < result → held ≡ false }
    ensures plain { ArePlain result bytes.now }
{
    if held || matches!(encoding, Encoding::Utf16Le | Encoding::Utf16Be) {
        return 0;
    }
    plain_front(bytes, left.min(bytes.len() as u128) as usize)
}
