ghost use Rattle.std.specs.Prelude.{◌≡◌, ◌++◌, ◌≤◌, min, length, take, chars, IfOk, OnOk};
ghost use Rattle.std.specs.Str.{IsAscii, IsUtf8};
ghost use Rattle.py_blocks.specs.Texts.{text_of};
ghost use Rattle.py_plain.specs.declared.encoding.Encoding.TheVariants.{Latin1};
ghost use Rattle.py_blocks.specs.Runs.{IsRun};
ghost use Rattle.py_blocks.specs.Writing.{IsOneByte};

use crate::ascii::ascii_front;
use crate::counting::is_start;
use crate::utf16::push_utf16_run;
use py_plain::Encoding;
use std::alloc::AllocError;

/// The fewest bytes that are looked at for one run.
pub const LEAST: usize = 64;

/// The most: few enough that they are still near when they are copied.
const MOST: usize = 16384;

/// A front of some bytes, of n at most.
pub fn window(bytes: &[u8], most: usize) -> &[u8]
    ensures { result.now ≡ take (min (length bytes.now) most) bytes.now }
{
    &bytes[..bytes.len().min(most)]
}

/// How many bytes to look at after a run: twice as many where it was as long as it could be but for a cut character,
/// else the fewest, since what ended it may soon end another.
pub fn next_most(most: usize, run: usize) -> usize
    ensures { result ≤ 16384 }
{
    if most.saturating_sub(run) < 4 {
        most.saturating_mul(2).min(MOST)
    } else {
        LEAST
    }
}

/// How many bytes a character of UTF-8 has that such a byte begins.
fn width(byte: u8) -> usize {
    match byte {
        0..=0x7F => 1,
        0x80..=0xDF => 2,
        0xE0..=0xEF => 3,
        0xF0..=0xFF => 4,
    }
}

/// Where the last whole character ends of some bytes of UTF-8, of which the last may be cut: what is behind it is found malformed only after
/// all before it was tested again.
fn whole_end(bytes: &[u8]) -> usize
    ensures { result ≤ length bytes.now }
{
    let mut at = bytes.len();
    while at > 0 && bytes.len() - at < 3 {
        at -= 1;
        if is_start(bytes[at]) {
            let cut = bytes.len() - at < width(bytes[at]);
            return if cut { at } else { bytes.len() };
        }
    }
    bytes.len()
}

/// A count of first bytes that are the UTF-8 of whole characters: up to the first that begins none, or up to a last one that is cut.
pub fn utf8_front(bytes: &[u8]) -> usize
    ensures within { result ≤ length bytes.now }
    ensures utf8 { IsUtf8 (take result bytes.now) }
{
    let whole = &bytes[..whole_end(bytes)];
    match simdutf8::compat::from_utf8(whole) {
        Ok(_) => whole.len(),
        Err(error) => error.valid_up_to(),
    }
}

/// Appends a front of some bytes, which is UTF-8.
fn push_front(bytes: &[u8], front: usize, text: &mut String) -> Result<usize, AllocError>
    requires within { front ≤ length bytes.now }
    requires utf8 { IsUtf8 (take front bytes.now) }
    ensures used { IfOk result (λ used. used ≡ front) }
    ensures appended { OnOk result (text_of text.new ≡ text_of text.old ++ chars (take front bytes.now)) }
{
    text.push_str(unsafe { str::from_utf8_unchecked(&bytes[..front]) })?;
    Ok(front)
}

/// Appends the characters of ASCII that some bytes begin with, in an encoding that has one byte for each of its
/// characters.
fn push_ascii_run(encoding: Encoding, bytes: &[u8], text: &mut String) -> Result<usize, AllocError>
    requires { IsOneByte encoding }
    ensures { IfOk result (IsRun encoding bytes.now (text_of text.old) (text_of text.new)) }
{
    push_front(bytes, ascii_front(bytes), text)
}

/// Appends the characters of some bytes of ISO 8859-1: those of ASCII at once, and the others one at a time.
fn push_latin1_run(bytes: &[u8], text: &mut String) -> Result<usize, AllocError>
    ensures all { IfOk result (λ used. used ≡ length bytes.now) }
    ensures run { IfOk result (IsRun Latin1 bytes.now (text_of text.old) (text_of text.new)) }
{
    let mut place = 0;
    loop {
        let ascii = push_ascii_run(Encoding::Latin1, &bytes[place..], text)?;
        place += ascii;
        if place == bytes.len() {
            return Ok(place);
        }
        text.push(char::from(bytes[place]))?;
        place += 1;
    }
}

/// Appends whole characters that some bytes begin with, as many as are found at once in the first `most` bytes, and
/// answers how many bytes they are. None is found where the bytes begin with no character, and perhaps elsewhere.
pub fn push_run(
    encoding: Encoding,
    bytes: &[u8],
    most: usize,
    text: &mut String,
) -> Result<usize, AllocError>
    ensures { IfOk result (IsRun encoding bytes.now (text_of text.old) (text_of text.new)) }
{
    let near = window(bytes, most);
    match encoding {
        Encoding::Utf8 => push_front(near, utf8_front(near), text),
        Encoding::Latin1 => push_latin1_run(near, text),
        Encoding::Ascii => push_ascii_run(encoding, near, text),
        Encoding::Utf16Le => push_utf16_run(false, near, text),
        Encoding::Utf16Be => push_utf16_run(true, near, text),
    }
}
