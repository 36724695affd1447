ghost use Rattle.std.specs.Prelude.{◌≡◌, false, chars};
ghost use Rattle.py_flat.specs.Lines.{Lf, Cr, CrLf, AnyEnd, lf, cr};
ghost use Rattle.py_plain.specs.NewlineRule.{ends_held};
ghost use Rattle.py_plain.specs.FindNewline.{newline_place, byte_place};

use crate::Newlines;
use memchr::{memchr, memchr2};

impl Newlines {
    /// Looks for the first line end in a text. The `Ok` has the place right behind it, in bytes.
    ///
    /// Where no line ends, the `Err` has the place to look from once more text stands behind this one, in bytes: its length, and by
    /// the rule of CR LF, where its last character is a CR, the place of that CR. No memory is taken.
    pub fn find_newline(&self, text: &str) -> Result<usize, usize>
        ensures place { result ≡ newline_place self.now (chars text.now) }
    {
        let bytes = text.as_bytes();
        match self {
            Newlines::Universal | Newlines::Lf => find_byte(b'\n', bytes),
            Newlines::Cr => find_byte(b'\r', bytes),
            Newlines::Crlf => find_pair(bytes),
            Newlines::Passthrough => find_any(bytes),
        }
    }
}

/// The place behind the first of one byte.
fn find_byte(byte: u8, bytes: &[u8]) -> Result<usize, usize>
    ensures lf { byte ≡ lf → result ≡ byte_place Lf bytes.now }
    ensures cr { byte ≡ cr → result ≡ byte_place Cr bytes.now }
{
    match memchr(byte, bytes) {
        Some(at) => Ok(at + 1),
        None => Err(bytes.len()),
    }
}

/// Whether the last of some bytes is a CR; false where there are none.
pub fn ends_with_cr(bytes: &[u8]) -> bool
    ensures { result ≡ ends_held false bytes.now }
{
    match bytes {
        [.., last] => *last == b'\r',
        [] => false,
    }
}

/// The place behind the first CR LF.
fn find_pair(bytes: &[u8]) -> Result<usize, usize>
    ensures { result ≡ byte_place CrLf bytes.now }
{
    let mut from = 0;
    while let Some(at) = memchr(b'\n', &bytes[from..]) {
        let end = from + at;
        from = end + 1;
        if ends_with_cr(&bytes[..end]) {
            return Ok(from);
        }
    }
    if ends_with_cr(bytes) {
        return Err(bytes.len() - 1);
    }
    Err(bytes.len())
}

/// The place behind the first CR LF, CR or LF.
fn find_any(bytes: &[u8]) -> Result<usize, usize>
    ensures { result ≡ byte_place AnyEnd bytes.now }
{
    let Some(at) = memchr2(b'\n', b'\r', bytes) else {
        return Err(bytes.len());
    };
    if bytes[at..].starts_with(b"\r\n") {
        return Ok(at + 2);
    }
    Ok(at + 1)
}
