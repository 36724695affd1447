//! By which settings texts are tried, and of which bytes.
use py_plain::{Encoding, Handler, Newlines};
use std::alloc::{AllocError, Global};

/// The encodings of texts.
pub const ENCODINGS: [Encoding; 5] = [
    Encoding::Utf8,
    Encoding::Latin1,
    Encoding::Ascii,
    Encoding::Utf16Le,
    Encoding::Utf16Be,
];

/// The handlers that texts are read by, and texts that are read and written.
pub const HANDLERS: [Handler; 5] = [
    Handler::Strict,
    Handler::Ignore,
    Handler::Replace,
    Handler::BackslashReplace,
    Handler::SurrogateEscape,
];

/// The newline rules.
pub const RULES: [Newlines; 5] = [
    Newlines::Universal,
    Newlines::Passthrough,
    Newlines::Lf,
    Newlines::Cr,
    Newlines::Crlf,
];

/// Bytes that are read: line ends of each kind, alone and cut; characters of one to four bytes; ranges that are refused, at the
/// front, between line ends and cut at the end; and the same in UTF-16.
pub const SAMPLES: [&[u8]; 12] = [
    b"",
    b"a\r\nb\rc\nd",
    b"\r\r\n\n\r",
    b"ab\xFF\r\ncd\r",
    b"\r\xFF\nx\r",
    b"\xC3\xA9\n\xE2\x82\xAC\r\n\xF0\x9F\x98\x80",
    b"a\xE2\x82",
    b"\xF0\x9F\x98",
    b"a\x00\r\x00\n\x00\x3D\xD8\x00\xDE\r\x00",
    b"\x00a\x00\r\x00\n\xD8\x3D\xDE\x00\x00\r",
    b"\x00\xD8a\x00\r\x00\x00\xDC\n\x00x",
    b"a line that is longer than each chunk\r\nand one more\n",
];

/// Bytes of which all short strings are told: line ends, a character, the front and the middle of one of three bytes, which are also
/// a range that is refused, half of a surrogate, a zero, and one that is no UTF-8.
pub const TELLING: [u8; 8] = [b'\n', b'\r', b'a', 0xE2, 0x82, 0xD8, 0x00, 0xFF];

/// A string of those bytes by its number: the empty one, then those of one byte, of two, of three and of four.
pub fn telling(alloc: Global, number: usize) -> Result<Vec<u8>, AllocError> {
    let mut bytes = Vec::new(alloc);
    let mut left = number;
    for _ in 0..4 {
        if left == 0 {
            break;
        }
        left -= 1;
        bytes.push(TELLING[left % TELLING.len()])?;
        left /= TELLING.len();
    }
    Ok(bytes)
}
