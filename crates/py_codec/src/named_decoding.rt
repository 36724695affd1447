ghost use Rattle.std.specs.Prelude.{true};
ghost use Rattle.py_plain.specs.declared.encoding.Encoding.TheVariants.{Utf8, Latin1, Ascii, Utf16Le, Utf16Be};
ghost use Rattle.py_codec.specs.Answers.{text_of, IsAnswer};
ghost use Rattle.py_codec.specs.Decoding.{decoding_by};

use crate::decoding::decode;
use crate::{ErrorHandler, HandlerRef};
use py_flat::IoFault;
use py_plain::Encoding;
use std::alloc::Global;

/// The text of some bytes of UTF-8, and how many bytes were used (the Unicode Standard, Table 3-7 and the maximal
/// subparts of its section 3.9).
///
/// `last` says that no bytes follow; where they may, a suffix that is the front of a character is left unused.
/// `UnicodeDecodeError` is the first range that the handler refuses, in bytes from the start; `BadRestart`: a handler's
/// place to go on isn't past the start of its range, or is past the end; `NoMemory` means out of memory.
pub fn utf_8_decode<H: ErrorHandler>(
    alloc: Global,
    bytes: &[u8],
    errors: HandlerRef<H>,
    last: bool,
) -> Result<(String, usize), IoFault>
    ensures { IsAnswer text_of result (decoding_by H.decodes errors Utf8 last bytes.now) }
{
    decode(alloc, Encoding::Utf8, bytes, errors, last)
}

/// The text of some bytes of UTF-16 with the lesser byte of each unit first, and how many bytes were used (the Unicode
/// Standard, Table 3-5).
///
/// A single byte at the end, and the first unit of a pair with at most one byte after it, are left unused where bytes
/// may follow, and are refused ranges where `last` says that none do. The refusals are those of `utf_8_decode`.
pub fn utf_16_le_decode<H: ErrorHandler>(
    alloc: Global,
    bytes: &[u8],
    errors: HandlerRef<H>,
    last: bool,
) -> Result<(String, usize), IoFault>
    ensures { IsAnswer text_of result (decoding_by H.decodes errors Utf16Le last bytes.now) }
{
    decode(alloc, Encoding::Utf16Le, bytes, errors, last)
}

/// The text of some bytes of UTF-16 with the greater byte of each unit first, and how many bytes were used; in all else
/// as `utf_16_le_decode`.
pub fn utf_16_be_decode<H: ErrorHandler>(
    alloc: Global,
    bytes: &[u8],
    errors: HandlerRef<H>,
    last: bool,
) -> Result<(String, usize), IoFault>
    ensures { IsAnswer text_of result (decoding_by H.decodes errors Utf16Be last bytes.now) }
{
    decode(alloc, Encoding::Utf16Be, bytes, errors, last)
}

/// The text of some bytes of ISO 8859-1, in which byte n is the character n, and how many bytes were used: all.
///
/// Only running out of memory refuses, as `NoMemory`.
pub fn latin_1_decode<H: ErrorHandler>(
    alloc: Global,
    bytes: &[u8],
    errors: HandlerRef<H>,
) -> Result<(String, usize), IoFault>
    ensures { IsAnswer text_of result (decoding_by H.decodes errors Latin1 true bytes.now) }
{
    decode(alloc, Encoding::Latin1, bytes, errors, true)
}

/// The text of some bytes of ASCII, and how many bytes were used: all. A byte from 128 on is a refused range.
///
/// The refusals are those of `utf_8_decode`.
pub fn ascii_decode<H: ErrorHandler>(
    alloc: Global,
    bytes: &[u8],
    errors: HandlerRef<H>,
) -> Result<(String, usize), IoFault>
    ensures { IsAnswer text_of result (decoding_by H.decodes errors Ascii true bytes.now) }
{
    decode(alloc, Encoding::Ascii, bytes, errors, true)
}
