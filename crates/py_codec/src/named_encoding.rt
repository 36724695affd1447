ghost use Rattle.std.specs.Prelude.{chars};
ghost use Rattle.py_plain.specs.declared.encoding.Encoding.TheVariants.{Utf8, Latin1, Ascii, Utf16Le, Utf16Be};
ghost use Rattle.py_codec.specs.Answers.{bytes_of, IsAnswer};
ghost use Rattle.py_codec.specs.Encoding.{encoding_by};
ghost use Rattle.py_codec.specs.Refusing.{RefusedFirst};

use crate::encoding::encode;
use crate::{ErrorHandler, HandlerRef};
use py_flat::IoFault;
use py_plain::Encoding;
use std::alloc::Global;

/// The bytes of a text in UTF-8, and how many characters it has. Only running out of memory refuses, as `NoMemory`.
pub fn utf_8_encode<H: ErrorHandler>(
    alloc: Global,
    text: &str,
    errors: HandlerRef<H>,
) -> Result<(Vec<u8>, usize), IoFault>
    ensures { IsAnswer bytes_of result (encoding_by H.encodes errors Utf8 (chars text.now)) }
{
    encode(alloc, Encoding::Utf8, text, errors)
}

/// The bytes of a text in ISO 8859-1, which has the characters below U+0100, and how many characters the text has.
///
/// A *run* is characters without bytes, as many as stand together. `UnicodeEncodeError` is the first run that the handler refuses,
/// in characters from the start, or for which it gives a text with a character that has no bytes itself; `BadRestart`: a handler's
/// place to go on isn't past the start of its run, or is past the end; `NoMemory` means out of memory, and never comes
/// where strict or a handler of surrogates refuses the text.
pub fn latin_1_encode<H: ErrorHandler>(
    alloc: Global,
    text: &str,
    errors: HandlerRef<H>,
) -> Result<(Vec<u8>, usize), IoFault>
    ensures answer { IsAnswer bytes_of result (encoding_by H.encodes errors Latin1 (chars text.now)) }
    ensures first { RefusedFirst errors (encoding_by H.encodes errors Latin1 (chars text.now)) result }
{
    encode(alloc, Encoding::Latin1, text, errors)
}

/// The bytes of a text in ASCII, which has the characters below U+0080, and how many characters the text has; the
/// refusals are those of `latin_1_encode`.
pub fn ascii_encode<H: ErrorHandler>(
    alloc: Global,
    text: &str,
    errors: HandlerRef<H>,
) -> Result<(Vec<u8>, usize), IoFault>
    ensures answer { IsAnswer bytes_of result (encoding_by H.encodes errors Ascii (chars text.now)) }
    ensures first { RefusedFirst errors (encoding_by H.encodes errors Ascii (chars text.now)) result }
{
    encode(alloc, Encoding::Ascii, text, errors)
}

/// The bytes of a text in UTF-16 with the lesser byte of each unit first and no mark (the Unicode Standard, Table 3-5),
/// and how many characters it has. Only running out of memory refuses, as `NoMemory`.
pub fn utf_16_le_encode<H: ErrorHandler>(
    alloc: Global,
    text: &str,
    errors: HandlerRef<H>,
) -> Result<(Vec<u8>, usize), IoFault>
    ensures { IsAnswer bytes_of result (encoding_by H.encodes errors Utf16Le (chars text.now)) }
{
    encode(alloc, Encoding::Utf16Le, text, errors)
}

/// The bytes of a text in UTF-16 with the greater byte of each unit first and no mark, and how many characters it has.
/// Only running out of memory refuses, as `NoMemory`.
pub fn utf_16_be_encode<H: ErrorHandler>(
    alloc: Global,
    text: &str,
    errors: HandlerRef<H>,
) -> Result<(Vec<u8>, usize), IoFault>
    ensures { IsAnswer bytes_of result (encoding_by H.encodes errors Utf16Be (chars text.now)) }
{
    encode(alloc, Encoding::Utf16Be, text, errors)
}
