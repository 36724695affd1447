ghost use Rattle.std.specs.Prelude.{◌≡◌, true, chars};
ghost use Rattle.py_text.specs.EachWritten.{each_encoded};

use crate::Coder;
use py_plain::Encoding;

/// Whether the bytes of a text are those of its UTF-8, as far as is seen at once: always in UTF-8, and in an encoding of one
/// byte for each character where the text is ASCII.
#[inline(always)]
pub(crate) fn stays(coder: Coder, text: &str) -> bool
    ensures { result ≡ true → each_encoded coder (chars text.now) ≡ text.now }
{
    match coder.encoding {
        Encoding::Utf8 => true,
        Encoding::Latin1 | Encoding::Ascii => text.is_ascii(),
        Encoding::Utf16Le | Encoding::Utf16Be => false,
    }
}
