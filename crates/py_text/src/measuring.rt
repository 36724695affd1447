ghost use Rattle.std.specs.Prelude.{◌≡◌, ◌*◌, ◌≤◌, ◌⊎◌, None, Some, length, chars, IfOk, IfErr, IfSome, MatchOption};
ghost use Rattle.py_plain.specs.Encode.{refused_run, encode_treatment, encoded};
ghost use Rattle.py_plain_text.specs.TextWriting.{written_bytes, written_refusal};
ghost use Rattle.py_plain_text.specs.TextRefusals.{encode_error};
ghost use Rattle.py_text.specs.EachWritten.{IsWhole};
ghost use Rattle.py_text.specs.Written.{settings_of, short_bound};

use crate::Coder;
use crate::sizes::{SHORT, length_within};
use py_blocks::count_starts;
use py_codec::{HandlerRef, NoHandler, first_refusal};
use py_flat::IoFault;
use py_plain::{Encoding, Newlines};

/// What a text comes to when it is written.
#[derive(Clone, Copy, Debug, PartialEq, Eq)]
pub struct WrittenSize {
    /// How many characters the text has.
    pub chars: usize,
    /// How many bytes it is written as; of a short text, where there is room enough, at most so many, and half as many at least.
    pub bytes: u128,
}

/// How many characters a text has: as many as its bytes that begin one.
pub fn character_count(text: &str) -> usize
    ensures { result ≡ length (chars text.now) }
{
    count_starts(text.as_bytes())
}

/// The refusal of a text, where the handler refuses a run of its characters. In UTF-8 each of them has bytes.
fn refusal(coder: Coder, text: &str) -> Option<IoFault>
    ensures { MatchOption result (IsWhole coder.errors coder.encoding (chars text.now))
        (λ why. encode_error (refused_run (encoded coder.encoding (encode_treatment coder.errors coder.encoding) (chars text.now)).ending) ≡ Some why) }
{
    match coder.encoding {
        Encoding::Utf8 => None,
        Encoding::Latin1 | Encoding::Ascii | Encoding::Utf16Le | Encoding::Utf16Be => {
            let errors: HandlerRef<NoHandler> = HandlerRef::Builtin(coder.errors);
            first_refusal(coder.encoding, text, errors)
        }
    }
}

/// At most how many bytes a text of up to 4096 bytes is written as in UTF-8, by a newline rule: twice as many. Nothing of it is refused. Of
/// every other text it isn't told: `written_size` measures those.
#[inline(always)]
pub fn short_bound(coder: Coder, newline: Newlines, text: &str) -> Option<usize>
    ensures bound { result ≡ short_bound coder.encoding (length text.now) }
    ensures whole { IfSome result (λ most. written_refusal (settings_of coder newline) (chars text.now) ≡ None) }
    ensures most { IfSome result (λ most. length (written_bytes (settings_of coder newline) (chars text.now)) ≤ most) }
{
    match coder.encoding {
        Encoding::Utf8 if text.len() <= SHORT => Some(text.len() * 2),
        _ => None,
    }
}

/// How many characters a text has, and how many bytes it is written as by a newline rule and a coder, where these are more than the
/// room for them; else at most how many, and no more than twice as many. It takes no memory.
///
/// `UnicodeEncodeError`: the handler refuses a run of characters without bytes; it is the first such run, counted in
/// characters of the text.
pub fn written_size(
    coder: Coder,
    newline: Newlines,
    text: &str,
    room: u128,
) -> Result<WrittenSize, IoFault>
    ensures whole { IfOk result (λ size. written_refusal (settings_of coder newline) (chars text.now) ≡ None) }
    ensures characters { IfOk result (λ size. size.chars ≡ length (chars text.now)) }
    ensures most { IfOk result (λ size. length (written_bytes (settings_of coder newline) (chars text.now)) ≤ size.bytes) }
    ensures bytes { IfOk result (λ size. (size.bytes ≤ room) ⊎ (size.bytes ≡ length (written_bytes (settings_of coder newline) (chars text.now)))) }
    ensures few { IfOk result (λ size. size.bytes ≤ 2 * length (written_bytes (settings_of coder newline) (chars text.now))) }
    ensures err { IfErr result (λ why. encode_error (written_refusal (settings_of coder newline) (chars text.now)) ≡ Some why) }
{
    if let Some(why) = refusal(coder, text) {
        return Err(why);
    }
    Ok(WrittenSize {
        chars: character_count(text),
        bytes: length_within(coder, newline, text, room),
    })
}
