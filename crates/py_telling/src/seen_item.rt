ghost use Rattle.std.specs.Prelude.{◌≡◌, ◌<◌, ◌≤◌, ℕ, Bool, true, length, take, Some};
ghost use Rattle.py_plain.specs.Units.{Order, first_unit};
ghost use Rattle.py_plain.specs.Handlers.{treatment, escaped, front_past_ascii, reads_texts};
ghost use Rattle.py_plain.specs.Items.{first_item, item_handled};
ghost use Rattle.py_telling.specs.Seen.{IsFewIn, Shows, IsSeenIn};

use py_plain::{Encoding, Handler, Unit, first_unit};

/// What comes first of some bytes.
#[derive(Clone, Copy)]
pub(crate) enum SeenItem {
    /// A character, and how many bytes it has.
    Character { character: char, used: usize },
    /// So many characters that stand for a refused range, or for the front of one, and how many bytes they stand for.
    Replaced { count: usize, used: usize },
    /// A range that the handler refuses.
    Refused,
    /// Bytes that may still become a character, where more may come.
    Unfinished,
}

/// How many bytes stand before the first ASCII one.
fn count_past_ascii(bytes: &[u8]) -> usize
    ensures front { take result bytes.now ≡ front_past_ascii bytes.now }
    ensures within { result ≤ length bytes.now }
{
    for (index, byte) in bytes.iter().enumerate() {
        if *byte < 0x80 {
            return index;
        }
    }
    bytes.len()
}

/// What stands for a range by surrogateescape: `#` and five digits for each byte up to the first ASCII one.
fn escaped(range: &[u8]) -> SeenItem
    requires few { length range.now ≤ 4 }
    ensures shown { Shows (item_handled (length range.now) (escaped (front_past_ascii range.now))) result }
    ensures within { IsSeenIn (length range.now) result }
{
    let used = count_past_ascii(range);
    if used == 0 {
        return SeenItem::Refused;
    }
    SeenItem::Replaced {
        count: 6 * used,
        used,
    }
}

/// What stands for the refused range of n bytes that some bytes begin with.
fn replaced(handler: Handler, encoding: Encoding, bytes: &[u8], size: usize) -> SeenItem
    requires reads { reads_texts handler ≡ true }
    requires some { 1 ≤ size }
    requires few { size ≤ 4 }
    requires within { size ≤ length bytes.now }
    ensures shown { (place : ℕ) → Shows (item_handled size (treatment handler encoding place bytes.now size)) result }
    ensures within { IsSeenIn size result }
{
    match handler {
        Handler::Strict | Handler::XmlCharRefReplace | Handler::SurrogatePass => SeenItem::Refused,
        Handler::Ignore => SeenItem::Replaced {
            count: 0,
            used: size,
        },
        Handler::Replace => SeenItem::Replaced {
            count: 1,
            used: size,
        },
        Handler::BackslashReplace => SeenItem::Replaced {
            count: 4 * size,
            used: size,
        },
        Handler::SurrogateEscape => escaped(&bytes[..size]),
    }
}

/// What some bytes begin with, of which there is one.
fn unit_of(encoding: Encoding, bytes: &[u8]) -> Unit
    requires { 0 < length bytes.now }
    ensures unit { (order : Order) (at_start : Bool) → first_unit encoding order at_start bytes.now ≡ Some result }
    ensures within { IsFewIn (length bytes.now) result }
{
    first_unit(encoding, bytes).unwrap()
}

/// What comes first of some bytes, of which there is one, by a handler of texts that are read; `last` says that none come after them.
pub(crate) fn first_seen(encoding: Encoding, handler: Handler, bytes: &[u8], last: bool) -> SeenItem
    requires reads { reads_texts handler ≡ true }
    requires some { 0 < length bytes.now }
    ensures shown { (order : Order) (place : ℕ)
        → Shows (first_item encoding (treatment handler encoding) last order place bytes.now) result }
    ensures within { IsSeenIn (length bytes.now) result }
{
    match unit_of(encoding, bytes) {
        Unit::Character { character, length } => SeenItem::Character {
            character,
            used: length,
        },
        Unit::Malformed { length } => replaced(handler, encoding, bytes, length),
        Unit::Cut { length } if last => replaced(handler, encoding, bytes, length),
        Unit::Cut { .. } => SeenItem::Unfinished,
    }
}
