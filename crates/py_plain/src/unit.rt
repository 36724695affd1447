ghost use Rattle.std.specs.Prelude.{◌≡◌, ◌<◌, Bool, length, IsSome, IfSome};
ghost use Rattle.py_plain.specs.Units.{Order, first_unit};
ghost use Rattle.py_plain.specs.UnitLaws.{IsWithin};

use crate::Encoding;
use crate::one_byte::{ascii_unit, latin1_unit};
use crate::utf8::utf8_unit;
use crate::utf16::utf16_unit;

/// What some bytes begin with.
#[derive(Clone, Copy, Debug, PartialEq, Eq)]
pub enum Unit {
    /// A character, in n bytes.
    Character { character: char, length: usize },
    /// A range that no character begins with: the longest front of what is left that a well-formed sequence goes on
    /// from, or one byte where there is none.
    Malformed { length: usize },
    /// All that is left, which may still become a character: a refused range where nothing follows.
    Cut { length: usize },
}

/// What some bytes begin with in an encoding: nothing where there are none.
///
/// UTF-8 is read by the Unicode Standard's Table 3-7 and the maximal subparts of its section 3.9, UTF-16 by its Table
/// 3-5. Neither an order mark nor the start of a stream matters.
pub fn first_unit(encoding: Encoding, bytes: &[u8]) -> Option<Unit>
    ensures unit { (order : Order) (at_start : Bool) → result
        ≡ first_unit encoding order at_start bytes.now }
    ensures some { 0 < length bytes.now → IsSome result }
    ensures within { IfSome result (λ unit. IsWithin unit (length bytes.now)) }
{
    match encoding {
        Encoding::Utf8 => utf8_unit(bytes),
        Encoding::Latin1 => latin1_unit(bytes),
        Encoding::Ascii => ascii_unit(bytes),
        Encoding::Utf16Le => utf16_unit(false, bytes),
        Encoding::Utf16Be => utf16_unit(true, bytes),
    }
}
