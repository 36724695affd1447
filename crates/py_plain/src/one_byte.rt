ghost use Rattle.std.specs.Prelude.{◌≡◌};
ghost use Rattle.py_plain.specs.OneByte.{latin1_unit, ascii_unit};

use crate::Unit;

/// A byte as the character of its number.
fn own_character(byte: u8) -> Unit
    ensures { result ≡ Unit.Character byte 1 }
{
    Unit::Character {
        character: char::from(byte),
        length: 1,
    }
}

/// What some bytes begin with in ISO 8859-1; nothing where there are none.
pub(crate) fn latin1_unit(bytes: &[u8]) -> Option<Unit>
    ensures { result ≡ latin1_unit bytes.now }
{
    let [byte, ..] = bytes else {
        return None;
    };
    Some(own_character(*byte))
}

/// What some bytes begin with in ASCII; nothing where there are none.
#[tactic(auto, unfolding(crate::specs::OneByte::is_ascii))]
pub(crate) fn ascii_unit(bytes: &[u8]) -> Option<Unit>
    ensures { result ≡ ascii_unit bytes.now }
{
    let [byte, ..] = bytes else {
        return None;
    };
    if *byte >= 0x80 {
        return Some(Unit::Malformed { length: 1 });
    }
    Some(own_character(*byte))
}
