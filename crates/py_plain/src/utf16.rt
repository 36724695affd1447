ghost use Rattle.std.specs.Prelude.{◌≡◌, true};
ghost use Rattle.py_plain.specs.Utf16.{code_unit, is_high, is_low, joined, behind_high, unit_of, utf16_unit};

use crate::Unit;

/// Two bytes as a number; `big` says that the greater comes first.
pub(crate) fn code_unit(big: bool, first: u8, second: u8) -> u16
    ensures { result ≡ code_unit big first second }
{
    let (greater, lesser) = if big {
        (first, second)
    } else {
        (second, first)
    };
    u16::from(greater) * 256 + u16::from(lesser)
}

#[tactic(auto, using(crate::proofs::Surrogates::high))]
fn is_high(unit: u16) -> bool
    ensures { result ≡ is_high unit }
{
    matches!(unit, 0xD800..=0xDBFF)
}

#[tactic(auto, using(crate::proofs::Surrogates::low))]
fn is_low(unit: u16) -> bool
    ensures { result ≡ is_low unit }
{
    matches!(unit, 0xDC00..=0xDFFF)
}

/// The character of a pair.
fn joined(high: u16, low: u16) -> char
    requires high { is_high high ≡ true }
    requires low { is_low low ≡ true }
    ensures { result ≡ joined high low }
{
    let bits = 0x10000 + u32::from(high - 0xD800) * 0x400 + u32::from(low - 0xDC00);
    char::from_u32(bits).unwrap()
}

/// What stands after the first unit of a pair.
fn behind_high(big: bool, high: u16, rest: &[u8]) -> Unit
    requires { is_high high ≡ true }
    ensures { result ≡ behind_high big high rest.now }
{
    let [first, second, ..] = rest else {
        return Unit::Cut {
            length: 2 + rest.len(),
        };
    };
    let low = code_unit(big, *first, *second);
    if !is_low(low) {
        return Unit::Malformed { length: 2 };
    }
    Unit::Character {
        character: joined(high, low),
        length: 4,
    }
}

fn unit_of(big: bool, unit: u16, rest: &[u8]) -> Unit
    ensures { result ≡ unit_of big unit rest.now }
{
    if is_high(unit) {
        return behind_high(big, unit, rest);
    }
    if is_low(unit) {
        return Unit::Malformed { length: 2 };
    }
    Unit::Character {
        character: char::from_u32(u32::from(unit)).unwrap(),
        length: 2,
    }
}

/// What some bytes begin with in UTF-16 of an order; nothing where there are none.
pub(crate) fn utf16_unit(big: bool, bytes: &[u8]) -> Option<Unit>
    ensures { result ≡ utf16_unit big bytes.now }
{
    match bytes {
        [] => None,
        [_] => Some(Unit::Cut { length: 1 }),
        [first, second, rest @ ..] => Some(unit_of(big, code_unit(big, *first, *second), rest)),
    }
}
