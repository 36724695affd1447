ghost use Rattle.std.specs.Prelude.{◌≡◌, ◌+◌, ◌-◌, ◌*◌, ◌<◌, ◌≤◌};
ghost use Rattle.py_plain.specs.Utf8.{Leads, is_within, lead, sequence, utf8_unit};
ghost use Rattle.py_plain.specs.Spelling.{lead_shown, SpellsBy, Spells};

use crate::Unit;

/// What a byte says that begins a sequence, by the first column of the Unicode Standard's Table 3-7.
#[derive(Clone, Copy)]
enum Lead {
    /// The byte is a character by itself.
    Alone,
    /// `follow` bytes come after, the first of them from `low` to `high`; `bits` are what the leading byte adds to
    /// the character.
    Leads {
        follow: u8,
        low: u8,
        high: u8,
        bits: u32,
    },
    /// No well-formed sequence begins with it.
    Never,
}

#[tactic(auto, unfolding(crate::specs::Utf8::is_within))]
pub(crate) fn is_within(low: u8, high: u8, byte: u8) -> bool
    ensures { result ≡ is_within low high byte }
{
    low <= byte && byte <= high
}

fn leads(follow: u8, low: u8, high: u8, bits: u8) -> Lead
    ensures { lead_shown result ≡ Leads follow low high bits }
{
    Lead::Leads {
        follow,
        low,
        high,
        bits: u32::from(bits),
    }
}

#[tactic(auto, using(crate::proofs::Rows::rows))]
fn lead_of(byte: u8) -> Lead
    ensures shown { lead_shown result ≡ lead byte }
    ensures spells { SpellsBy byte (lead_shown result) }
{
    match byte {
        0x00..=0x7F => Lead::Alone,
        0xC2..=0xDF => leads(1, 0x80, 0xBF, byte - 0xC0),
        0xE0 => leads(2, 0xA0, 0xBF, byte - 0xE0),
        0xE1..=0xEC => leads(2, 0x80, 0xBF, byte - 0xE0),
        0xED => leads(2, 0x80, 0x9F, byte - 0xE0),
        0xEE..=0xEF => leads(2, 0x80, 0xBF, byte - 0xE0),
        0xF0 => leads(3, 0x90, 0xBF, byte - 0xF0),
        0xF1..=0xF3 => leads(3, 0x80, 0xBF, byte - 0xF0),
        0xF4 => leads(3, 0x80, 0x8F, byte - 0xF0),
        _ => Lead::Never,
    }
}

/// A sequence's bits with the six of one byte more.
fn with_six_bits(bits: u32, byte: u8) -> u32
    requires continues { 0x80 ≤ byte }
    requires fits { bits * 64 + (byte - 0x80) < 0x110000 }
    ensures { result ≡ bits * 64 + (byte - 0x80) }
{
    bits * 64 + u32::from(byte - 0x80)
}

/// What stands after `length` bytes of a sequence whose character is `bits` so far, of which `follow` more must come,
/// the next from `low` to `high`.
fn sequence(length: usize, follow: u8, low: u8, high: u8, bits: u32, rest: &[u8]) -> Unit
    requires spells { Spells follow low high bits }
    requires short { length + follow ≤ 4 }
    ensures { result ≡ sequence length follow low high bits rest.now }
{
    if follow == 0 {
        return Unit::Character {
            character: char::from_u32(bits).unwrap(),
            length,
        };
    }
    let [byte, more @ ..] = rest else {
        return Unit::Cut { length };
    };
    if !is_within(low, high, *byte) {
        return Unit::Malformed { length };
    }
    let more_bits = with_six_bits(bits, *byte);
    sequence(length + 1, follow - 1, 0x80, 0xBF, more_bits, more)
}

/// What some bytes begin with in UTF-8; nothing where there are none.
pub(crate) fn utf8_unit(bytes: &[u8]) -> Option<Unit>
    ensures { result ≡ utf8_unit bytes.now }
{
    let [byte, rest @ ..] = bytes else {
        return None;
    };
    Some(match lead_of(*byte) {
        Lead::Alone => Unit::Character {
            character: char::from(*byte),
            length: 1,
        },
        Lead::Leads {
            follow,
            low,
            high,
            bits,
        } => sequence(1, follow, low, high, bits, rest),
        Lead::Never => Unit::Malformed { length: 1 },
    })
}
