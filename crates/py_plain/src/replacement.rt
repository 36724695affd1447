ghost use Rattle.std.specs.Prelude.{◌≡◌, ◌++◌, ◌≤◌, ℕ, length, take, IfOk, OnOk, OnSome, IfSome};
ghost use Rattle.py_plain.specs.Escapes.{each_spelled};
ghost use Rattle.py_plain.specs.Escaping.{spelled_by};
ghost use Rattle.py_plain.specs.Handlers.{front_past_ascii, escaped, three_bytes, two_bytes, spelled_number, number_length, is_surrogate, passed, treatment};
ghost use Rattle.py_plain.specs.Decoding.{Treats};

use crate::escapes::{Escape, push_escape, push_surrogate_pass};
use crate::utf8::is_within;
use crate::utf16::code_unit;
use crate::{Encoding, Handler};
use std::alloc::{AllocError, Global};

/// Appends each byte as an escape spells it.
fn push_each(
    alloc: Global,
    out: &mut Vec<char>,
    escape: Escape,
    bytes: &[u8],
) -> Result<(), AllocError>
    ensures { OnOk result (out.new.items ≡ out.old.items ++ each_spelled (spelled_by escape) bytes.now) }
{
    for byte in bytes {
        push_escape(alloc, out, escape, u32::from(*byte))?;
    }
    Ok(())
}

/// How many bytes stand before the first ASCII one.
fn count_past_ascii(bytes: &[u8]) -> usize
    ensures front { take result bytes.now ≡ front_past_ascii bytes.now }
    ensures within { result ≤ length bytes.now }
{
    for (index, byte) in bytes.iter().enumerate() {
        if *byte < 0x80 {
            return index;
        }
    }
    bytes.len()
}

/// Appends what surrogateescape gives for a range, and answers the bytes that it used; nothing where it refuses.
fn push_escaped(
    alloc: Global,
    out: &mut Vec<char>,
    range: &[u8],
) -> Result<Option<usize>, AllocError>
    ensures shown { IfOk result (Treats (escaped (front_past_ascii range.now)) out.old.items out.new.items) }
    ensures within { IfOk result (λ answer. IfSome answer (λ used. (1 ≤ used) × (used ≤ length range.now))) }
{
    let front = &range[..count_past_ascii(range)];
    if front.is_empty() {
        return Ok(None);
    }
    push_each(alloc, out, Escape::Surrogate, front)?;
    Ok(Some(front.len()))
}

/// The number that three bytes spell in the form of UTF-8.
fn three_bytes(bytes: &[u8]) -> Option<u16>
    ensures number { result ≡ three_bytes bytes.now }
    ensures within { OnSome result (3 ≤ length bytes.now) }
{
    let [first, second, third, ..] = bytes else {
        return None;
    };
    if !is_within(0xE0, 0xEF, *first)
        || !is_within(0x80, 0xBF, *second)
        || !is_within(0x80, 0xBF, *third)
    {
        return None;
    }
    Some(
        u16::from(*first - 0xE0) * 0x1000
            + u16::from(*second - 0x80) * 0x40
            + u16::from(*third - 0x80),
    )
}

fn two_bytes(big: bool, bytes: &[u8]) -> Option<u16>
    ensures number { result ≡ two_bytes big bytes.now }
    ensures within { OnSome result (2 ≤ length bytes.now) }
{
    let [first, second, ..] = bytes else {
        return None;
    };
    Some(code_unit(big, *first, *second))
}

/// The number that bytes spell in the form of an encoding, where they could be a surrogate.
fn spelled_number(encoding: Encoding, bytes: &[u8]) -> Option<u16>
    ensures number { result ≡ spelled_number encoding bytes.now }
    ensures within { OnSome result (number_length encoding ≤ length bytes.now) }
{
    match encoding {
        Encoding::Utf8 => three_bytes(bytes),
        Encoding::Latin1 | Encoding::Ascii => None,
        Encoding::Utf16Le => two_bytes(false, bytes),
        Encoding::Utf16Be => two_bytes(true, bytes),
    }
}

/// How many bytes spell a number in an encoding.
fn number_length(encoding: Encoding) -> usize
    ensures length { result ≡ number_length encoding }
    ensures some { 1 ≤ result }
{
    match encoding {
        Encoding::Utf8 => 3,
        _ => 2,
    }
}

#[tactic(auto, using(crate::proofs::Surrogates::surrogate))]
fn is_surrogate(number: u16) -> bool
    ensures { result ≡ is_surrogate number }
{
    matches!(number, 0xD800..=0xDFFF)
}

/// Appends what surrogatepass gives for the bytes that begin at a range, and answers how many it used; nothing where it
/// refuses.
fn push_passed(
    out: &mut Vec<char>,
    encoding: Encoding,
    rest: &[u8],
) -> Result<Option<usize>, AllocError>
    ensures shown { IfOk result (Treats (passed (number_length encoding) (spelled_number encoding rest.now))
        out.old.items out.new.items) }
    ensures within { IfOk result (λ answer. IfSome answer (λ used. (1 ≤ used) × (used ≤ length rest.now))) }
{
    let Some(number) = spelled_number(encoding, rest) else {
        return Ok(None);
    };
    if !is_surrogate(number) {
        return Ok(None);
    }
    push_surrogate_pass(out, number)?;
    Ok(Some(number_length(encoding)))
}

/// Appends what a handler gives for the refused range of n bytes that `rest` begins with, and answers how many
/// bytes it used, at least one; nothing where it refuses the range. The `Err` means out of memory.
pub fn push_replacement(
    alloc: Global,
    out: &mut Vec<char>,
    encoding: Encoding,
    handler: Handler,
    rest: &[u8],
    size: usize,
) -> Result<Option<usize>, AllocError>
    requires some { 1 ≤ size }
    requires within { size ≤ length rest.now }
    ensures shown { IfOk result (λ answer. (place : ℕ)
        → Treats (treatment handler encoding place rest.now size) out.old.items out.new.items answer) }
    ensures within { IfOk result (λ answer. IfSome answer (λ used. (1 ≤ used) × (used ≤ length rest.now))) }
{
    match handler {
        Handler::Strict | Handler::XmlCharRefReplace => Ok(None),
        Handler::Ignore => Ok(Some(size)),
        Handler::Replace => {
            out.push('\u{FFFD}')?;
            Ok(Some(size))
        }
        Handler::BackslashReplace => {
            push_each(alloc, out, Escape::Backslash, &rest[..size])?;
            Ok(Some(size))
        }
        Handler::SurrogatePass => push_passed(out, encoding, rest),
        Handler::SurrogateEscape => push_escaped(alloc, out, &rest[..size]),
    }
}
