ghost use Rattle.std.specs.Prelude.{◌≡◌, ◌++◌, ◌<◌, ◌≤◌, ℕ, length, IfOk, OnOk};
ghost use Rattle.py_plain.specs.Escapes.{each_spelled};
ghost use Rattle.py_plain.specs.Escaping.{spelled_by};
ghost use Rattle.py_plain.specs.Encode.{text_bytes, run_length, replacement, written_if, encode_treatment, encoded, refused_run};
ghost use Rattle.py_plain.specs.Writing.{Writes, WritesFirst, first_encoded, characters_used};

use crate::character_bytes::{has_bytes, push_character};
use crate::escapes::{Escape, push_escape};
use crate::{Encoding, Handler};
use std::alloc::{AllocError, Global};

/// What the characters of a text encode to.
#[derive(Debug, Drop)]
pub struct EncodedText {
    /// The bytes of all the characters, or of those before a refused run.
    pub bytes: Vec<u8>,
    /// Where the refused run begins and the place after it, in characters from the start of the text; `None` where
    /// nothing is refused.
    pub refusal: Option<(usize, usize)>,
}

/// What comes first of some characters.
#[derive(Clone, Copy)]
enum FirstWritten {
    /// Bytes, or none, that stand for n characters.
    Written { used: usize },
    /// A run of n characters that is refused.
    RefusedRun { size: usize },
}

/// Appends each character as an escape spells it.
fn push_each(
    alloc: Global,
    out: &mut Vec<char>,
    escape: Escape,
    characters: &[char],
) -> Result<(), AllocError>
    ensures { OnOk result (out.new.items ≡ out.old.items ++ each_spelled (spelled_by escape) characters.now) }
{
    for character in characters {
        push_escape(alloc, out, escape, u32::from(*character))?;
    }
    Ok(())
}

/// Appends the text that a handler gives for a run of characters that have no bytes, and answers whether it gives one;
/// nothing is appended where it refuses the run. The `Err` means out of memory.
pub fn push_replacement_text(
    alloc: Global,
    out: &mut Vec<char>,
    handler: Handler,
    run: &[char],
) -> Result<bool, AllocError>
    ensures { IfOk result (Writes (replacement handler run.now) out.old.items out.new.items) }
{
    match handler {
        Handler::Strict | Handler::SurrogatePass | Handler::SurrogateEscape => return Ok(false),
        Handler::Ignore => (),
        Handler::Replace => push_each(alloc, out, Escape::QuestionMark, run)?,
        Handler::XmlCharRefReplace => push_each(alloc, out, Escape::Reference, run)?,
        Handler::BackslashReplace => push_each(alloc, out, Escape::Backslash, run)?,
    }
    Ok(true)
}

/// Appends the bytes of a text, and answers whether the encoding has all its characters; else nothing is written.
fn push_text(out: &mut Vec<u8>, encoding: Encoding, text: &[char]) -> Result<bool, AllocError>
    ensures { IfOk result (Writes (text_bytes encoding text.now) out.old.items out.new.items) }
{
    let before = out.len();
    for character in text {
        if !push_character(out, encoding, *character)? {
            out.truncate(before);
            return Ok(false);
        }
    }
    Ok(true)
}

/// How many characters without bytes stand first.
fn run_length(encoding: Encoding, characters: &[char]) -> usize
    ensures length { result ≡ run_length encoding characters.now }
    ensures within { result ≤ length characters.now }
{
    for (index, character) in characters.iter().enumerate() {
        if has_bytes(encoding, *character) {
            return index;
        }
    }
    characters.len()
}

/// Appends what a handler gives for a run.
fn push_run(
    alloc: Global,
    out: &mut Vec<u8>,
    encoding: Encoding,
    handler: Handler,
    run: &[char],
) -> Result<FirstWritten, AllocError>
    ensures shown { IfOk result (WritesFirst (length run.now)
        (written_if encoding (replacement handler run.now) (length run.now)) out.old.items out.new.items) }
    ensures used { IfOk result (λ first. characters_used first ≡ length run.now) }
{
    let size = run.len();
    let mut text = Vec::new(alloc);
    if push_replacement_text(alloc, &mut text, handler, run)? && push_text(out, encoding, &text)? {
        return Ok(FirstWritten::Written { used: size });
    }
    Ok(FirstWritten::RefusedRun { size })
}

/// Appends the bytes of what comes first.
fn push_first(
    alloc: Global,
    out: &mut Vec<u8>,
    encoding: Encoding,
    handler: Handler,
    characters: &[char],
) -> Result<FirstWritten, AllocError>
    requires { 0 < length characters.now }
    ensures shown { IfOk result (λ first. (place : ℕ) → WritesFirst (run_length encoding characters.now)
        (first_encoded encoding (encode_treatment handler encoding) place characters.now)
        out.old.items out.new.items first) }
    ensures within { IfOk result (λ first. (1 ≤ characters_used first)
        × (characters_used first ≤ length characters.now)) }
{
    if push_character(out, encoding, characters[0])? {
        return Ok(FirstWritten::Written { used: 1 });
    }
    let size = run_length(encoding, characters);
    push_run(alloc, out, encoding, handler, &characters[..size])
}

/// The plain encoding: the bytes of a whole text, with what the handler gives for each run of characters that the
/// encoding has no bytes for.
///
/// A run that the handler refuses ends it, and so does one whose replacement has no bytes either. The `Err` means out of memory.
pub fn encode(
    alloc: Global,
    encoding: Encoding,
    handler: Handler,
    characters: &[char],
) -> Result<EncodedText, AllocError>
    ensures bytes { IfOk result (λ e. e.bytes.items
        ≡ (encoded encoding (encode_treatment handler encoding) characters.now).bytes) }
    ensures refusal { IfOk result (λ e. e.refusal
        ≡ refused_run (encoded encoding (encode_treatment handler encoding) characters.now).ending) }
{
    let mut bytes = Vec::new(alloc);
    let mut place = 0;
    while place < characters.len() {
        match push_first(alloc, &mut bytes, encoding, handler, &characters[place..])? {
            FirstWritten::Written { used } => place += used,
            FirstWritten::RefusedRun { size } => {
                return Ok(EncodedText {
                    bytes,
                    refusal: Some((place, place + size)),
                });
            }
        }
    }
    Ok(EncodedText {
        bytes,
        refusal: None,
    })
}
