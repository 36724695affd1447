ghost use Rattle.std.specs.Prelude.{◌≡◌, ◌++◌, ◌+◌, ◌≤◌, ◌<◌, ◌^◌, ℕ, length, drop, IfOk, OnOk, IfSome};
ghost use Rattle.py_flat.specs.declared.fault.IoFault.TheVariants.{UnicodeDecodeError};
ghost use Rattle.py_plain.specs.Handlers.{treatment};
ghost use Rattle.py_plain.specs.Decoding.{Treats};
ghost use Rattle.py_codec.specs.Answers.{text_of};
ghost use Rattle.py_codec.specs.Treating.{treatment_by, custom_treatment, decode_fault, custom_decode_fault};
ghost use Rattle.py_codec.specs.Appending.{Replaces};

use crate::{ErrorHandler, HandlerRef, HandlerRefusal};
use py_flat::IoFault;
use py_plain::{Encoding, Handler, push_replacement};
use std::alloc::{AllocError, Global};

/// Appends some characters.
pub(crate) fn push_characters(text: &mut String, characters: &[char]) -> Result<(), AllocError>
    ensures { OnOk result (text_of text.new ≡ text_of text.old ++ characters.now) }
{
    for character in characters {
        text.push(*character)?;
    }
    Ok(())
}

/// Appends what any built-in handler gives, by way of a list of its characters, and answers as `push_builtin`.
fn push_given(
    alloc: Global,
    encoding: Encoding,
    handler: Handler,
    rest: &[u8],
    size: usize,
    text: &mut String,
) -> Result<Option<usize>, AllocError>
    requires some { 1 ≤ size }
    requires within { size ≤ length rest.now }
    ensures shown { IfOk result (λ answer. (place : ℕ)
        → Treats (treatment handler encoding place rest.now size) (text_of text.old) (text_of text.new) answer) }
    ensures within { IfOk result (λ answer. IfSome answer (λ used. (1 ≤ used) × (used ≤ length rest.now))) }
{
    let mut given = Vec::new(alloc);
    let used = push_replacement(alloc, &mut given, encoding, handler, rest, size)?;
    push_characters(text, &given)?;
    Ok(used)
}

/// Appends what a built-in handler gives for the refused range of `size` bytes that `rest` begins with, and answers how
/// many bytes it used; `None` where it refuses. The handler of most texts needs no list for its one character.
fn push_builtin(
    alloc: Global,
    encoding: Encoding,
    handler: Handler,
    rest: &[u8],
    size: usize,
    text: &mut String,
) -> Result<Option<usize>, AllocError>
    requires some { 1 ≤ size }
    requires within { size ≤ length rest.now }
    ensures shown { IfOk result (λ answer. (place : ℕ)
        → Treats (treatment handler encoding place rest.now size) (text_of text.old) (text_of text.new) answer) }
    ensures within { IfOk result (λ answer. IfSome answer (λ used. (1 ≤ used) × (used ≤ length rest.now))) }
{
    match handler {
        Handler::Replace => {
            text.push('\u{FFFD}')?;
            Ok(Some(size))
        }
        _ => push_given(alloc, encoding, handler, rest, size, text),
    }
}

/// The refusal of a range.
fn decode_error(start: usize, size: usize) -> IoFault
    requires { start + size < 2 ^ 64 }
    ensures { result ≡ UnicodeDecodeError start (start + size) }
{
    IoFault::UnicodeDecodeError {
        start: start as u64,
        end: (start + size) as u64,
    }
}

/// Appends what a handler of a user's own gives for the range of `size` bytes from `start` on, and answers how many
/// bytes it used.
fn push_custom<H: ErrorHandler>(
    alloc: Global,
    encoding: Encoding,
    handler: H,
    bytes: &[u8],
    start: usize,
    size: usize,
    text: &mut String,
) -> Result<usize, IoFault>
    requires some { 1 ≤ size }
    requires within { start + size ≤ length bytes.now }
    ensures shown { Replaces (custom_treatment (H.decodes handler) encoding bytes.now start (drop start bytes.now) size)
        (custom_decode_fault start (start + size) (H.decodes handler encoding bytes.now start (start + size)))
        (text_of text.old) (text_of text.new) result }
    ensures within { IfOk result (λ used. (1 ≤ used) × (start + used ≤ length bytes.now)) }
{
    let (given, restart) = match handler.on_decode(alloc, encoding, bytes, start, start + size) {
        Ok(answer) => answer,
        Err(HandlerRefusal::Refuse) => return Err(decode_error(start, size)),
        Err(HandlerRefusal::Memory) => return Err(IoFault::NoMemory),
    };
    if restart <= start || bytes.len() < restart {
        return Err(IoFault::BadRestart);
    }
    match text.push_str(&given) {
        Ok(()) => Ok(restart - start),
        Err(_) => Err(IoFault::NoMemory),
    }
}

/// Appends what a handler gives for the refused range of `size` bytes from `start` on, and answers how many bytes it
/// used, at least one.
pub(crate) fn replace<H: ErrorHandler>(
    alloc: Global,
    encoding: Encoding,
    errors: HandlerRef<H>,
    bytes: &[u8],
    start: usize,
    size: usize,
    text: &mut String,
) -> Result<usize, IoFault>
    requires some { 1 ≤ size }
    requires within { start + size ≤ length bytes.now }
    ensures shown { Replaces (treatment_by H.decodes errors encoding bytes.now start (drop start bytes.now) size)
        (decode_fault H.decodes errors encoding bytes.now start (start + size))
        (text_of text.old) (text_of text.new) result }
    ensures within { IfOk result (λ used. (1 ≤ used) × (start + used ≤ length bytes.now)) }
{
    match errors {
        HandlerRef::Builtin(handler) => {
            match push_builtin(alloc, encoding, handler, &bytes[start..], size, text) {
                Ok(Some(used)) => Ok(used),
                Ok(None) => Err(decode_error(start, size)),
                Err(_) => Err(IoFault::NoMemory),
            }
        }
        HandlerRef::Custom(handler) => {
            push_custom(alloc, encoding, handler, bytes, start, size, text)
        }
    }
}
