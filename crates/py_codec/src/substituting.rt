ghost use Rattle.std.specs.Prelude.{◌≡◌, ◌⊎◌, ◌+◌, ◌^◌, ◌<◌, ◌≤◌, None, take, drop, length, chars, option_map, string_bytes, MatchBool, IfOk, IfErr};
ghost use Rattle.std.specs.Str.{IsUtf8};
ghost use Rattle.py_flat.specs.declared.fault.IoFault.TheVariants.{UnicodeEncodeError, NoMemory};
ghost use Rattle.py_plain.specs.Encode.{run_length, replacement};
ghost use Rattle.py_codec.specs.ErrorHandler.{EncodeRefused, encode_answer};
ghost use Rattle.py_codec.specs.Treating.{encode_treatment_by, encode_fault};
ghost use Rattle.py_codec.specs.Substituting.{run_answer, replacement_bytes, IsAppended, IsTreated, IsRunFault};

use crate::encoding::without_front;
use crate::replacing::push_characters;
use crate::{EncodeReplace, ErrorHandler, HandlerRef, HandlerRefusal};
use py_blocks::push_written;
use py_flat::IoFault;
use py_plain::{Encoding, Handler, push_replacement_text};
use std::alloc::{AllocError, Global};

/// The first characters of a text.
fn front(alloc: Global, text: &str, count: usize) -> Result<Vec<char>, AllocError>
    ensures { IfOk result (λ characters. characters.items ≡ take count (chars text.now)) }
{
    text.chars().take(count).collect(alloc)
}

/// Characters as a string.
fn string_of(alloc: Global, characters: &[char]) -> Result<String, AllocError>
    ensures { IfOk result (λ text. chars (string_bytes text) ≡ characters.now) }
{
    let mut text = String::new(alloc);
    push_characters(&mut text, characters)?;
    Ok(text)
}

/// The text that a built-in handler gives for the first `size` characters of a text; `None` where it refuses.
fn substitute(
    alloc: Global,
    handler: Handler,
    left: &str,
    size: usize,
) -> Result<Option<String>, AllocError>
    ensures { IfOk result (λ given. option_map (λ text. chars (string_bytes text)) given ≡ replacement handler (take size (chars left.now))) }
{
    let run = front(alloc, left, size)?;
    let mut given = Vec::new(alloc);
    if push_replacement_text(alloc, &mut given, handler, &run)? {
        Ok(Some(string_of(alloc, &given)?))
    } else {
        Ok(None)
    }
}

/// The refusal of a run.
pub(crate) fn encode_error(start: usize, size: usize) -> IoFault
    requires { start + size < 2 ^ 64 }
    ensures { result ≡ UnicodeEncodeError start (start + size) }
{
    IoFault::UnicodeEncodeError {
        start: start as u64,
        end: (start + size) as u64,
    }
}

/// What a handler gives for the run of `size` characters that a text has at a place, in characters, and where to go on;
/// `left` is the text from there on.
fn asked<H: ErrorHandler>(
    alloc: Global,
    encoding: Encoding,
    errors: HandlerRef<H>,
    text: &str,
    left: &str,
    place: usize,
    size: usize,
) -> Result<(EncodeReplace, usize), IoFault>
    requires some { 1 ≤ size }
    requires within { place + size ≤ length (chars text.now) }
    ensures given { IfOk result (λ t. run_answer H.encodes errors encoding (chars text.now) place (chars left.now) size
        ≡ encode_answer t.0 t.1) }
    ensures err { IfErr result (λ why. (why ≡ NoMemory) ⊎ ((run_answer H.encodes errors encoding (chars text.now) place (chars left.now) size ≡ EncodeRefused)
        × (why ≡ UnicodeEncodeError place (place + size)))) }
{
    match errors {
        HandlerRef::Builtin(handler) => match substitute(alloc, handler, left, size) {
            Ok(Some(given)) => Ok((EncodeReplace::Str(given), place + size)),
            Ok(None) => Err(encode_error(place, size)),
            Err(_) => Err(IoFault::NoMemory),
        },
        HandlerRef::Custom(handler) => {
            match handler.on_encode(alloc, encoding, text, place, place + size) {
                Ok(answer) => Ok(answer),
                Err(HandlerRefusal::Refuse) => Err(encode_error(place, size)),
                Err(HandlerRefusal::Memory) => Err(IoFault::NoMemory),
            }
        }
    }
}

/// Appends bytes for what a handler gave; of a text that has no bytes itself only some are appended, and the answer is
/// false.
fn push_given(
    encoding: Encoding,
    given: &EncodeReplace,
    bytes: &mut Vec<u8>,
) -> Result<bool, AllocError>
    ensures { IfOk result (λ has. MatchBool has (IsAppended (replacement_bytes encoding given.now) bytes.old.items bytes.new.items)
        (replacement_bytes encoding given.now ≡ None)) }
{
    match given {
        EncodeReplace::Bytes(own) => {
            bytes.extend_from_slice(own)?;
            Ok(true)
        }
        EncodeReplace::Str(text) => {
            let (_, left) = push_written(encoding, text, bytes)?;
            Ok(left.is_empty())
        }
    }
}

/// Appends what a handler gives for the run of `size` characters that a text has at a place, in characters; `left` is
/// the text from there on. Answers how many characters it used, and the text after them.
pub(crate) fn push_substitute<'a, H: ErrorHandler>(
    alloc: Global,
    encoding: Encoding,
    errors: HandlerRef<H>,
    text: &str,
    left: &'a str,
    place: usize,
    size: usize,
    bytes: &mut Vec<u8>,
) -> Result<(usize, &'a str), IoFault>
    requires rest { chars left.now ≡ drop place (chars text.now) }
    requires run { size ≡ run_length encoding (chars left.now) }
    requires some { 1 ≤ size }
    ensures treated { IfOk result (λ t. IsTreated
        (encode_treatment_by H.encodes errors encoding (chars text.now) place (chars left.now) size) bytes.old.items bytes.new.items t.0) }
    ensures behind { IfOk result (λ t. chars t.1.now ≡ drop t.0 (chars left.now)) }
    ensures within { IfOk result (λ t. t.0 ≤ length (chars left.now)) }
    ensures utf8 { IfOk result (λ t. IsUtf8 t.1.now) }
    ensures err { IfErr result (λ why. IsRunFault
        (encode_treatment_by H.encodes errors encoding (chars text.now) place (chars left.now) size) why
        (encode_fault H.encodes errors encoding (chars text.now) place (place + size))) }
{
    let (given, restart) = asked(alloc, encoding, errors, text, left, place, size)?;
    if restart <= place {
        return Err(IoFault::BadRestart);
    }
    let used = restart - place;
    let Some(behind) = without_front(left, used) else {
        return Err(IoFault::BadRestart);
    };
    match push_given(encoding, &given, bytes) {
        Ok(true) => Ok((used, behind)),
        Ok(false) => Err(encode_error(place, size)),
        Err(_) => Err(IoFault::NoMemory),
    }
}
