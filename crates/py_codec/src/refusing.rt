//! What is known of a text before memory is taken for its bytes: the first run that it has.
ghost use Rattle.std.specs.Prelude.{◌≡◌, ◌+◌, ◌≤◌, true, Err, chars, length, option_map, MatchOption, IfSome};
ghost use Rattle.py_flat.specs.declared.fault.IoFault.{IoFault};
ghost use Rattle.py_plain.specs.Encode.{refused_run};
ghost use Rattle.py_codec.specs.Encoding.{encoding_by};
ghost use Rattle.py_blocks.specs.Writing.{IsOneByte};
ghost use Rattle.py_codec.specs.Refusing.{refuses_runs, strict_ending};

use crate::encoding::run_length;
use crate::substituting::encode_error;
use crate::{ErrorHandler, HandlerRef};
use py_blocks::{first_character, split_ascii};
use py_flat::IoFault;
use py_plain::{Encoding, Handler, has_bytes};

/// Whether a handler refuses every run: strict and the two handlers of surrogates.
fn refuses_runs<H: ErrorHandler>(errors: HandlerRef<H>) -> bool
    ensures { result ≡ refuses_runs errors }
{
    match errors {
        HandlerRef::Builtin(Handler::Strict | Handler::SurrogatePass | Handler::SurrogateEscape) =>
            true,
        HandlerRef::Builtin(_) | HandlerRef::Custom(_) => false,
    }
}

/// The first run of a text in an encoding that has one byte for each of its characters, as `first_run`.
fn first_run_of_bytes(encoding: Encoding, text: &str) -> Option<(usize, usize)>
    requires { IsOneByte encoding }
    ensures run { refused_run (strict_ending encoding (chars text.now)) ≡ option_map (λ t. (t.0, t.0 + t.1)) result }
    ensures within { IfSome result (λ t. t.0 + t.1 ≤ length (chars text.now)) }
{
    let mut left = text;
    let mut place = 0;
    loop {
        let (front, behind) = split_ascii(encoding, left);
        place += front.len();
        let Some((character, rest)) = first_character(behind) else {
            return None;
        };
        if !has_bytes(encoding, character) {
            return Some((place, run_length(encoding, behind)));
        }
        place += 1;
        left = rest;
    }
}

/// The first run of characters without bytes that a text has: its place in characters, and how many they are.
fn first_run(encoding: Encoding, text: &str) -> Option<(usize, usize)>
    ensures run { refused_run (strict_ending encoding (chars text.now)) ≡ option_map (λ t. (t.0, t.0 + t.1)) result }
    ensures within { IfSome result (λ t. t.0 + t.1 ≤ length (chars text.now)) }
{
    match encoding {
        Encoding::Utf8 | Encoding::Utf16Le | Encoding::Utf16Be => None,
        Encoding::Latin1 | Encoding::Ascii => first_run_of_bytes(encoding, text),
    }
}

/// The refusal of a text that a handler refuses, if it is one that refuses every run. It takes no memory.
pub fn first_refusal<H: ErrorHandler>(
    encoding: Encoding,
    text: &str,
    errors: HandlerRef<H>,
) -> Option<IoFault>
    ensures { MatchOption result ((why : IoFault) → refuses_runs errors ≡ true
        → encoding_by H.encodes errors encoding (chars text.now) ≡ Err why → ⊥)
        (λ why. encoding_by H.encodes errors encoding (chars text.now) ≡ Err why) }
{
    if !refuses_runs(errors) {
        return None;
    }
    match first_run(encoding, text) {
        Some((place, size)) => Some(encode_error(place, size)),
        None => None,
    }
}
