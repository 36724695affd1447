ghost use Rattle.std.specs.Prelude.{◌≡◌, ◌+◌, ◌≤◌, length, drop, IfOk, IfSome};
ghost use Rattle.py_plain.specs.Units.{Unknown};
ghost use Rattle.py_plain.specs.Items.{first_item};
ghost use Rattle.py_codec.specs.Answers.{text_of, IsAnswer};
ghost use Rattle.py_codec.specs.Treating.{treatment_by, decode_fault};
ghost use Rattle.py_codec.specs.Appending.{Reads};
ghost use Rattle.py_codec.specs.Decoding.{decoding_by};

use crate::replacing::replace;
use crate::{ErrorHandler, HandlerRef};
use py_blocks::{LEAST, next_most, push_run};
use py_flat::IoFault;
use py_plain::{Encoding, Unit, first_unit};
use std::alloc::Global;

/// Appends what the bytes from a place on begin with: a character, or what the handler gives for a refused range.
///
/// Answers how many bytes were used: `None` where none are left, or where those left may still become a character.
pub(crate) fn push_item<H: ErrorHandler>(
    alloc: Global,
    encoding: Encoding,
    errors: HandlerRef<H>,
    bytes: &[u8],
    place: usize,
    last: bool,
    text: &mut String,
) -> Result<Option<usize>, IoFault>
    requires { place ≤ length bytes.now }
    ensures shown { Reads
        (first_item encoding (treatment_by H.decodes errors encoding bytes.now) last Unknown place (drop place bytes.now))
        (λ size. decode_fault H.decodes errors encoding bytes.now place (place + size))
        (text_of text.old) (text_of text.new) result }
    ensures within { IfOk result (λ answer. IfSome answer (λ used. (1 ≤ used) × (place + used ≤ length bytes.now))) }
{
    match first_unit(encoding, &bytes[place..]) {
        None => Ok(None),
        Some(Unit::Character { character, length }) => match text.push(character) {
            Ok(()) => Ok(Some(length)),
            Err(_) => Err(IoFault::NoMemory),
        },
        Some(Unit::Cut { .. }) if !last => Ok(None),
        Some(Unit::Malformed { length } | Unit::Cut { length }) => {
            match replace(alloc, encoding, errors, bytes, place, length, text) {
                Ok(used) => Ok(Some(used)),
                Err(fault) => Err(fault),
            }
        }
    }
}

/// The text of some bytes in an encoding, and how many bytes were used; `last` says that no bytes follow.
///
/// It is the call by whichever name the encoding has, as `utf_8_decode`, and refuses as that does. Latin-1 and ASCII have
/// no character of several bytes, so that for them `last` says nothing.
// whole runs of characters at once, and one item at a time between them
pub fn decode<H: ErrorHandler>(
    alloc: Global,
    encoding: Encoding,
    bytes: &[u8],
    errors: HandlerRef<H>,
    last: bool,
) -> Result<(String, usize), IoFault>
    ensures { IsAnswer text_of result (decoding_by H.decodes errors encoding last bytes.now) }
{
    let Ok(mut text) = String::with_capacity(alloc, bytes.len()) else {
        return Err(IoFault::NoMemory);
    };
    let mut place = 0;
    let mut most = LEAST;
    loop {
        let Ok(run) = push_run(encoding, &bytes[place..], most, &mut text) else {
            return Err(IoFault::NoMemory);
        };
        place += run;
        most = next_most(most, run);
        match push_item(alloc, encoding, errors, bytes, place, last, &mut text) {
            Ok(Some(used)) => place += used,
            Ok(None) => return Ok((text, place)),
            Err(fault) => return Err(fault),
        }
    }
}
