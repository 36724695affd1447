ghost use Rattle.std.specs.Prelude.{◌≡◌, ◌<◌, ◌≤◌, ℕ, length, IfOk};
ghost use Rattle.py_plain.specs.Units.{Order};
ghost use Rattle.py_plain.specs.Handlers.{treatment};
ghost use Rattle.py_plain.specs.Items.{first_item, item_handled, decoding, characters_of, refusal_of};
ghost use Rattle.py_plain.specs.Decoding.{Gives, IsSeenIn};

use crate::replacement::push_replacement;
use crate::{Encoding, Handler, Unit, first_unit};
use std::alloc::{AllocError, Global};

/// What bytes from a place on decode to.
#[derive(Debug, Drop)]
pub struct Decoded {
    /// The characters up to the end of the bytes or up to a refused range.
    pub characters: Vec<char>,
    /// Where the refused range begins and the place after it, in bytes from the start of the list; `None` where
    /// nothing is refused.
    pub refusal: Option<(usize, usize)>,
}

/// What comes first of some bytes.
#[derive(Clone, Copy, Debug, PartialEq, Eq)]
pub enum FirstItem {
    /// Characters, or none, that stand for n bytes.
    Given { used: usize },
    /// A range of n bytes that the handler refuses.
    RefusedRange { length: usize },
    /// Bytes that may still become a character, where more may come.
    Unfinished,
}

/// Appends what a handler gives for the refused range of n bytes that `rest` begins with.
fn handled(
    alloc: Global,
    out: &mut Vec<char>,
    encoding: Encoding,
    handler: Handler,
    rest: &[u8],
    size: usize,
) -> Result<FirstItem, AllocError>
    requires some { 1 ≤ size }
    requires within { size ≤ length rest.now }
    ensures shown { IfOk result (λ item. (place : ℕ)
        → Gives (item_handled size (treatment handler encoding place rest.now size))
        out.old.items out.new.items item) }
    ensures within { IfOk result (IsSeenIn (length rest.now)) }
{
    match push_replacement(alloc, out, encoding, handler, rest, size)? {
        Some(used) => Ok(FirstItem::Given { used }),
        None => Ok(FirstItem::RefusedRange { length: size }),
    }
}

/// Appends the characters of what some bytes begin with, of which there is one; `last` says that none come after them.
///
/// `Err` is out of memory, after which some of those characters may stand there.
pub fn first_item(
    alloc: Global,
    out: &mut Vec<char>,
    encoding: Encoding,
    handler: Handler,
    bytes: &[u8],
    last: bool,
) -> Result<FirstItem, AllocError>
    requires { 0 < length bytes.now }
    ensures shown { IfOk result (λ item. (order : Order) (place : ℕ)
        → Gives (first_item encoding (treatment handler encoding) last order place bytes.now)
        out.old.items out.new.items item) }
    ensures within { IfOk result (IsSeenIn (length bytes.now)) }
{
    match first_unit(encoding, bytes).unwrap() {
        Unit::Character { character, length } => {
            out.push(character)?;
            Ok(FirstItem::Given { used: length })
        }
        Unit::Cut { .. } if !last => Ok(FirstItem::Unfinished),
        Unit::Malformed { length } | Unit::Cut { length } => {
            handled(alloc, out, encoding, handler, bytes, length)
        }
    }
}

/// The decoding of all the bytes from a place on; `last` says that none come after them. Where more may come a sequence that the
/// end cuts gives no characters and is no refusal.
///
/// A place at or past the end of the bytes gives no characters. The `Err` means out of memory.
pub fn decode(
    alloc: Global,
    encoding: Encoding,
    handler: Handler,
    bytes: &[u8],
    from: usize,
    last: bool,
) -> Result<Decoded, AllocError>
    ensures characters { IfOk result (λ d. (order : Order) → d.characters.items
        ≡ characters_of (decoding encoding (treatment handler encoding) last order bytes.now from).items) }
    ensures refusal { IfOk result (λ d. (order : Order) → d.refusal
        ≡ refusal_of (decoding encoding (treatment handler encoding) last order bytes.now from).ending) }
{
    let mut characters = Vec::new(alloc);
    let mut place = from;
    while place < bytes.len() {
        match first_item(
            alloc,
            &mut characters,
            encoding,
            handler,
            &bytes[place..],
            last,
        )? {
            FirstItem::Given { used } => place += used,
            FirstItem::Unfinished => {
                return Ok(Decoded {
                    characters,
                    refusal: None,
                });
            }
            FirstItem::RefusedRange { length } => {
                return Ok(Decoded {
                    characters,
                    refusal: Some((place, place + length)),
                });
            }
        }
    }
    Ok(Decoded {
        characters,
        refusal: None,
    })
}
