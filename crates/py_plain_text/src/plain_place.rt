ghost use Rattle.std.specs.Prelude.{◌≡◌, ◌+◌, ◌^◌, ◌<◌, ◌≤◌, true, false, length, drop, option_map, IfOk};
ghost use Rattle.py_plain.specs.Units.{Unknown};
ghost use Rattle.py_plain_text.specs.TextFile.{clean_at};
ghost use Rattle.py_plain_text.specs.Rest.{front_characters};
ghost use Rattle.py_plain_text.specs.PlainSteps.{settings_shown, front_shown, place_shown, rest_at, whole_rest, LiesWithin, IsShort, PlaceFits};

use py_plain::{Decoded, Encoding, Handler, Newlines, decode, translate};
use std::alloc::{AllocError, Global};

/// The greatest place of a stream, a signed number of 64 bits.
pub(crate) const GREATEST_PLACE: usize = 9_223_372_036_854_775_807;

/// What a plain text is read and written by.
#[derive(Clone, Copy, Debug, PartialEq, Eq)]
pub struct PlainSettings {
    /// What its characters are in bytes.
    pub encoding: Encoding,
    /// What stands for bytes that are no character, and for characters without bytes.
    pub handler: Handler,
    /// The rule of its line ends.
    pub newline: Newlines,
}

/// An item of which the first characters are skipped. Its bytes are decoded by themselves, as if none came behind them.
#[derive(Clone, Copy, Debug, PartialEq, Eq)]
pub struct PlainFront {
    /// Its first byte, from the start of the text.
    pub start: usize,
    /// How many bytes it has.
    pub length: usize,
    /// How many of its characters are skipped.
    pub skipped: usize,
}

/// A place in a plain text: what is left of an item, then the text from a byte on, less the characters taken since.
#[derive(Clone, Copy, Debug, PartialEq, Eq)]
pub struct PlainPlace {
    /// The item of which some characters are left, before the text from `at` on.
    pub front: Option<PlainFront>,
    /// The byte from which the text goes on, from the start of the text.
    pub at: usize,
    /// How many characters were taken, of the front and of the text behind it.
    pub taken: usize,
    /// Whether the text was read from, so that it has to be sought before it is written.
    pub dirty: bool,
}

impl PlainPlace {
    /// A byte, from which nothing was taken.
    pub fn clean_at(at: usize) -> Self
        ensures { place_shown result ≡ clean_at at Unknown }
    {
        PlainPlace {
            front: None,
            at,
            taken: 0,
            dirty: false,
        }
    }
}

/// The characters past the first n.
fn past(alloc: Global, characters: &[char], count: usize) -> Result<Vec<char>, AllocError>
    ensures { IfOk result (λ v. v.items ≡ drop count characters.now) }
{
    Vec::from_slice(alloc, &characters[count.min(characters.len())..])
}

/// The characters of a front past those skipped.
pub(crate) fn front_characters(
    alloc: Global,
    settings: PlainSettings,
    bytes: &[u8],
    front: Option<PlainFront>,
) -> Result<Vec<char>, AllocError>
    requires { LiesWithin (length bytes.now) front }
    ensures { IfOk result (λ v. v.items
        ≡ front_characters (settings_shown settings) Unknown bytes.now (option_map front_shown front)) }
{
    let Some(front) = front else {
        return Ok(Vec::new(alloc));
    };
    let end = front.start + front.length;
    let decoded = decode(
        alloc,
        settings.encoding,
        settings.handler,
        &bytes[..end],
        front.start,
        true,
    )?;
    past(alloc, &decoded.characters, front.skipped)
}

/// What is left of some bytes from a place on: the characters up to the end or a refused range, without those that were taken,
/// and that range in bytes from the start of the list. `last` says that none come behind the bytes.
///
/// Where more may come it is what is surely left, whatever they are: a sequence that the end cuts gives nothing yet and is no
/// refusal, and a CR at the end is held by the universal rule. Characters that were taken beyond what is sure leave nothing. A place
/// at or past the end of the bytes has nothing left behind its front. The `Err` means out of memory.
pub fn left(
    alloc: Global,
    settings: PlainSettings,
    bytes: &[u8],
    place: &PlainPlace,
    last: bool,
) -> Result<Decoded, AllocError>
    requires within { LiesWithin (length bytes.now) place.now.front }
    ensures characters { IfOk result (λ d. d.characters.items ≡ (rest_at last bytes.now settings place.now).characters) }
    ensures refusal { IfOk result (λ d. d.refusal ≡ (rest_at last bytes.now settings place.now).refusal) }
    ensures fits { IfOk result (λ d. place.now.taken + length d.characters.items < 2 ^ 64) }
{
    let mut characters = front_characters(alloc, settings, bytes, place.front)?;
    let decoded = decode(
        alloc,
        settings.encoding,
        settings.handler,
        bytes,
        place.at,
        last,
    )?;
    let behind = translate(alloc, settings.newline, &decoded.characters, last)?;
    characters.extend_from_slice(&behind)?;
    Ok(Decoded {
        characters: past(alloc, &characters, place.taken)?,
        refusal: decoded.refusal,
    })
}

/// Whether a front lies within so many bytes.
fn lies_within(size: usize, front: Option<PlainFront>) -> bool
    ensures is { result ≡ true → LiesWithin size front }
    ensures is_not { result ≡ false → LiesWithin size front → ⊥ }
{
    match front {
        None => true,
        Some(front) => front.start <= size && front.length <= size - front.start,
    }
}

/// Whether a front has no more bytes than an item.
fn is_short(front: Option<PlainFront>) -> bool
    ensures is { result ≡ true → IsShort front }
    ensures is_not { result ≡ false → IsShort front → ⊥ }
{
    match front {
        None => true,
        Some(front) => front.length <= 4,
    }
}

/// Whether no more characters are taken at a place than there are.
fn takes_what_is_there(
    alloc: Global,
    settings: PlainSettings,
    bytes: &[u8],
    place: &PlainPlace,
) -> Result<bool, AllocError>
    requires within { LiesWithin (length bytes.now) place.now.front }
    ensures is { IfOk result (λ b. b ≡ true → place.now.taken ≤ length (whole_rest bytes.now settings place.now).characters) }
    ensures is_not { IfOk result (λ b. b ≡ false → place.now.taken ≤ length (whole_rest bytes.now settings place.now).characters → ⊥) }
{
    let untaken = PlainPlace { taken: 0, ..*place };
    let whole = left(alloc, settings, bytes, &untaken, true)?;
    Ok(place.taken <= whole.characters.len())
}

/// Whether a place fits some bytes: its front lies within them and has four bytes at most, its byte is no further than a stream can
/// stand, and no more characters are taken than there are; one that isn't dirty stands at a byte. The `Err` means out of memory.
pub(crate) fn fits(
    alloc: Global,
    settings: PlainSettings,
    bytes: &[u8],
    place: &PlainPlace,
) -> Result<bool, AllocError>
    ensures is { IfOk result (λ b. b ≡ true → PlaceFits bytes.now settings place.now) }
    ensures is_not { IfOk result (λ b. b ≡ false → PlaceFits bytes.now settings place.now → ⊥) }
{
    if !place.dirty && (place.front.is_some() || place.taken != 0) {
        return Ok(false);
    }
    if !lies_within(bytes.len(), place.front) {
        return Ok(false);
    }
    if !is_short(place.front) || place.at > GREATEST_PLACE {
        return Ok(false);
    }
    takes_what_is_there(alloc, settings, bytes, place)
}
