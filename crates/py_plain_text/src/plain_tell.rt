ghost use Rattle.std.specs.Prelude.{◌≡◌, ◌<◌, ◌≤◌, true, [], ◌∷◌, length, take, map, find, option_map, encode_utf8_all, IfOk, IfSome};
ghost use Rattle.py_flat.specs.Limits.{greatest_place};
ghost use Rattle.py_plain.specs.Units.{Unknown};
ghost use Rattle.py_plain_text.specs.Cookie.{boundary_cookie};
ghost use Rattle.py_plain_text.specs.CookieView.{cookie_shown};
ghost use Rattle.py_plain_text.specs.Telling.{same_range, gives_rest, end_of_item, boundaries, inside_items, inside_of, inside_cookie, told};
ghost use Rattle.py_plain_text.specs.PlainSteps.{rest_at, PlaceFits};
ghost use Rattle.py_plain_text.specs.PlainCookies.{text_at, items_from, PassesItem};

use crate::plain_place::{front_characters, left};
use crate::{PlainFront, PlainPlace, PlainSettings, TextIOCookie};
use py_plain::{Decoded, FirstItem, first_item, translate};
use std::alloc::{AllocError, Global};

/// Appends the characters of the item at a place before the end of the bytes, and answers how many bytes it has; `None` where no
/// item stands there.
fn next_item(
    alloc: Global,
    settings: PlainSettings,
    bytes: &[u8],
    place: usize,
    out: &mut Vec<char>,
) -> Result<Option<usize>, AllocError>
    requires { place < length bytes.now }
    ensures { IfOk result (PassesItem settings bytes.now place out.old.items out.new.items) }
{
    let (encoding, handler) = (settings.encoding, settings.handler);
    match first_item(alloc, out, encoding, handler, &bytes[place..], true)? {
        FirstItem::Given { used } => Ok(Some(used)),
        FirstItem::RefusedRange { .. } | FirstItem::Unfinished => Ok(None),
    }
}

/// Whether two refused ranges are the same.
fn is_same_range(one: Option<(usize, usize)>, other: Option<(usize, usize)>) -> bool
    ensures { result ≡ same_range one other }
{
    match (one, other) {
        (None, None) => true,
        (Some((start, end)), Some((other_start, other_end))) => {
            start == other_start && end == other_end
        }
        _ => false,
    }
}

/// Whether a byte has the same left as a place; `rest` is what that has left.
fn gives_rest(
    alloc: Global,
    settings: PlainSettings,
    bytes: &[u8],
    place: &PlainPlace,
    rest: &Decoded,
    at: usize,
) -> Result<bool, AllocError>
    requires characters { rest.now.characters.items ≡ (rest_at true bytes.now settings place.now).characters }
    requires refusal { rest.now.refusal ≡ (rest_at true bytes.now settings place.now).refusal }
    ensures { IfOk result (λ b. b ≡ gives_rest (text_at bytes.now settings place.now) at) }
{
    let here = left(alloc, settings, bytes, &PlainPlace::clean_at(at), true)?;
    Ok(here.characters == rest.characters && is_same_range(here.refusal, rest.refusal))
}

/// The first boundary between the items from a place's byte on that has the same left as the place; `rest` is what that has left.
fn boundary(
    alloc: Global,
    settings: PlainSettings,
    bytes: &[u8],
    place: &PlainPlace,
    rest: &Decoded,
) -> Result<Option<usize>, AllocError>
    requires reach { place.now.at ≤ greatest_place }
    requires characters { rest.now.characters.items ≡ (rest_at true bytes.now settings place.now).characters }
    requires refusal { rest.now.refusal ≡ (rest_at true bytes.now settings place.now).refusal }
    ensures found { IfOk result (λ found. found
        ≡ find (gives_rest (text_at bytes.now settings place.now)) (boundaries (text_at bytes.now settings place.now))) }
    ensures reach { IfOk result (λ found. IfSome found (λ boundary. boundary ≤ greatest_place)) }
{
    let mut passed = Vec::new(alloc);
    let mut at = place.at;
    while at < bytes.len() {
        if gives_rest(alloc, settings, bytes, place, rest, at)? {
            return Ok(Some(at));
        }
        match next_item(alloc, settings, bytes, at, &mut passed)? {
            Some(used) => at += used,
            None => return Ok(None),
        }
    }
    Ok(gives_rest(alloc, settings, bytes, place, rest, at)?.then_some(at))
}

/// How many bytes of UTF-8 some characters take.
pub(crate) fn utf8_length(characters: &[char]) -> usize
    requires { length characters.now ≤ 1040 }
    ensures length { result ≡ length (encode_utf8_all characters.now) }
    ensures few { result ≤ 4160 }
{
    let mut length = 0;
    for character in characters {
        length += character.len_utf8();
    }
    length
}

/// The cookie of a place behind so many characters of an item.
fn cookie_inside(start: usize, size: usize, characters: &[char], count: usize) -> TextIOCookie
    requires reach { start ≤ greatest_place }
    requires few { size ≤ 4 }
    requires short { length characters.now ≤ 1040 }
    ensures { cookie_shown result
        ≡ inside_cookie Unknown (record { start = start; length = size; taken = take count characters.now }) }
{
    let taken = &characters[..count.min(characters.len())];
    TextIOCookie {
        start_pos: start as i64,
        dec_flags: 0,
        bytes_to_feed: size as i32,
        chars_to_skip: taken.len() as i32,
        need_eof: true,
        bytes_to_skip: utf8_length(taken) as i32,
    }
}

/// The cookie of the item behind a byte in which the character after n others stands; `None` where it stands in none.
fn inside_behind(
    alloc: Global,
    settings: PlainSettings,
    bytes: &[u8],
    from: usize,
    count: usize,
) -> Result<Option<TextIOCookie>, AllocError>
    requires { from ≤ greatest_place }
    ensures { IfOk result (λ cookie. option_map cookie_shown cookie
        ≡ option_map (inside_cookie Unknown) (inside_items settings.newline count [] (items_from settings bytes.now from))) }
{
    let mut passed = Vec::new(alloc);
    let mut at = from;
    while at < bytes.len() {
        let known = passed.len();
        let read = translate(alloc, settings.newline, &passed, true)?.len();
        let Some(used) = next_item(alloc, settings, bytes, at, &mut passed)? else {
            return Ok(None);
        };
        if count < translate(alloc, settings.newline, &passed, true)?.len() {
            return Ok(Some(cookie_inside(at, used, &passed[known..], count.saturating_sub(read))));
        }
        at += used;
    }
    Ok(None)
}

/// The cookie of the item in which a text stands: its front, where not all of that was taken, else one behind it; `None` where it
/// stands in none.
fn inside(
    alloc: Global,
    settings: PlainSettings,
    bytes: &[u8],
    place: &PlainPlace,
) -> Result<Option<TextIOCookie>, AllocError>
    requires { PlaceFits bytes.now settings place.now }
    ensures { IfOk result (λ cookie. option_map cookie_shown cookie
        ≡ option_map (inside_cookie Unknown) (inside_of (text_at bytes.now settings place.now) (text_at bytes.now settings place.now).place.front)) }
{
    let Some(front) = place.front else {
        return inside_behind(alloc, settings, bytes, place.at, place.taken);
    };
    let mut unskipped = front;
    unskipped.skipped = 0;
    let whole = front_characters(alloc, settings, bytes, Some(unskipped))?;
    let left = whole.len().saturating_sub(front.skipped);
    if place.taken < left {
        let taken = front.skipped + place.taken;
        return Ok(Some(cookie_inside(front.start, front.length, &whole, taken)));
    }
    inside_behind(alloc, settings, bytes, place.at, place.taken - left)
}

/// The cookie of a byte, from which nothing is skipped.
pub(crate) fn cookie_at(boundary: usize) -> TextIOCookie
    requires { boundary ≤ greatest_place }
    ensures { cookie_shown result ≡ boundary_cookie boundary 0 }
{
    TextIOCookie {
        start_pos: boundary as i64,
        ..TextIOCookie::default()
    }
}

/// The cookie that tells a place: of the first boundary between items that has the same left, else of the item in which it stands. The
/// `Err` means out of memory.
pub(crate) fn told(
    alloc: Global,
    settings: PlainSettings,
    bytes: &[u8],
    place: &PlainPlace,
) -> Result<TextIOCookie, AllocError>
    requires { PlaceFits bytes.now settings place.now }
    ensures { IfOk result (λ cookie. cookie_shown cookie ≡ told (text_at bytes.now settings place.now)) }
{
    let rest = left(alloc, settings, bytes, place, true)?;
    if let Some(boundary) = boundary(alloc, settings, bytes, place, &rest)? {
        return Ok(cookie_at(boundary));
    }
    Ok(inside(alloc, settings, bytes, place)?.unwrap_or(cookie_at(place.at)))
}
