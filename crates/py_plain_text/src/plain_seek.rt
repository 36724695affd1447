ghost use Rattle.std.specs.Prelude.{◌≡◌, ◌+◌, ◌<◌, ◌≤◌, ℕ, true, None, ◌&&◌, not, nat_eq, nat_lt, nat_le, length, take, drop, option_map, encode_utf8_all, IfOk, IfSome};
ghost use Rattle.py_flat.specs.declared.fault.IoFault.TheVariants as fault;
ghost use Rattle.py_flat.specs.Refusals.{refused_if};
ghost use Rattle.py_plain.specs.declared.encoding.Encoding.{Encoding};
ghost use Rattle.py_plain.specs.Units.{Unknown};
ghost use Rattle.py_plain.specs.Handlers.{treatment};
ghost use Rattle.py_plain.specs.Items.{walk_from};
ghost use Rattle.py_plain_text.specs.Cookie.{parsed};
ghost use Rattle.py_plain_text.specs.CookieView.{cookie_shown};
ghost use Rattle.py_plain_text.specs.Landing.{start_of, fed_by, is_valid_cookie, only_item, is_restorable, lands};
ghost use Rattle.py_plain_text.specs.TextRefusals.{counts_on, are_zeros, argument_refusal};
ghost use Rattle.py_plain_text.specs.TextCalls.{SeekText};
ghost use Rattle.py_plain_text.specs.TextExact.{sought_cookie};
ghost use Rattle.py_plain_text.specs.declared.plain_place.PlainSettings.{PlainSettings};
ghost use Rattle.py_plain_text.specs.declared.plain_place.PlainPlace.{PlainPlace};
ghost use Rattle.py_plain_text.specs.PlainSteps.{place_shown, PlaceFits};
ghost use Rattle.py_plain_text.specs.PlainCookies.{text_at, sought_refusal, IsSound, landed_by, IsLanding};

use crate::plain_tell::{cookie_at, told, utf8_length};
use crate::text_cookie::{cookie_of, is_buildable};
use crate::{PlainFront, PlainPlace, PlainSettings, TextIOCookie};
use py_flat::IoFault;
use py_plain::{FirstItem, first_item};
use std::alloc::{AllocError, Global};

/// What refuses a cookie: that it has more than 25 bytes, a negative field, or an order, which no encoding keeps.
fn cookie_fault(cookie: &[u8]) -> Option<IoFault>
    ensures { (encoding : Encoding) → result ≡ refused_if (not (is_valid_cookie encoding (parsed cookie.now))) fault.InvalidCookie }
{
    match TextIOCookie::parse(cookie) {
        Some(cookie) if is_buildable(&cookie) && cookie.dec_flags == 0 => None,
        _ => Some(IoFault::InvalidCookie),
    }
}

/// Whether some bytes are all zero.
fn are_zeros(bytes: &[u8]) -> bool
    ensures { result ≡ are_zeros bytes.now }
{
    bytes.iter().all(|byte| *byte == 0)
}

/// Whether a seek that counts from the place or from the end has a cookie that isn't zeros.
fn counts_by_cookie(cookie: &[u8], whence: i64) -> bool
    ensures { result ≡ (counts_on whence && not (are_zeros cookie.now)) }
{
    matches!(whence, 1 | 2) && !are_zeros(cookie)
}

/// What is wrong with the arguments of a seek. An end past the greatest place needs no test, since no list of bytes is so long.
fn argument_fault(bytes: &[u8], cookie: &[u8], whence: i64) -> Option<IoFault>
    ensures { (settings : PlainSettings) (place : PlainPlace) → result
        ≡ argument_refusal (text_at bytes.now settings place) (SeekText cookie.now whence) }
{
    match whence {
        0..=2 => cookie_fault(cookie),
        _ => Some(IoFault::BadWhence),
    }
}

/// What refuses a seek of a live text: a cookie other than zeros behind whence 1 or 2, an unknown whence, a cookie that is invalid.
pub fn seek_fault(bytes: &[u8], cookie: &[u8], whence: i64) -> Option<IoFault>
    ensures { (settings : PlainSettings) (place : PlainPlace) → result
        ≡ sought_refusal (text_at bytes.now settings place) cookie.now whence }
{
    if counts_by_cookie(cookie, whence) {
        return Some(IoFault::Unsupported);
    }
    argument_fault(bytes, cookie, whence)
}

/// The cookie that a seek goes to, which nothing refuses: the one given; the text's own place; the end of its bytes.
pub(crate) fn sought(
    alloc: Global,
    settings: PlainSettings,
    bytes: &[u8],
    place: &PlainPlace,
    cookie: &[u8],
    whence: i64,
) -> Result<TextIOCookie, AllocError>
    requires fits { PlaceFits bytes.now settings place.now }
    requires accepted { sought_refusal (text_at bytes.now settings place.now) cookie.now whence ≡ None }
    ensures cookie { IfOk result (λ sought. cookie_shown sought ≡ sought_cookie (text_at bytes.now settings place.now) cookie.now whence) }
    ensures sound { IfOk result IsSound }
{
    match whence {
        1 => told(alloc, settings, bytes, place),
        2 => Ok(cookie_at(bytes.len())),
        _ => Ok(cookie_of(cookie)),
    }
}

/// Whether one to four bytes are fed, and so many lie at a cookie's start.
fn feeds_some(bytes: &[u8], start: usize, fed: usize) -> bool
    ensures is { result ≡ (nat_le 1 fed && (nat_le fed 4 && nat_eq (length (take fed (drop start bytes.now))) fed)) }
    ensures within { result ≡ true → (1 ≤ fed) × (fed ≤ 4) × (start + fed ≤ length bytes.now) }
{
    1 <= fed && fed <= 4 && fed.min(bytes.len().saturating_sub(start)) == fed
}

/// The characters of the one item that some bytes are; `last` says that none come after them.
fn only_item(
    alloc: Global,
    settings: PlainSettings,
    bytes: &[u8],
    last: bool,
) -> Result<Option<Vec<char>>, AllocError>
    requires { 1 ≤ length bytes.now }
    ensures only { IfOk result (λ characters. (place : ℕ) → option_map (λ v. v.items) characters
        ≡ only_item (length bytes.now) (walk_from settings.encoding (treatment settings.handler settings.encoding) last Unknown place 0 bytes.now).items (walk_from settings.encoding (treatment settings.handler settings.encoding) last Unknown place 0 bytes.now).ending) }
    ensures few { IfOk result (λ characters. IfSome characters (λ v. length v.items ≤ 1040)) }
{
    let mut characters = Vec::new(alloc);
    let (encoding, handler) = (settings.encoding, settings.handler);
    match first_item(alloc, &mut characters, encoding, handler, bytes, last)? {
        FirstItem::Given { used } => {
            if used == bytes.len() {
                Ok(Some(characters))
            } else {
                Ok(None)
            }
        }
        FirstItem::RefusedRange { .. } | FirstItem::Unfinished => Ok(None),
    }
}

/// Whether an item has more characters than are skipped, and those take so many bytes of UTF-8.
fn skips_within(characters: &[char], skipped: usize, size: usize) -> bool
    requires { length characters.now ≤ 1040 }
    ensures { result ≡ (nat_lt skipped (length characters.now) && nat_eq (length (encode_utf8_all (take skipped characters.now))) size) }
{
    skipped < characters.len() && utf8_length(&characters[..skipped]) == size
}

/// Whether a cookie that skips is accepted: the bytes fed are one item, in which the skipped characters lie.
fn is_restorable(
    alloc: Global,
    settings: PlainSettings,
    bytes: &[u8],
    cookie: &TextIOCookie,
) -> Result<bool, AllocError>
    requires { IsSound cookie.now }
    ensures is { IfOk result (λ b. (place : PlainPlace) → b ≡ is_restorable (text_at bytes.now settings place) (cookie_shown cookie.now)) }
    ensures within { IfOk result (λ b. b ≡ true → (fed_by (cookie_shown cookie.now) ≤ 4) × (start_of (cookie_shown cookie.now) + fed_by (cookie_shown cookie.now) ≤ length bytes.now)) }
{
    let start = cookie.start_pos.unsigned_abs() as usize;
    let fed = cookie.bytes_to_feed.unsigned_abs() as usize;
    if !feeds_some(bytes, start, fed) {
        return Ok(false);
    }
    match only_item(alloc, settings, &bytes[start..start + fed], cookie.need_eof)? {
        Some(characters) => Ok(skips_within(
            &characters,
            cookie.chars_to_skip.unsigned_abs() as usize,
            cookie.bytes_to_skip.unsigned_abs() as usize,
        )),
        None => Ok(false),
    }
}

/// Where a cookie puts a text, and whether that is as it says: else it is clean at its start, where its skipped characters aren't those
/// of one item there. The `Err` means out of memory.
pub(crate) fn lands(
    alloc: Global,
    settings: PlainSettings,
    bytes: &[u8],
    cookie: &TextIOCookie,
) -> Result<(PlainPlace, bool), AllocError>
    requires { IsSound cookie.now }
    ensures lands { IfOk result (λ landing. (place : PlainPlace) → lands (text_at bytes.now settings place) (cookie_shown cookie.now)
        ≡ landed_by landing.1 (place_shown landing.0)) }
    ensures fits { IfOk result (λ landing. IsLanding (length bytes.now) landing.0) }
{
    let start = cookie.start_pos.unsigned_abs() as usize;
    let skipped = cookie.chars_to_skip.unsigned_abs() as usize;
    if skipped == 0 {
        return Ok((PlainPlace::clean_at(start), true));
    }
    if !is_restorable(alloc, settings, bytes, cookie)? {
        return Ok((PlainPlace::clean_at(start), false));
    }
    let length = cookie.bytes_to_feed.unsigned_abs() as usize;
    let place = PlainPlace {
        front: Some(PlainFront {
            start,
            length,
            skipped,
        }),
        at: start + length,
        taken: 0,
        dirty: true,
    };
    Ok((place, true))
}
