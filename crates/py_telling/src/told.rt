ghost use Rattle.std.specs.Prelude.{◌≡◌, ◌+◌, ◌≤◌, ◌&&◌, ℕ, Bool, true, false, nat_eq, [], ◌∷◌, length};
ghost use Rattle.py_flat.specs.Limits.{greatest_place};
ghost use Rattle.py_plain.specs.Handlers.{reads_texts};
ghost use Rattle.py_plain_text.specs.CookieView.{cookie_shown};
ghost use Rattle.py_telling.specs.Spots.{at_byte, adds, holds, behind_lf, spot_behind, items_from};
ghost use Rattle.py_telling.specs.ToldView.{spot_shown, told_shown, IsTold, IsToldAmong};
ghost use Rattle.py_telling.specs.Walks.{IsWalked};

use crate::plain_run::plain_run;
use crate::seen_item::{SeenItem, first_seen};
use crate::walked::Walked;
use py_plain::{Encoding, Handler, Newlines};
use py_plain_text::TextIOCookie;

/// Where a text stands: at a byte, or inside the characters that stand for a refused range.
#[derive(Clone, Copy, Debug, PartialEq, Eq)]
pub struct Told {
    /// That byte, or the first of the range, in bytes from the start of the stream.
    pub start: u64,
    /// How many bytes the range has; 0 at a byte.
    pub length: usize,
    /// How many of the range's characters are skipped; 0 at a byte.
    pub skipped: usize,
}

impl Told {
    /// The cookie that tells it, in an encoding without a mark.
    pub fn cookie(&self) -> TextIOCookie
        requires { IsTold self.now }
        ensures { cookie_shown result ≡ told_shown self.now }
    {
        let boundary = TextIOCookie {
            start_pos: self.start as i64,
            ..TextIOCookie::default()
        };
        if self.skipped == 0 {
            return boundary;
        }
        TextIOCookie {
            bytes_to_feed: self.length as i32,
            chars_to_skip: self.skipped as i32,
            need_eof: true,
            bytes_to_skip: self.skipped as i32,
            ..boundary
        }
    }
}

/// Whether a CR is held behind a character.
fn is_held(newline: Newlines, character: char) -> bool
    ensures { (held : Bool) → result ≡ holds newline held (character ∷ []) }
{
    matches!(newline, Newlines::Universal) && character == '\r'
}

/// Whether a CR is held behind so many characters that stand for a refused range.
fn stays_held(held: bool, count: usize) -> bool
    ensures { result ≡ (held && nat_eq count 0) }
{
    held && count == 0
}

/// How many characters a character adds to those that are given: an LF behind a CR that is held adds none.
fn added(held: bool, character: char) -> usize
    ensures adds { result ≡ adds held (character ∷ []) }
    ensures few { result ≤ 1 }
{
    if held && character == '\n' { 0 } else { 1 }
}

/// A byte of those that stand at a place.
fn boundary(place: u64, at: usize) -> Told
    requires near { place + at ≤ greatest_place }
    ensures spot { spot_shown result ≡ at_byte (place + at) }
    ensures start { result.start ≡ place + at }
    ensures length { result.length ≡ 0 }
    ensures within { IsTold result }
{
    Told {
        start: place + at as u64,
        length: 0,
        skipped: 0,
    }
}

/// The place behind an LF that is the next character from a place on, else that place.
fn behind_lf(encoding: Encoding, handler: Handler, bytes: &[u8], at: usize, last: bool) -> usize
    requires reads { reads_texts handler ≡ true }
    requires within { at ≤ length bytes.now }
    ensures behind { (place : ℕ) → place + result
        ≡ behind_lf (place + at) (items_from encoding handler last place at bytes.now) }
    ensures within { result ≤ length bytes.now }
{
    let mut next = at;
    while next < bytes.len() {
        match first_seen(encoding, handler, &bytes[next..], last) {
            SeenItem::Character { character, used } => {
                if character == '\n' {
                    return next + used;
                }
                return at;
            }
            SeenItem::Replaced { count, used } => {
                if count > 0 {
                    return at;
                }
                next += used;
            }
            SeenItem::Refused | SeenItem::Unfinished => return at,
        }
    }
    at
}

/// The spot behind so many characters of some bytes that stand at a place, or the end of those that can be read; and the last boundary
/// that was walked to. The walk goes on from where one came to before.
fn spot_among(
    encoding: Encoding,
    handler: Handler,
    newline: Newlines,
    bytes: &[u8],
    place: u64,
    given: u128,
    from: Walked,
    last: bool,
) -> (Told, Walked)
    requires reads { reads_texts handler ≡ true }
    requires near { place + length bytes.now ≤ greatest_place }
    requires walked { IsWalked encoding handler newline bytes.now given from }
    ensures spot { spot_shown result.0 ≡ spot_behind newline given false place (items_from encoding handler last place 0 bytes.now) }
    ensures forth { place ≤ result.0.start }
    ensures fits { result.0.start + result.0.length ≤ place + length bytes.now }
    ensures within { IsTold result.0 }
    ensures walked { last ≡ false → IsWalked encoding handler newline bytes.now given result.1 }
{
    let mut walked = from;
    while walked.count < given {
        let at = walked.passed;
        if at >= bytes.len() {
            return (boundary(place, at), walked);
        }
        let run = plain_run(encoding, walked.held, &bytes[at..], given - walked.count);
        if run > 0 {
            walked = Walked {
                passed: at + run,
                count: walked.count + run as u128,
                held: false,
            };
            continue;
        }
        match first_seen(encoding, handler, &bytes[at..], last) {
            SeenItem::Character { character, used } => {
                walked = Walked {
                    passed: at + used,
                    count: walked.count + added(walked.held, character) as u128,
                    held: is_held(newline, character),
                };
            }
            SeenItem::Replaced { count, used } => {
                let left = given - walked.count;
                if left < count as u128 {
                    let inside = Told {
                        start: place + at as u64,
                        length: used,
                        skipped: left as usize,
                    };
                    return (inside, walked);
                }
                walked = Walked {
                    passed: at + used,
                    count: walked.count + count as u128,
                    held: stays_held(walked.held, count),
                };
            }
            SeenItem::Refused | SeenItem::Unfinished => return (boundary(place, at), walked),
        }
    }
    if walked.held {
        let next = behind_lf(encoding, handler, bytes, walked.passed, last);
        return (boundary(place, next), walked);
    }
    (boundary(place, walked.passed), walked)
}

/// Where a text stands of which so many characters were given since a place, by the bytes in hand from there on; `last` says that none
/// come behind them. It is what the text tells where these bytes surely give so many, whatever comes behind them.
///
/// It is the first byte between two characters, or refused ranges, from which the text goes on as it does, never one inside CR LF that is
/// read as one; and where there is none, inside the characters that stand for one refused range.
///
/// The bytes are read from where a walk came to before, `from` (`Walked::default()` where none did): runs of ASCII without CR at once, and
/// anything else one character or one refused range at a time. How far this walk came is answered beside the place: the next one goes on
/// from there, also where bytes come behind these and more characters are given. Where none come behind them (`last`) they are walked as if
/// some might, and what is left from there as the last: that walk was right for their end alone, and how far it came isn't answered.
pub fn told_among(
    encoding: Encoding,
    handler: Handler,
    newline: Newlines,
    bytes: &[u8],
    place: u64,
    given: u128,
    from: Walked,
    last: bool,
) -> (Told, Walked)
    requires reads { reads_texts handler ≡ true }
    requires near { place + length bytes.now ≤ greatest_place }
    requires walked { IsWalked encoding handler newline bytes.now given from }
    ensures told { IsToldAmong encoding handler newline last place given bytes.now result.0 }
    ensures forth { place ≤ result.0.start }
    ensures fits { result.0.start + result.0.length ≤ place + length bytes.now }
    ensures within { IsTold result.0 }
    ensures walked { IsWalked encoding handler newline bytes.now given result.1 }
{
    let (told, walked) = spot_among(encoding, handler, newline, bytes, place, given, from, false);
    if !last {
        return (told, walked);
    }
    let (told, _) = spot_among(
        encoding, handler, newline, bytes, place, given, walked, last,
    );
    (told, walked)
}
