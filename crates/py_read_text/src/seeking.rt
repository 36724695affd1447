//! Moving the buffer of a text to a place, and reading what a cookie feeds there.
ghost use Rattle.std.specs.Prelude.{◌≡◌, ◌≤◌, ◌-◌, true, false, [], vec_len, vec_capacity};
ghost use Rattle.py_flat.specs.Limits.{greatest_place};
ghost use Rattle.py_flat.specs.Refusals.{is_unbuffered};
ghost use Rattle.py_plain.specs.Handlers.{reads_texts};
ghost use Rattle.py_plain_text.specs.CookieView.{cookie_shown};
ghost use Rattle.py_plain_text.specs.Landing.{start_of, fed_by, skipped_by, skips};
ghost use Rattle.py_read_text.specs.Seeking.{CanGo, GoOutcome, CanFeed, FeedOutcome, LookedAt, FedOutcome, GoesBack, LandOutcome};

use crate::faults::is_no_memory;
use py_blocks::front_of;
use py_flat::IoFault;
use py_held_text::{Coder, HeldFront, decoded_alone};
use py_plain_text::TextIOCookie;
use py_stream::BufferedStream;
use py_telling::restores;
use std::alloc::Global;

/// The most bytes that a cookie feeds: no item has more.
pub(crate) const MOST_FED: usize = 4;

/// Moves a live buffer to a byte place, once it has passed on all that it owes.
pub(crate) fn go_to<B: BufferedStream>(buffer: &mut B, place: u64) -> Result<(), IoFault>
    requires can { CanGo (B.shows buffer.old) }
    requires near { place ≤ greatest_place }
    ensures outcome { GoOutcome (B.shows buffer.old) place result (B.shows buffer.new) }
{
    match buffer.flush() {
        Ok(()) => match buffer.seek(place as i64, 0) {
            Ok(_) => Ok(()),
            Err(fault) => Err(fault),
        },
        Err(fault) => Err(fault),
    }
}

/// Reads the next n bytes of a live buffer into an empty vector that has room for them, or all that are left where those are fewer. It answers
/// whether they came: else the raw would have blocked before.
pub(crate) fn feed<B: BufferedStream>(
    buffer: &mut B,
    alloc: Global,
    size: usize,
    fed: &mut Vec<u8>,
) -> Result<bool, IoFault>
    requires can { CanFeed (B.shows buffer.old) }
    requires reads { (B.shows buffer.old).can.readable ≡ true }
    requires none { fed.old.items ≡ [] }
    requires room { size ≤ vec_capacity fed.old - vec_len fed.old }
    ensures outcome { FeedOutcome (B.shows buffer.old) size result fed.new.items (B.shows buffer.new) }
{
    while fed.len() < size {
        match buffer.read1(alloc, Some(size - fed.len())) {
            Ok(Some(part)) => {
                if part.is_empty() {
                    return Ok(true);
                }
                fed.extend_from_slice(&part).unwrap();
            }
            Ok(None) => return Ok(false),
            Err(fault) => return Err(fault),
        }
    }
    Ok(true)
}

/// Where a cookie's text begins, in bytes from the start of the stream.
pub(crate) fn start_of(cookie: &TextIOCookie) -> u64
    ensures { result ≡ start_of (cookie_shown cookie.now) }
{
    cookie.start_pos.unsigned_abs()
}

/// How many bytes a cookie feeds.
fn fed_by(cookie: &TextIOCookie) -> usize
    ensures { result ≡ fed_by (cookie_shown cookie.now) }
{
    cookie.bytes_to_feed.unsigned_abs() as usize
}

/// How many characters a cookie skips.
fn skipped_by(cookie: &TextIOCookie) -> usize
    ensures { result ≡ skipped_by (cookie_shown cookie.now) }
{
    cookie.chars_to_skip.unsigned_abs() as usize
}

/// Whether a cookie skips characters.
pub(crate) fn skips(cookie: &TextIOCookie) -> bool
    ensures { result ≡ skips (cookie_shown cookie.now) }
{
    skipped_by(cookie) != 0
}

/// What the bytes that a cookie feeds came to.
pub(crate) enum Fed {
    /// They are one item: its characters, of which a front is skipped.
    Fits(String, HeldFront),
    /// They aren't one item, or what is skipped isn't a front of it that leaves some, or the buffer can't be read.
    Unfit,
    /// The raw would have blocked before they came.
    Waits,
}

/// What the bytes come to that a cookie feeds: all of them, or all that there are.
fn look_at_fed(
    alloc: Global,
    coder: Coder,
    cookie: &TextIOCookie,
    fed: &[u8],
) -> Result<Fed, IoFault>
    requires reads { reads_texts coder.errors ≡ true }
    ensures outcome { LookedAt coder.encoding coder.errors (cookie_shown cookie.now) fed.now result }
{
    if !restores(coder.encoding, coder.errors, cookie, fed) {
        return Ok(Fed::Unfit);
    }
    let text = decoded_alone(alloc, coder, fed)?;
    let skipped = front_of(&text, skipped_by(cookie));
    Ok(Fed::Fits(text, skipped))
}

/// Reads what a cookie that skips feeds, where the live buffer stands, and looks whether it fits. A buffer that can't be read has nothing that fits.
fn read_fed<B: BufferedStream>(
    buffer: &mut B,
    alloc: Global,
    coder: Coder,
    cookie: &TextIOCookie,
    fed: &mut Vec<u8>,
) -> Result<Fed, IoFault>
    requires can { CanFeed (B.shows buffer.old) }
    requires reads { reads_texts coder.errors ≡ true }
    requires none { fed.old.items ≡ [] }
    requires room { 4 ≤ vec_capacity fed.old - vec_len fed.old }
    ensures outcome { FedOutcome (B.shows buffer.old) coder.encoding coder.errors (cookie_shown cookie.now) result fed.new.items (B.shows buffer.new) }
{
    let size = fed_by(cookie);
    if !buffer.readable() || size == 0 || size > MOST_FED {
        return Ok(Fed::Unfit);
    }
    match feed(buffer, alloc, size, fed) {
        Ok(true) => look_at_fed(alloc, coder, cookie, fed),
        Ok(false) => Ok(Fed::Waits),
        Err(fault) => Err(fault),
    }
}

/// Where a cookie that skips put a buffer.
pub(crate) enum Landing {
    /// Behind the item that it feeds: its characters, of which a front is skipped.
    Inside(String, HeldFront),
    /// Behind what came of the bytes at its start, and what refuses it.
    Start(IoFault),
    /// Where the buffer stood, and what refuses it.
    Back(IoFault),
}

/// Moves a live buffer back to where it stood, since memory ran out.
fn go_back<B: BufferedStream>(buffer: &mut B, from: u64) -> Landing
    requires can { CanGo (B.shows buffer.old) }
    requires near { from ≤ greatest_place }
    ensures back { GoesBack (B.shows buffer.old) from result (B.shows buffer.new) }
{
    match go_to(buffer, from) {
        Ok(()) => Landing::Back(IoFault::NoMemory),
        Err(fault) => Landing::Start(fault),
    }
}

/// Moves a live buffer to the start of a cookie that skips, and reads there what it feeds. Out of memory it goes back to where it stood.
pub(crate) fn land<B: BufferedStream>(
    buffer: &mut B,
    alloc: Global,
    coder: Coder,
    cookie: &TextIOCookie,
    from: u64,
    fed: &mut Vec<u8>,
) -> Landing
    requires can { CanGo (B.shows buffer.old) }
    requires buffered { is_unbuffered (B.shows buffer.old).buffering ≡ false }
    requires stood { from ≡ (B.shows buffer.old).place }
    requires far { from ≤ greatest_place }
    requires near { start_of (cookie_shown cookie.now) ≤ greatest_place }
    requires reads { reads_texts coder.errors ≡ true }
    requires none { fed.old.items ≡ [] }
    requires room { 4 ≤ vec_capacity fed.old - vec_len fed.old }
    ensures outcome { LandOutcome (B.shows buffer.old) coder.encoding coder.errors (cookie_shown cookie.now) result fed.new.items (B.shows buffer.new) }
{
    match go_to(buffer, start_of(cookie)) {
        Ok(()) => match read_fed(buffer, alloc, coder, cookie, fed) {
            Ok(Fed::Fits(text, skipped)) => Landing::Inside(text, skipped),
            Ok(Fed::Unfit) => Landing::Start(IoFault::CannotRestore),
            Ok(Fed::Waits) => Landing::Start(IoFault::WouldBlock { taken: 0 }),
            Err(fault) => {
                if is_no_memory(fault) {
                    return go_back(buffer, from);
                }
                Landing::Start(fault)
            }
        },
        Err(fault) => Landing::Back(fault),
    }
}
