ghost use Rattle.std.specs.Prelude.{◌≡◌, ◌<◌, ◌≤◌, ◌&&◌, ℕ, true, length};
ghost use Rattle.py_plain.specs.Units.{Order, Unknown};
ghost use Rattle.py_plain.specs.Handlers.{treatment, reads_texts};
ghost use Rattle.py_plain.specs.Items.{characters_of, walk_from};
ghost use Rattle.py_plain.specs.Pieces.{walk_at};
ghost use Rattle.py_plain_text.specs.TextFile.{TextFile};
ghost use Rattle.py_plain_text.specs.CookieView.{cookie_shown};
ghost use Rattle.py_plain_text.specs.Landing.{fed_by, skipped_by, only_item, is_restorable};
ghost use Rattle.py_telling.specs.Restoring.{feeds, skips_fewer, IsCount, FeedsOf};

use crate::seen_item::{SeenItem, first_seen};
use py_plain::{Encoding, Handler};
use py_plain_text::TextIOCookie;

/// Whether as many bytes lie at a cookie's start as it feeds, one to four.
fn feeds(cookie: &TextIOCookie, fed: &[u8]) -> bool
    ensures { result ≡ feeds (cookie_shown cookie.now) fed.now }
{
    let size = cookie.bytes_to_feed.unsigned_abs() as usize;
    1 <= size && size <= 4 && fed.len() == size
}

/// Whether a cookie skips fewer than so many characters, and as many bytes as characters.
fn skips_fewer(cookie: &TextIOCookie, count: usize) -> bool
    ensures { result ≡ skips_fewer (cookie_shown cookie.now) count }
{
    let skipped = cookie.chars_to_skip.unsigned_abs();
    (skipped as usize) < count && skipped == cookie.bytes_to_skip.unsigned_abs()
}

/// How many characters the one item has that some bytes are, of which there is one; 0 where they aren't one item.
fn count_in_item(encoding: Encoding, handler: Handler, bytes: &[u8], last: bool) -> usize
    requires reads { reads_texts handler ≡ true }
    requires some { 0 < length bytes.now }
    ensures { (order : Order) (place : ℕ) → IsCount result (only_item (length bytes.now)
        (walk_at encoding (treatment handler encoding) last order place bytes.now).items
        (walk_at encoding (treatment handler encoding) last order place bytes.now).ending) }
{
    match first_seen(encoding, handler, bytes, last) {
        SeenItem::Character { used, .. } => {
            if used == bytes.len() {
                return 1;
            }
            0
        }
        SeenItem::Replaced { count, used } => {
            if used == bytes.len() {
                return count;
            }
            0
        }
        SeenItem::Refused | SeenItem::Unfinished => 0,
    }
}

/// Whether a cookie that skips characters fits the bytes that lie at its start, as many as it feeds, or fewer where the text ends
/// before: they are one item, and what is skipped lies within its characters. Decoded as the last bytes they are one item too, with more
/// characters than are skipped.
pub fn restores(encoding: Encoding, handler: Handler, cookie: &TextIOCookie, fed: &[u8]) -> bool
    requires { reads_texts handler ≡ true }
    ensures restorable { (file : TextFile) → FeedsOf encoding handler (cookie_shown cookie.now) fed.now file
        → is_restorable file (cookie_shown cookie.now) ≡ (file.can.readable && result) }
    ensures feeds { result ≡ true → (1 ≤ length fed.now) × (length fed.now ≤ 4) × (length fed.now ≡ fed_by (cookie_shown cookie.now)) }
    ensures inside { result ≡ true → (place : ℕ) → skipped_by (cookie_shown cookie.now)
        < length (characters_of (walk_from encoding (treatment handler encoding) true Unknown place 0 fed.now).items) }
{
    if !feeds(cookie, fed) {
        return false;
    }
    skips_fewer(
        cookie,
        count_in_item(encoding, handler, fed, cookie.need_eof),
    )
}
