ghost use Rattle.std.specs.Prelude.{◌≡◌, ◌<◌, ◌^◌, option_map, slice_index};
ghost use Rattle.std.specs.Int.{w32, w64};
ghost use Rattle.py_plain_text.specs.Cookie.{parsed, built, is_buildable, cookie_of, number_at};
ghost use Rattle.py_plain_text.specs.CookieView.{cookie_shown};

/// The cookie of a place in a text, by the names of Python's own: where the text begins, in bytes; and, of a place inside
/// what stands for a refused range, how many bytes that range has and what of it is skipped.
#[derive(Clone, Copy, Debug, Default, PartialEq, Eq)]
pub struct TextIOCookie {
    /// Where the text begins, in bytes from the start of the stream.
    pub start_pos: i64,
    /// The order of a mark that was read: 0 where none was.
    pub dec_flags: i32,
    /// How many bytes the range has whose characters are skipped.
    pub bytes_to_feed: i32,
    /// How many characters are skipped.
    pub chars_to_skip: i32,
    /// Whether the bytes that are fed are decoded as if nothing came after them.
    pub need_eof: bool,
    /// How many bytes of UTF-8 the skipped characters take.
    pub bytes_to_skip: i32,
}

/// A byte of some, 0 past their end.
fn byte_at(bytes: &[u8], place: usize) -> u8
    ensures { result ≡ slice_index bytes.now place }
{
    if place < bytes.len() { bytes[place] } else { 0 }
}

/// Four bytes as a number, the least first; a byte past the end counts as 0.
fn number_at(bytes: &[u8], place: usize) -> i32
    requires { place < 2 ^ 32 }
    ensures { result ≡ number_at w32 place bytes.now }
{
    i32::from_le_bytes([
        byte_at(bytes, place),
        byte_at(bytes, place + 1),
        byte_at(bytes, place + 2),
        byte_at(bytes, place + 3),
    ])
}

/// Eight bytes as a number, the least first; a byte past the end counts as 0.
fn start_in(bytes: &[u8]) -> i64
    ensures { result ≡ number_at w64 0 bytes.now }
{
    i64::from_le_bytes([
        byte_at(bytes, 0),
        byte_at(bytes, 1),
        byte_at(bytes, 2),
        byte_at(bytes, 3),
        byte_at(bytes, 4),
        byte_at(bytes, 5),
        byte_at(bytes, 6),
        byte_at(bytes, 7),
    ])
}

/// The cookie that some bytes are; a byte past their end counts as 0.
pub(crate) fn cookie_of(bytes: &[u8]) -> TextIOCookie
    ensures { cookie_shown result ≡ cookie_of bytes.now }
{
    TextIOCookie {
        start_pos: start_in(bytes),
        dec_flags: number_at(bytes, 8),
        bytes_to_feed: number_at(bytes, 12),
        chars_to_skip: number_at(bytes, 16),
        need_eof: byte_at(bytes, 20) != 0,
        bytes_to_skip: number_at(bytes, 21),
    }
}

/// Whether no field of a cookie is negative.
pub(crate) fn is_buildable(cookie: &TextIOCookie) -> bool
    ensures { result ≡ is_buildable (cookie_shown cookie.now) }
{
    cookie.start_pos >= 0
        && cookie.dec_flags >= 0
        && cookie.bytes_to_feed >= 0
        && cookie.chars_to_skip >= 0
        && cookie.bytes_to_skip >= 0
}

impl TextIOCookie {
    /// The cookie that some bytes are, zeros after them; `None` for more than 25 bytes.
    pub fn parse(bytes: &[u8]) -> Option<Self>
        ensures { option_map cookie_shown result ≡ parsed bytes.now }
    {
        if bytes.len() > 25 {
            return None;
        }
        Some(cookie_of(bytes))
    }

    /// The 25 bytes that the cookie goes as, each number with its least byte first; `None` where a field is negative.
    pub fn build(&self) -> Option<[u8; 25]>
        ensures bytes { result ≡ built (cookie_shown self.now) }
    {
        if !is_buildable(self) {
            return None;
        }
        let mut bytes = [0; 25];
        bytes[..8].copy_from_slice(&self.start_pos.to_le_bytes());
        bytes[8..12].copy_from_slice(&self.dec_flags.to_le_bytes());
        bytes[12..16].copy_from_slice(&self.bytes_to_feed.to_le_bytes());
        bytes[16..20].copy_from_slice(&self.chars_to_skip.to_le_bytes());
        bytes[20] = u8::from(self.need_eof);
        bytes[21..].copy_from_slice(&self.bytes_to_skip.to_le_bytes());
        Some(bytes)
    }
}
