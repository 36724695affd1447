//! Cookies at random, of which most weren't told by the text.
use crate::numbers::Numbers;
use crate::steps::{Counts, read, seek, tell};
use anyhow::{Result, anyhow};
use py_plain_text::{PlainText, TextIOCookie};
use py_stream::BufferedStream;
use py_text_trials::{Asking, Came};
use py_textio::TextIOWrapper;
use std::alloc::Global;

/// How many cookies are tried on a text, one behind the other.
const COOKIES: usize = 8;

/// Bytes at which the texts of up to six begin and end, and others.
const STARTS: [i64; 16] = [
    0,
    1,
    2,
    3,
    4,
    5,
    6,
    7,
    0,
    1,
    2,
    9,
    -1,
    1 << 32,
    i64::MIN,
    i64::MAX,
];

/// How many bytes items have, and others.
const FEEDS: [i32; 16] = [
    0,
    1,
    2,
    3,
    4,
    1,
    2,
    1,
    2,
    3,
    5,
    6,
    -1,
    257,
    i32::MIN,
    i32::MAX,
];

/// How many characters stand for a range, and others.
const SKIPS: [i32; 16] = [0, 0, 1, 2, 3, 4, 5, 6, 7, 8, 11, 1, 2, -1, 65537, i32::MAX];

/// No order, and others.
const FLAGS: [i32; 16] = [0, 0, 0, 0, 0, 0, 0, 0, 0, 0, 0, 0, 0, 1, -1, i32::MAX];

/// Whether nothing comes behind what is fed: no, or yes by any other byte.
const ENDS: [u8; 4] = [0, 1, 1, 0xFF];

/// How many of the 26 bytes of a cookie are handed over.
const LENGTHS: [usize; 16] = [25, 25, 25, 25, 25, 25, 25, 25, 25, 25, 25, 25, 26, 21, 9, 0];

const WHENCES: [i32; 32] = [
    0, 0, 0, 0, 0, 0, 0, 0, 0, 0, 0, 0, 0, 0, 0, 0, 0, 0, 0, 0, 0, 0, 0, 0, 0, 0, 0, 0, 1, 2, 3, -1,
];

/// What the bytes of a cookie say.
#[derive(Clone, Copy, Debug)]
struct Fields {
    start: i64,
    flags: i32,
    feed: i32,
    skip: i32,
    end: u8,
    size: i32,
}

/// Fields of the tables; the bytes of the skipped characters are mostly as many as they are.
fn any_fields(numbers: &mut Numbers) -> Fields {
    let skip = SKIPS[numbers.next() % SKIPS.len()];
    let size = SKIPS[numbers.next() % SKIPS.len()];
    let is_of_ascii = numbers.next() % 4 != 0;
    Fields {
        start: STARTS[numbers.next() % STARTS.len()],
        flags: FLAGS[numbers.next() % FLAGS.len()],
        feed: FEEDS[numbers.next() % FEEDS.len()],
        skip,
        end: ENDS[numbers.next() % ENDS.len()],
        size: if is_of_ascii { skip } else { size },
    }
}

/// The fields of a cookie that was told, of which one may be another, or two.
fn near_fields(numbers: &mut Numbers, told: TextIOCookie) -> Fields {
    let any = any_fields(numbers);
    let told = Fields {
        start: told.start_pos,
        flags: told.dec_flags,
        feed: told.bytes_to_feed,
        skip: told.chars_to_skip,
        end: u8::from(told.need_eof),
        size: told.bytes_to_skip,
    };
    match numbers.next() % 8 {
        0 => Fields {
            start: any.start,
            ..told
        },
        1 => Fields {
            flags: any.flags,
            ..told
        },
        2 => Fields {
            feed: any.feed,
            ..told
        },
        3 => Fields {
            skip: any.skip,
            ..told
        },
        4 => Fields {
            end: any.end,
            ..told
        },
        5 => Fields {
            size: any.size,
            ..told
        },
        6 => Fields {
            skip: any.skip,
            size: any.skip,
            ..told
        },
        _ => told,
    }
}

/// The bytes that fields go as, and a zero.
fn bytes_of(fields: Fields) -> [u8; 26] {
    let mut bytes = [0; 26];
    bytes[..8].copy_from_slice(&fields.start.to_le_bytes());
    bytes[8..12].copy_from_slice(&fields.flags.to_le_bytes());
    bytes[12..16].copy_from_slice(&fields.feed.to_le_bytes());
    bytes[16..20].copy_from_slice(&fields.skip.to_le_bytes());
    bytes[20] = fields.end;
    bytes[21..25].copy_from_slice(&fields.size.to_le_bytes());
    bytes
}

/// The bytes of a cookie in the whole, where a text tells another.
fn forged(numbers: &mut Numbers, told: TextIOCookie) -> [u8; 26] {
    if numbers.next() % 2 == 0 {
        bytes_of(any_fields(numbers))
    } else {
        bytes_of(near_fields(numbers, told))
    }
}

/// Puts both where a cookie says, asks them where they stand, and reads all.
fn seek_by<B: BufferedStream>(
    alloc: Global,
    text: &mut TextIOWrapper<B>,
    plain: &mut PlainText,
    cookie: &[u8],
    whence: i32,
    counts: &mut Counts,
) -> bool {
    seek(alloc, text, plain, cookie, whence, counts) == Came::Same
        && tell(alloc, text, plain, counts).is_some()
        && read(alloc, text, plain, Asking::Whole, counts) == Came::Same
}

/// Reads a few characters from the start, and tells the place; none where that differs.
fn read_some<B: BufferedStream>(
    alloc: Global,
    text: &mut TextIOWrapper<B>,
    plain: &mut PlainText,
    count: usize,
    counts: &mut Counts,
) -> Option<TextIOCookie> {
    let asking = Asking::Characters(count);
    if seek(alloc, text, plain, &[], 0, counts) != Came::Same
        || read(alloc, text, plain, asking, counts) != Came::Same
    {
        return None;
    }
    tell(alloc, text, plain, counts)
}

/// Puts both where cookies at random say, each once a few characters were read, and counts those that aren't the told one.
pub(crate) fn seek_forged<B: BufferedStream>(
    alloc: Global,
    text: &mut TextIOWrapper<B>,
    plain: &mut PlainText,
    numbers: &mut Numbers,
    counts: &mut Counts,
) -> Result<()> {
    for _ in 0..COOKIES {
        let count = numbers.next() % 8;
        let Some(told) = read_some(alloc, text, plain, count, counts) else {
            return Err(anyhow!("{count} characters are read otherwise"));
        };
        let cookie = forged(numbers, told);
        let length = LENGTHS[numbers.next() % LENGTHS.len()].min(cookie.len());
        let whence = WHENCES[numbers.next() % WHENCES.len()];
        if whence == 0 && TextIOCookie::parse(&cookie[..length]) != Some(told) {
            counts.count_forged();
        }
        if !seek_by(alloc, text, plain, &cookie[..length], whence, counts) {
            return Err(anyhow!("{told:?} {cookie:?} {length} {whence}"));
        }
    }
    Ok(())
}
