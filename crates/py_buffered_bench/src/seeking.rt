use py_bench::Counts;
use py_buffered::BufferedReader;
use py_raw::{IoFault, RawStream};
use std::io;
use std::io::{Read, Seek, SeekFrom};

/// How many seeks there are.
const SEEKS: u64 = 1_000_000;

/// How much is read behind each, into one space that is kept.
const SMALL: usize = 16;

/// The place behind this one: in turn somewhat forth and less back, at each sixteenth far forth, and past the end the rest from the start.
fn next_place(turn: u64, place: u64, end: u64) -> u64 {
    let to = match turn % 16 {
        0 => place.saturating_add(40_000),
        1 | 3 | 5 | 7 | 9 | 11 | 13 | 15 => place.saturating_sub(300),
        _ => place.saturating_add(700),
    };
    to % end.max(1)
}

/// Makes many seeks, each with a reading behind it, by the reader's own calls, and counts what was read.
pub(crate) fn seek_small<R: RawStream>(reader: &mut BufferedReader<R>) -> Result<Counts, IoFault> {
    let mut space = [0u8; SMALL];
    let mut counts = Counts::new();
    let end = reader.seek(0, 2)?;
    let mut place = 0u64;
    for turn in 0..SEEKS {
        place = next_place(turn, place, end);
        reader.seek(i64::try_from(place).unwrap_or(i64::MAX), 0)?;
        counts.add(reader.readinto1(&mut space)?.unwrap_or(0));
    }
    Ok(counts)
}

/// Makes as many by std's `seek` and `read`.
pub(crate) fn seek_small_by_std<R: Read + Seek>(reader: &mut R) -> io::Result<Counts> {
    let mut space = [0u8; SMALL];
    let mut counts = Counts::new();
    let end = reader.seek(SeekFrom::End(0))?;
    let mut place = 0u64;
    for turn in 0..SEEKS {
        place = next_place(turn, place, end);
        reader.seek(SeekFrom::Start(place))?;
        counts.add(reader.read(&mut space)?);
    }
    Ok(counts)
}
