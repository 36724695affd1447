use py_bench::Counts;
use py_buffered::BufferedReader;
use py_raw::{IoFault, RawStream};
use std::alloc::Global;
use std::io;
use std::io::{BufRead, Read};

/// How much a reader is asked for at once by `Pieces`.
const PIECE: usize = 65536;

/// How much a reader is asked for at once by `Small` and `SmallByStd`, which read into one space that is kept, and moved by `Lent` and
/// `LentByStd`.
const SMALL: usize = 64;

/// How a file is read.
#[derive(Clone, Copy, Debug, PartialEq, Eq)]
pub(crate) enum Reading {
    /// Each answer is new bytes.
    Asked(Asked),
    /// By `readinto1`.
    Small,
    /// By std's `read`.
    SmallByStd,
    /// Lines, each into the same space, by std's `read_until`.
    LinesByStd,
    /// By `fill`, `held` and `consume`.
    Lent,
    /// By std's `fill_buf` and `consume`.
    LentByStd,
    /// Some bytes behind each of many seeks.
    Seeks,
    /// The same by std's `seek` and `read`.
    SeeksByStd,
}

/// What is asked for at once.
#[derive(Clone, Copy, Debug, PartialEq, Eq)]
pub(crate) enum Asked {
    Lines,
    Pieces,
    Whole,
}

impl Asked {
    /// Reads to the end, and counts the answers that aren't empty.
    pub(crate) fn run<R: RawStream>(
        self,
        alloc: Global,
        reader: &mut BufferedReader<R>,
    ) -> Result<Counts, IoFault> {
        let mut counts = Counts::new();
        for _ in 0..u64::MAX {
            let answer = match self {
                Asked::Lines => reader.readline(alloc, None)?,
                Asked::Pieces => reader.read(alloc, Some(PIECE))?,
                Asked::Whole => reader.read(alloc, None)?,
            };
            let Some(bytes) = answer else {
                continue;
            };
            if bytes.is_empty() {
                break;
            }
            counts.add(bytes.len());
        }
        Ok(counts)
    }
}

/// Reads to the end into one space, by `readinto1`.
pub(crate) fn read_small<R: RawStream>(reader: &mut BufferedReader<R>) -> Result<Counts, IoFault> {
    let mut space = [0u8; SMALL];
    let mut counts = Counts::new();
    for _ in 0..u64::MAX {
        let Some(count) = reader.readinto1(&mut space)? else {
            continue;
        };
        if count == 0 {
            break;
        }
        counts.add(count);
    }
    Ok(counts)
}

/// Reads to the end into one space, by std's `read`.
pub(crate) fn read_small_by_std<R: Read>(reader: &mut R) -> io::Result<Counts> {
    let mut space = [0u8; SMALL];
    let mut counts = Counts::new();
    for _ in 0..u64::MAX {
        let count = reader.read(&mut space)?;
        if count == 0 {
            break;
        }
        counts.add(count);
    }
    Ok(counts)
}

/// Reads lines to the end, each into one space, by std's `read_until`.
pub(crate) fn read_lines_by_std<R: BufRead>(alloc: Global, reader: &mut R) -> io::Result<Counts> {
    let mut line = Vec::new(alloc);
    let mut counts = Counts::new();
    for _ in 0..u64::MAX {
        line.clear();
        let count = reader.read_until(b'\n', &mut line)?;
        if count == 0 {
            break;
        }
        counts.add(count);
    }
    Ok(counts)
}

/// Goes to the end over what is lent, some bytes at a time, by `fill`, `held` and `consume`.
pub(crate) fn read_lent<R: RawStream>(reader: &mut BufferedReader<R>) -> Result<Counts, IoFault> {
    let mut counts = Counts::new();
    for _ in 0..u64::MAX {
        if !reader.fill()? {
            continue;
        }
        let count = reader.held().len().min(SMALL);
        if count == 0 {
            break;
        }
        reader.consume(count)?;
        counts.add(count);
    }
    Ok(counts)
}

/// Goes to the end over what is lent, as many bytes at a time, by std's `fill_buf` and `consume`.
pub(crate) fn read_lent_by_std<R: BufRead>(reader: &mut R) -> io::Result<Counts> {
    let mut counts = Counts::new();
    for _ in 0..u64::MAX {
        let count = reader.fill_buf()?.len().min(SMALL);
        if count == 0 {
            break;
        }
        reader.consume(count);
        counts.add(count);
    }
    Ok(counts)
}
