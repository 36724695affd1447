//! Lines that are read at places in no order, each once a cookie put the text there.
use py_bench::Counts;
use py_flat::IoFault;
use py_stream::BufferedStream;
use py_textio::TextIOWrapper;
use std::alloc::Global;

/// How many lines are read.
const LINES: u32 = 200_000;

/// How many numbers `next_number` makes before one comes again.
const NUMBERS: u64 = 2_147_483_648;

/// The number after another, of a linear congruential generator: the same in each run, and in the other programs of `bench/text`.
fn next_number(number: u64) -> u64 {
    (number % NUMBERS * 1_103_515_245 + 12_345) % NUMBERS
}

/// How many bytes the first line has, and how many lines of as many bytes there are.
fn size_and_lines<B: BufferedStream>(
    alloc: Global,
    text: &mut TextIOWrapper<B>,
) -> Result<(u64, u64), IoFault> {
    text.readline(alloc, None)?;
    let size = text.tell()?.start_pos.unsigned_abs();
    let end = text.seek(alloc, &[], 2)?.start_pos.unsigned_abs();
    Ok((size, end.checked_div(size).unwrap_or(0)))
}

/// Reads lines at places of a file whose lines are all as long, and counts them, and the bytes at which they begin.
pub(crate) fn read_sought<B: BufferedStream>(
    alloc: Global,
    text: &mut TextIOWrapper<B>,
) -> Result<Counts, IoFault> {
    let (size, lines) = size_and_lines(alloc, text)?;
    let mut counts = Counts::new();
    let mut number = 1;
    for _ in 0..LINES {
        number = next_number(number);
        let line = number.checked_rem(lines).unwrap_or(0);
        let cookie = line.saturating_mul(size).to_le_bytes();
        let sought = text.seek(alloc, &cookie[..], 0)?;
        text.readline(alloc, None)?;
        counts.add(sought.start_pos.unsigned_abs() as usize);
    }
    Ok(counts)
}
