use py_bench::Counts;
use py_buffered::BufferedWriter;
use py_raw::{IoFault, RawStream};
use std::io;
use std::io::Write;

/// How many writes there are.
const WRITES: u32 = 2_000_000;

/// What each write writes: 10 bytes.
const LINE: &[u8] = b"nine char\n";

/// Makes many short writes, flushes and closes, and counts what was taken.
pub(crate) fn write_short<R: RawStream>(writer: &mut BufferedWriter<R>) -> Result<Counts, IoFault> {
    let mut counts = Counts::new();
    for _ in 0..WRITES {
        counts.add(writer.write(LINE)?);
    }
    writer.flush()?;
    writer.close()?;
    Ok(counts)
}

/// Makes as many by std's `write`, and flushes.
pub(crate) fn write_short_by_std<W: Write>(writer: &mut W) -> io::Result<Counts> {
    let mut counts = Counts::new();
    for _ in 0..WRITES {
        counts.add(writer.write(LINE)?);
    }
    writer.flush()?;
    Ok(counts)
}
