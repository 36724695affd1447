//! What examples begin from: raw streams in memory, and buffered streams over them.
#![tactic(auto)]

ghost use Rattle.std.specs.Prelude.{IfOk};
ghost use Rattle.py_raw_memory.specs.MemRaw.{shown as raw_shown};
ghost use Rattle.py_stream.specs.Opening.{StandsAtStart};

use py_buffered::{BufferedRandom, BufferedReader, BufferedWriter, Whence};
use py_raw::{Data, IoFault, Lines, RawFlags};
use py_raw_memory::{Cut, MemRaw};
use py_stream::Detached;
use std::alloc::{AllocError, Global};
use std::test::Fail;

/// A raw stream over some bytes, which moves, waits or breaks by a plan, and of whose calls those with these numbers fail.
fn raw_of(
    alloc: Global,
    flags: RawFlags,
    bytes: &[u8],
    plan: &[Cut],
    faults: &[u64],
) -> Result<MemRaw, AllocError>
    ensures { IfOk result (λ raw. StandsAtStart (raw_shown raw)) }
{
    let bytes = bytes.to_vec(alloc)?;
    let plan = plan.to_vec(alloc)?;
    Ok(MemRaw::new(bytes, flags, plan, faults.to_vec(alloc)?))
}

/// A reader of a raw stream over some bytes, which moves, waits or breaks by a plan, and of whose calls those with these
/// numbers fail.
pub fn reader_of(
    alloc: Global,
    bytes: &[u8],
    plan: &[Cut],
    faults: &[u64],
    buffer_size: usize,
) -> Result<BufferedReader<MemRaw>, Fail> {
    let flags = RawFlags::able(true, false, true);
    let raw = raw_of(alloc, flags, bytes, plan, faults)?;
    Ok(BufferedReader::new(alloc, raw, buffer_size)?)
}

/// A writer to a stream in memory, whose transfers are cut and fail as a plan says.
pub fn writer_to(
    alloc: Global,
    bytes: &[u8],
    plan: &[Cut],
    faults: &[u64],
    buffer_size: usize,
) -> Result<BufferedWriter<MemRaw>, Fail> {
    let flags = RawFlags::able(false, true, true);
    let raw = raw_of(alloc, flags, bytes, plan, faults)?;
    Ok(BufferedWriter::new(alloc, raw, buffer_size)?)
}

/// A stream that is read and written, over a stream in memory, whose transfers are cut and fail as a plan says, and of whose calls
/// those with these numbers fail.
pub fn random_over(
    alloc: Global,
    bytes: &[u8],
    plan: &[Cut],
    faults: &[u64],
    buffer_size: usize,
) -> Result<BufferedRandom<MemRaw>, Fail> {
    let flags = RawFlags::able(true, true, true);
    let raw = raw_of(alloc, flags, bytes, plan, faults)?;
    Ok(BufferedRandom::new(alloc, raw, buffer_size)?)
}

/// A stream that is read and written, over the bytes of a raw that was handed back, with what that is owed written where it belongs: it
/// stands behind that.
pub fn written_back(
    alloc: Global,
    back: Detached<MemRaw>,
    buffer_size: usize,
) -> Result<BufferedRandom<MemRaw>, Fail> {
    let mut stream = random_over(alloc, back.raw.bytes_of(), &[], &[], buffer_size)?;
    if let Some(place) = back.place {
        stream.seek(i64::try_from(place)?, Whence::Start.into())?;
        stream.write(&back.unwritten)?;
    }
    Ok(stream)
}

/// The lines `abc`, `def` and `ghi`, each with its LF.
pub fn three_lines(alloc: Global) -> Result<Lines, AllocError> {
    let mut lines = Lines::new(alloc);
    for line in [b"abc\n", b"def\n", b"ghi\n"] {
        lines.push(Data::from_slice(alloc, line)?)?;
    }
    Ok(lines)
}

/// Whether an answer of a reading gives these bytes; not where it isn't ready or refused.
///
/// A `?` would drop all that its function holds, which is proved anew for each: the calls of an example are compared as they are.
pub fn gives(answer: &Result<Option<Vec<u8>>, IoFault>, bytes: &[u8]) -> bool {
    match answer {
        Ok(Some(given)) => given.as_slice() == bytes,
        _ => false,
    }
}

/// Whether a raw stream holds these bytes.
///
/// A list of bytes that is compared where an example holds streams costs the proof of that some seconds, and here once.
pub fn holds(raw: &MemRaw, bytes: &[u8]) -> bool {
    raw.bytes_of() == bytes
}
