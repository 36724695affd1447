//! The lists of calls.
ghost use Rattle.std.specs.Prelude.{IfOk};
ghost use Rattle.py_raw_memory.specs.MemRaw.{shown};
ghost use Rattle.py_stream.specs.Opening.{StandsAtStart};

use anyhow::Result;
use py_buffered::BufferedRWPair;
use py_raw::{IoFault, RawFlags};
use py_raw_memory::{Cut, MemRaw};
use std::alloc::Global;

/// The size of both buffers.
const BUFFER: usize = 4;

/// A raw stream in memory that can only be read, or only be written.
fn raw_of(alloc: Global, bytes: &[u8], reads: bool, plan: &[Cut], faults: &[u64]) -> Result<MemRaw>
    ensures { IfOk result (λ raw. StandsAtStart (shown raw)) }
{
    let flags = RawFlags::able(reads, !reads, false);
    Ok(MemRaw::new(
        bytes.to_vec(alloc)?,
        flags,
        plan.to_vec(alloc)?,
        faults.to_vec(alloc)?,
    ))
}

/// A pair over two bytes to be read and a writer that goes by a plan; the calls with these numbers fail.
fn pair_of(
    alloc: Global,
    plan: &[Cut],
    reader_faults: &[u64],
    writer_faults: &[u64],
) -> Result<BufferedRWPair<MemRaw, MemRaw>> {
    let reader = raw_of(alloc, b"xy", true, &[], reader_faults)?;
    let writer = raw_of(alloc, b"", false, plan, writer_faults)?;
    match BufferedRWPair::new(alloc, reader, writer, BUFFER) {
        Ok(pair) => Ok(pair),
        Err(refused) => Err(refused.fault.into()),
    }
}

/// A call of a pair.
#[derive(Clone, Copy)]
enum Step {
    /// Reads so many bytes.
    Read(usize),
    /// Writes a text's bytes.
    Write(&'static str),
    /// Passes on what was written.
    Flush,
    /// Closes the writer, and then the reader; prints which of the two is closed.
    Close,
}

/// Prints what a reading of n bytes answered.
fn print_read(
    rt: &HostRuntime,
    size: usize,
    answer: Result<Option<Vec<u8>>, IoFault>,
) -> Result<()> {
    match answer {
        Ok(Some(bytes)) => println!(rt; "read {size}: {}", str::from_utf8(&bytes)?)?,
        Ok(None) => println!(rt; "read {size}: not ready")?,
        Err(fault) => println!(rt; "read {size}: {fault}")?,
    }
    Ok(())
}

/// Prints what a write answered.
fn print_write(rt: &HostRuntime, text: &str, answer: Result<usize, IoFault>) -> Result<()> {
    match answer {
        Ok(count) => println!(rt; "write {text}: {count}")?,
        Err(fault) => println!(rt; "write {text}: {fault}")?,
    }
    Ok(())
}

/// Prints what a call answered that has nothing to give.
fn print_done(rt: &HostRuntime, call: &str, answer: Result<(), IoFault>) -> Result<()> {
    match answer {
        Ok(()) => println!(rt; "{call}: done")?,
        Err(fault) => println!(rt; "{call}: {fault}")?,
    }
    Ok(())
}

/// Prints which of the two is closed.
fn print_closed(rt: &HostRuntime, writer: bool, reader: bool) -> Result<()> {
    println!(rt; "closed: writer {writer}, reader {reader}")?;
    Ok(())
}

/// Makes a call, and prints what it answers.
fn make(rt: &HostRuntime, pair: &mut BufferedRWPair<MemRaw, MemRaw>, step: Step) -> Result<()> {
    match step {
        Step::Read(size) => print_read(rt, size, pair.read(rt.alloc(), Some(size))),
        Step::Write(text) => print_write(rt, text, pair.write(text.as_bytes())),
        Step::Flush => print_done(rt, "flush", pair.flush()),
        Step::Close => {
            print_done(rt, "close", pair.close())?;
            print_closed(rt, pair.closed(), pair.reader().closed())
        }
    }
}

/// Makes calls one after another, and prints what each answers.
fn make_all(
    rt: &HostRuntime,
    pair: &mut BufferedRWPair<MemRaw, MemRaw>,
    steps: &[Step],
) -> Result<()> {
    for step in steps {
        make(rt, pair, *step)?;
    }
    Ok(())
}

/// Prints what both raws have, and what the writer's is owed.
fn print_parts(rt: &HostRuntime, pair: BufferedRWPair<MemRaw, MemRaw>) -> Result<()> {
    let (reader, writer) = pair.into_parts();
    if let Some(reader) = reader {
        println!(rt; "reader: {}", str::from_utf8(reader.raw.bytes_of())?)?;
    }
    if let Some(writer) = writer {
        println!(rt;
            "writer: {}, owed {}",
            str::from_utf8(writer.raw.bytes_of())?,
            str::from_utf8(&writer.unwritten)?
        )?;
    }
    Ok(())
}

/// Makes calls on a pair, and prints what each answers and what both raws have in the end.
fn run(
    rt: &HostRuntime,
    title: &str,
    pair: BufferedRWPair<MemRaw, MemRaw>,
    steps: &[Step],
) -> Result<()> {
    let mut pair = pair;
    println!(rt; "== {title}")?;
    make_all(rt, &mut pair, steps)?;
    print_parts(rt, pair)
}

/// Reads and writes by turns; neither sees the other.
pub(crate) fn reads_and_writes(rt: &HostRuntime) -> Result<()> {
    let pair = pair_of(rt.alloc(), &[], &[], &[])?;
    let steps = [
        Step::Read(1),
        Step::Write("z"),
        Step::Flush,
        Step::Read(1),
        Step::Close,
        Step::Write("z"),
        Step::Read(1),
    ];
    run(rt, "reads and writes", pair, &steps)
}

/// The writer's raw would block at the close, once.
pub(crate) fn waits_at_the_close(rt: &HostRuntime) -> Result<()> {
    let pair = pair_of(rt.alloc(), &[Cut::Take(1), Cut::Wait], &[], &[])?;
    let steps = [Step::Write("abc"), Step::Close, Step::Read(3), Step::Close];
    run(rt, "the writer has to wait at the close", pair, &steps)
}

/// The writer's raw fails as it is written to at the close.
pub(crate) fn fails_at_the_close(rt: &HostRuntime) -> Result<()> {
    let pair = pair_of(rt.alloc(), &[Cut::Break(1)], &[], &[])?;
    run(
        rt,
        "the writer fails at the close",
        pair,
        &[Step::Write("abc"), Step::Close],
    )
}

/// Both raws fail to close.
pub(crate) fn both_fail_at_the_close(rt: &HostRuntime) -> Result<()> {
    let pair = pair_of(rt.alloc(), &[], &[0], &[0])?;
    run(
        rt,
        "both fail at the close",
        pair,
        &[Step::Close, Step::Close],
    )
}

/// Prints why two raws are refused, and what is handed back.
fn refuse(rt: &HostRuntime, reads: bool, size: usize) -> Result<()> {
    let alloc = rt.alloc();
    let reader = raw_of(alloc, b"one", reads, &[], &[])?;
    let writer = raw_of(alloc, b"two", reads, &[], &[])?;
    if let Err(refused) = BufferedRWPair::new(alloc, reader, writer, size) {
        let (reader, writer) = refused.raw;
        println!(rt;
            "refused: {}, back {} and {}",
            refused.fault,
            str::from_utf8(reader.bytes_of())?,
            str::from_utf8(writer.bytes_of())?
        )?;
    }
    Ok(())
}

/// Two raws that can't be read, or can't be written, or a buffer of no bytes.
pub(crate) fn refused(rt: &HostRuntime) -> Result<()> {
    println!(rt; "== refused")?;
    refuse(rt, true, BUFFER)?;
    refuse(rt, false, BUFFER)?;
    refuse(rt, true, 0)
}
