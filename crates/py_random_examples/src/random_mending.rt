//! Calls of a stream that is read and written, over a raw that fails in any of them: the three steps of docs/FAULTS.md lose no byte.
use py_buffered::BufferedRandom;
use py_example_streams::{gives, random_over, written_back};
use py_raw::{Data, IoFault, Lines};
use py_raw_memory::{Cut, MemRaw};
use std::alloc::Global;
use std::test::Fail;

/// A call; of a reading with what it gives.
#[derive(Clone, Copy)]
enum Step {
    Read(&'static [u8]),
    Read1(&'static [u8]),
    ReadInto(&'static [u8]),
    ReadLine(&'static [u8]),
    Peek(u8),
    Write(&'static [u8]),
    WriteLines(&'static [u8]),
    Seek(i64),
    Truncate,
    Flush,
}

/// The bytes that the raw begins with.
const BYTES: &[u8] = b"0123456789abcdefg\nij";

/// The calls, each with the place where it begins.
const STEPS: [(i64, Step); 17] = [
    (0, Step::Read(b"01")),
    (2, Step::Write(b"abc")),
    (5, Step::Seek(3)),
    (3, Step::Write(b"wxyz")),
    (7, Step::Flush),
    (7, Step::Seek(1)),
    (1, Step::Write(b"QRSTUVWXYZ")),
    (11, Step::Read(b"bcd")),
    (14, Step::ReadInto(b"ef")),
    (16, Step::Peek(b'g')),
    (16, Step::ReadLine(b"g\n")),
    (18, Step::Read1(b"i")),
    (19, Step::Seek(14)),
    (14, Step::Truncate),
    (14, Step::Seek(12)),
    (12, Step::Write(b"!")),
    (13, Step::WriteLines(b"K\nL\n")),
];

/// The bytes that the raw has in the end.
const MADE: &[u8] = b"0QRSTUVWXYZb!K\nL\n";

/// Some bytes as lines of two bytes each.
fn lines_of(alloc: Global, bytes: &[u8]) -> Result<Lines, IoFault> {
    let mut lines = Lines::new(alloc);
    for line in bytes.chunks(2) {
        lines.push(Data::from_slice(alloc, line)?)?;
    }
    Ok(lines)
}

/// Makes a reading; answers whether it gives what it should.
fn read(alloc: Global, stream: &mut BufferedRandom<MemRaw>, step: Step) -> Result<bool, IoFault> {
    let (given, bytes) = match step {
        Step::Read(bytes) => (stream.read(alloc, Some(bytes.len()))?, bytes),
        Step::Read1(bytes) => (stream.read1(alloc, Some(bytes.len()))?, bytes),
        Step::ReadLine(bytes) => (stream.readline(alloc, None)?, bytes),
        Step::ReadInto(bytes) => {
            let mut buffer = [0u8; 2];
            let count = stream.readinto(&mut buffer)?;
            return Ok(count == Some(2) && buffer.as_slice() == bytes);
        }
        Step::Peek(byte) => {
            return match stream.peek()? {
                Some(shown) => Ok(shown.first() == Some(&byte)),
                None => Ok(false),
            };
        }
        _ => return Ok(true),
    };
    Ok(gives(&Ok(given), bytes))
}

/// Makes a call, of a write that of those bytes from a number on; answers whether a reading gives what it should.
fn make(
    alloc: Global,
    stream: &mut BufferedRandom<MemRaw>,
    step: Step,
    from: u64,
) -> Result<bool, IoFault> {
    match step {
        Step::Write(bytes) => {
            let rest = bytes.get(from as usize..).unwrap_or(bytes);
            stream.write(rest)?;
        }
        Step::WriteLines(bytes) => {
            let rest = bytes.get(from as usize..).unwrap_or(bytes);
            stream.writelines(&lines_of(alloc, rest)?)?;
        }
        Step::Seek(place) => {
            stream.seek(place, 0)?;
        }
        Step::Truncate => {
            stream.truncate(None)?;
        }
        Step::Flush => stream.flush()?,
        _ => return read(alloc, stream, step),
    }
    Ok(true)
}

/// Goes on after a call that failed: by what is handed back, and from where the call began, of a write behind what was taken.
fn gone_on(
    alloc: Global,
    failed: BufferedRandom<MemRaw>,
    place: i64,
    step: Step,
) -> Result<BufferedRandom<MemRaw>, Fail> {
    let taken = match step {
        Step::Write(_) | Step::WriteLines(_) => failed.taken(),
        _ => 0,
    };
    let Some(back) = failed.into_parts() else {
        return Err(Fail::from("detached"));
    };
    let mut stream = written_back(alloc, back, 4)?;
    stream.seek(place.saturating_add_unsigned(taken), 0)?;
    if !make(alloc, &mut stream, step, taken)? {
        return Err(Fail::from("a reading gives something else"));
    }
    Ok(stream)
}

/// Ends a stream, by a close or a detach; where that fails, what is handed back is written where it belongs. Gives the bytes that the raw
/// has then.
fn ended(alloc: Global, mut stream: BufferedRandom<MemRaw>, closes: bool) -> Result<Vec<u8>, Fail> {
    if closes {
        let _ = stream.close();
    } else if let Ok(back) = stream.detach() {
        return Ok(back.raw.bytes_of().to_vec(alloc)?);
    }
    let Some(back) = stream.into_parts() else {
        return Err(Fail::from("detached"));
    };
    let mut mended = written_back(alloc, back, 4)?;
    Ok(mended.detach()?.raw.bytes_of().to_vec(alloc)?)
}

/// The bytes that a raw has once all calls are made, which follows a plan, and of whose calls those with these numbers fail.
fn made(alloc: Global, plan: &[Cut], faults: &[u64], closes: bool) -> Result<Vec<u8>, Fail> {
    let mut stream = random_over(alloc, BYTES, plan, faults, 4)?;
    for (place, step) in STEPS {
        stream = match make(alloc, &mut stream, step, 0) {
            Ok(true) => stream,
            Err(IoFault::RawFault) => gone_on(alloc, stream, place, step)?,
            _ => return Err(Fail::from("a call is answered otherwise")),
        };
    }
    ended(alloc, stream, closes)
}

/// A plan by which so many transfers move a byte each, and the next breaks off after one.
pub(crate) fn broken(alloc: Global, count: usize) -> Result<Vec<Cut>, Fail> {
    let mut plan = vec![in alloc; Cut::Take(1); count]?;
    plan.push(Cut::Break(1))?;
    Ok(plan)
}

#[test]
fn no_byte_is_lost_whichever_call_of_the_raw_fails(rt: HostRuntime) -> Result<(), Fail> {
    for fault in 1..40 {
        for closes in [false, true] {
            assert!(rt; made(rt.alloc(), &[], &[fault], closes)?.as_slice() == MADE);
        }
    }
    Ok(())
}

#[test]
fn no_byte_is_lost_wherever_a_transfer_breaks_off(rt: HostRuntime) -> Result<(), Fail> {
    for count in 0..90 {
        let plan = broken(rt.alloc(), count)?;
        for closes in [false, true] {
            assert!(rt; made(rt.alloc(), &plan, &[], closes)?.as_slice() == MADE);
        }
    }
    Ok(())
}
