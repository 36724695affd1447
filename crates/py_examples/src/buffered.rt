//! Buffered readers: the examples of docs/BUFFERED.md.
use py_buffered::{BufferedReader, Whence};
use py_example_streams::{gives, reader_of};
use py_raw::{IoFault, Life};
use py_raw_memory::{Cut, MemRaw};
use std::alloc::Global;
use std::process::Abort;
use std::test::Fail;

#[test]
fn lines_pieces_and_places(rt: HostRuntime) -> Result<(), Fail> {
    let alloc = rt.alloc();
    let mut reader = reader_of(alloc, b"one\ntwo\nthree", &[], &[], 8192)?;
    assert!(rt; gives(&reader.readline(alloc, None), b"one\n"));
    assert!(rt; reader.tell() == Ok(4));
    assert!(rt; gives(&reader.read(alloc, Some(6)), b"two\nth"));
    // back to where the second line begins: the bytes are still held, so no raw is called
    assert!(rt; reader.seek(4, 0) == Ok(4));
    assert!(rt; gives(&reader.read(alloc, None), b"two\nthree"));
    // at the end there is nothing more
    assert!(rt; gives(&reader.readline(alloc, None), b""));
    Ok(())
}

/// The calls of `lines_come_one_by_one`, whose reader is lent: a `?` drops nothing of it.
fn lent_lines_come_one_by_one(
    rt: &impl Abort,
    alloc: Global,
    reader: &mut BufferedReader<MemRaw>,
) -> Result<(), Fail> {
    let mut longest = 0;
    for answer in reader.lines(alloc) {
        // a refusal is the last item; none is a wait, after which the next item goes on
        if let Some(line) = answer? {
            longest = longest.max(line.len());
        }
    }
    assert!(rt; longest == 5);
    // the reader stands at the end
    assert!(rt; reader.tell() == Ok(13));
    assert!(rt; reader.seek(-5, Whence::End.into()) == Ok(8));
    Ok(())
}

#[test]
fn lines_come_one_by_one(rt: HostRuntime) -> Result<(), Fail> {
    let alloc = rt.alloc();
    let mut reader = reader_of(alloc, b"one\ntwo\nthree", &[], &[], 8192)?;
    lent_lines_come_one_by_one(&rt, alloc, &mut reader)
}

/// The calls of `lines_pass_on_waits_and_end_after_a_fault`, whose reader is lent: a `?` drops nothing of it.
fn lent_lines_pass_on_waits_and_end_after_a_fault(
    rt: &impl Abort,
    alloc: Global,
    reader: &mut BufferedReader<MemRaw>,
) {
    let mut lines = reader.lines(alloc);
    assert!(rt; lines.next().is_some_and(|answer| gives(&answer, b"a\n")));
    assert!(rt; lines.next().is_some_and(|answer| gives(&answer, b"b"))); // cut short by the wait
    assert!(rt; lines.next() == Some(Ok(None)));
    assert!(rt; lines.next() == Some(Err(IoFault::RawFault)));
    assert!(rt; lines.next() == None);
    assert!(rt; reader.life() == Life::Failed);
    // of a reader that isn't live its refusal comes once
    let mut lines = reader.lines(alloc);
    assert!(rt; lines.next() == Some(Err(IoFault::Failed)));
    assert!(rt; lines.next() == None);
}

#[test]
fn lines_pass_on_waits_and_end_after_a_fault(rt: HostRuntime) -> Result<(), Fail> {
    let alloc = rt.alloc();
    // the raw is asked where it stands (call 0), gives three bytes, asks to wait twice, and fails (call 4)
    let plan = [Cut::Take(3), Cut::Wait, Cut::Wait];
    let mut reader = reader_of(alloc, b"a\nbc", &plan, &[4], 8192)?;
    lent_lines_pass_on_waits_and_end_after_a_fault(&rt, alloc, &mut reader);
    Ok(())
}

#[test]
fn a_wait_loses_nothing(rt: HostRuntime) -> Result<(), Fail> {
    let alloc = rt.alloc();
    // two bytes come, then the raw asks to wait, twice
    let plan = [Cut::Take(2), Cut::Wait, Cut::Wait];
    let mut reader = reader_of(alloc, b"abc\n", &plan, &[], 8192)?;
    assert!(rt; gives(&reader.readline(alloc, None), b"ab")); // what came by then
    assert!(rt; reader.short()); // a wait cut it short: the line goes on
    assert!(rt; reader.readline(alloc, None) == Ok(None)); // nothing came
    assert!(rt; gives(&reader.readline(alloc, None), b"c\n"));
    assert!(rt; !reader.short());
    Ok(())
}

/// The calls of `a_fault_fails_the_reader_and_hands_the_raw_back`, whose reader is lent: a `?` drops nothing of it.
fn lent_a_fault_fails_the_reader_and_hands_the_raw_back(
    rt: &impl Abort,
    alloc: Global,
    reader: &mut BufferedReader<MemRaw>,
) -> Result<(), Fail> {
    assert!(rt; gives(&reader.read(alloc, Some(3)), b"abc"));
    assert!(rt; reader.tell() == Ok(3));
    assert!(rt; reader.read(alloc, Some(3)).err() == Some(IoFault::RawFault));
    assert!(rt; reader.life() == Life::Failed);
    // every other call is refused; the raw comes back, and a new reader may go on from a place that is known
    assert!(rt; reader.tell() == Err(IoFault::Failed));
    let detached = reader.detach()?;
    assert!(rt; detached.raw.bytes_of() == &b"abcdef"[..]);
    Ok(())
}

#[test]
fn a_fault_fails_the_reader_and_hands_the_raw_back(rt: HostRuntime) -> Result<(), Fail> {
    let alloc = rt.alloc();
    // the raw is asked where it stands (call 0), and read (call 1); its next call fails
    let mut reader = reader_of(alloc, b"abcdef", &[], &[2], 4)?;
    lent_a_fault_fails_the_reader_and_hands_the_raw_back(&rt, alloc, &mut reader)
}
