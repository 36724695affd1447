//! Waits and faults of the readings, moves and flushes of a buffered stream that is read and written: examples of docs/FAULTS.md.
use py_buffered::BufferedRandom;
use py_example_streams::{gives, random_over, written_back};
use py_raw::{IoFault, Life};
use py_raw_memory::{Cut, MemRaw};
use std::alloc::Global;
use std::process::Abort;
use std::test::Fail;

#[test]
fn a_reading_waits_until_what_is_owed_is_passed_on(rt: HostRuntime) -> Result<(), Fail> {
    let alloc = rt.alloc();
    // the raw takes one byte, and then asks to wait
    let mut stream = random_over(alloc, b"0123456789", &[Cut::Take(1), Cut::Wait], &[], 4)?;
    assert!(rt; stream.write(b"abc") == Ok(3));
    assert!(rt; stream.read(alloc, Some(4)) == Ok(None)); // two bytes are still owed
    assert!(rt; stream.tell() == Ok(3));
    assert!(rt; gives(&stream.read(alloc, Some(4)), b"3456")); // later
    let detached = stream.detach().expect(&rt, "a raw");
    assert!(rt; detached.raw.bytes_of() == &b"abc3456789"[..]);
    Ok(())
}

/// The calls of `a_reading_that_fails_gives_back_what_was_written`, whose stream is lent: a `?` drops nothing of it.
fn lent_a_reading_that_fails_gives_back_what_was_written(
    rt: &impl Abort,
    alloc: Global,
    stream: &mut BufferedRandom<MemRaw>,
) -> Result<(), Fail> {
    assert!(rt; stream.write(b"abc") == Ok(3));
    assert!(rt; stream.read(alloc, Some(4)) == Err(IoFault::RawFault));
    assert!(rt; stream.life() == Life::Failed); // every call but `detach` is refused now
    let detached = stream.detach()?;
    assert!(rt; detached.unwritten.as_slice() == &b"bc"[..]);
    assert!(rt; detached.place == Some(1));
    // what wasn't written is written where it belongs, and the reading is made again
    let mut stream = random_over(alloc, detached.raw.bytes_of(), &[], &[], 4)?;
    assert!(rt; stream.seek(1, 0) == Ok(1));
    assert!(rt; stream.write(&detached.unwritten) == Ok(2));
    assert!(rt; gives(&stream.read(alloc, Some(4)), b"3456"));
    Ok(())
}

#[test]
fn a_reading_that_fails_gives_back_what_was_written(rt: HostRuntime) -> Result<(), Fail> {
    let alloc = rt.alloc();
    // the raw takes one byte, and then fails
    let mut stream = random_over(alloc, b"0123456789", &[Cut::Take(1), Cut::Break(0)], &[], 4)?;
    lent_a_reading_that_fails_gives_back_what_was_written(&rt, alloc, &mut stream)
}

/// The calls of `a_raw_that_fails_to_be_read_has_what_was_written`, whose stream is lent: a `?` drops nothing of it.
fn lent_a_raw_that_fails_to_be_read_has_what_was_written(
    rt: &impl Abort,
    alloc: Global,
    stream: &mut BufferedRandom<MemRaw>,
) -> Result<(), Fail> {
    assert!(rt; stream.write(b"abc") == Ok(3));
    assert!(rt; stream.read(alloc, Some(4)) == Err(IoFault::RawFault));
    let detached = stream.detach()?;
    assert!(rt; detached.unwritten.is_empty());
    assert!(rt; detached.place == Some(3)); // where the reading began
    assert!(rt; detached.raw.bytes_of() == &b"abc3456789"[..]);
    Ok(())
}

#[test]
fn a_raw_that_fails_to_be_read_has_what_was_written(rt: HostRuntime) -> Result<(), Fail> {
    let alloc = rt.alloc();
    // the raw takes what is owed, and then fails to be read
    let mut stream = random_over(alloc, b"0123456789", &[Cut::Take(3), Cut::Break(0)], &[], 4)?;
    lent_a_raw_that_fails_to_be_read_has_what_was_written(&rt, alloc, &mut stream)
}

/// The calls of `bytes_between_two_writes_are_given_back_with_them`, whose stream is lent: a `?` drops nothing of it.
fn lent_bytes_between_two_writes_are_given_back_with_them(
    rt: &impl Abort,
    alloc: Global,
    stream: &mut BufferedRandom<MemRaw>,
) -> Result<(), Fail> {
    assert!(rt; gives(&stream.read(alloc, Some(2)), b"01")); // eight bytes are held
    assert!(rt; stream.write(b"a") == Ok(1));
    assert!(rt; stream.seek(5, 0) == Ok(5));
    assert!(rt; stream.write(b"b") == Ok(1));
    assert!(rt; stream.flush() == Err(IoFault::RawFault));
    let detached = stream.detach()?;
    assert!(rt; detached.unwritten.as_slice() == &b"a34b"[..]); // `3` and `4` are those of the raw
    assert!(rt; detached.place == Some(2));
    Ok(())
}

#[test]
fn bytes_between_two_writes_are_given_back_with_them(rt: HostRuntime) -> Result<(), Fail> {
    let alloc = rt.alloc();
    // the raw is read, and then fails to be written to
    let mut stream = random_over(alloc, b"0123456789", &[Cut::Take(8), Cut::Break(0)], &[], 8)?;
    lent_bytes_between_two_writes_are_given_back_with_them(&rt, alloc, &mut stream)
}

#[test]
fn a_seek_past_the_bytes_held_waits_for_what_is_owed(rt: HostRuntime) -> Result<(), Fail> {
    let alloc = rt.alloc();
    let mut stream = random_over(alloc, b"0123456789", &[Cut::Wait], &[], 4)?;
    assert!(rt; stream.write(b"abc") == Ok(3));
    assert!(rt; stream.seek(1, 0) == Ok(1)); // among the bytes held: no raw is called
    assert!(rt; stream.seek(9, 0) == Err(IoFault::WouldBlock { taken: 0 }));
    assert!(rt; stream.tell() == Ok(1)); // it stands where it stood
    assert!(rt; stream.seek(9, 0) == Ok(9)); // later
    assert!(rt; gives(&stream.read(alloc, None), b"9"));
    let detached = stream.detach().expect(&rt, "a raw");
    assert!(rt; detached.raw.bytes_of() == &b"abc3456789"[..]);
    Ok(())
}

#[test]
fn a_read1_alone_waits_for_what_is_owed_where_bytes_are_held(rt: HostRuntime) -> Result<(), Fail> {
    let alloc = rt.alloc();
    // the raw is read, and then asks to wait
    let plan = [Cut::Take(4), Cut::Wait];
    let mut stream = random_over(alloc, b"0123456789", &plan, &[], 4)?;
    assert!(rt; gives(&stream.read(alloc, Some(2)), b"01")); // four bytes are held
    assert!(rt; stream.write(b"a") == Ok(1));
    assert!(rt; stream.read1(alloc, Some(1)) == Ok(None)); // `3` is held, but `a` is still owed
    assert!(rt; stream.peek() == Ok(Some(&b"3"[..]))); // these two call no raw
    assert!(rt; stream.readinto1(&mut [0]) == Ok(Some(1)));
    assert!(rt; gives(&stream.read1(alloc, Some(1)), b"4")); // later
    Ok(())
}

/// The calls of `a_reading_that_fails_after_some_bytes_is_made_again_from_where_it_began`, whose stream is lent: a `?` drops nothing of it.
fn lent_a_reading_that_fails_after_some_bytes_is_made_again_from_where_it_began(
    rt: &impl Abort,
    alloc: Global,
    stream: &mut BufferedRandom<MemRaw>,
) -> Result<(), Fail> {
    assert!(rt; stream.write(b"ab") == Ok(2));
    assert!(rt; stream.tell() == Ok(2)); // where the reading begins
    assert!(rt; stream.read(alloc, Some(6)) == Err(IoFault::RawFault));
    let detached = stream.detach()?;
    assert!(rt; detached.unwritten.is_empty());
    assert!(rt; detached.place == Some(5)); // three bytes came, which no answer has
    let mut stream = written_back(alloc, detached, 4)?;
    assert!(rt; stream.seek(2, 0) == Ok(2)); // from where it began, and not from 5
    assert!(rt; gives(&stream.read(alloc, Some(6)), b"234567"));
    Ok(())
}

#[test]
fn a_reading_that_fails_after_some_bytes_is_made_again_from_where_it_began(
    rt: HostRuntime,
) -> Result<(), Fail> {
    let alloc = rt.alloc();
    // the raw takes what is owed, gives three bytes, and then fails
    let plan = [Cut::Take(2), Cut::Take(3), Cut::Break(0)];
    let mut stream = random_over(alloc, b"0123456789", &plan, &[], 4)?;
    lent_a_reading_that_fails_after_some_bytes_is_made_again_from_where_it_began(
        &rt,
        alloc,
        &mut stream,
    )
}
