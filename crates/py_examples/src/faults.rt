//! Buffered writers, their waits and faults: the examples of docs/FAULTS.md.
use py_buffered::BufferedWriter;
use py_example_streams::{holds, three_lines, writer_to};
use py_raw::{IoFault, Life, Lines, RawStream};
use py_raw_memory::{Cut, MemRaw};
use py_stream::Detached;
use std::alloc::Global;
use std::process::Abort;
use std::test::Fail;

#[test]
fn lines_are_collected_and_passed_on(rt: HostRuntime) -> Result<(), Fail> {
    let alloc = rt.alloc();
    let mut writer = writer_to(alloc, b"", &[], &[], 8192)?;
    assert!(rt; writer.write(b"one\n") == Ok(4)); // in the buffer
    assert!(rt; writer.write(b"two\n") == Ok(4));
    assert!(rt; writer.tell() == Ok(8));
    assert!(rt; writer.flush() == Ok(())); // the raw has all eight bytes
    assert!(rt; writer.close() == Ok(()));
    let parts = writer.into_parts().expect(&rt, "a raw");
    assert!(rt; holds(&parts.raw, b"one\ntwo\n"));
    Ok(())
}

#[test]
fn a_write_that_has_to_wait_goes_on_past_what_was_taken(rt: HostRuntime) -> Result<(), Fail> {
    let alloc = rt.alloc();
    // the raw takes three bytes, and then asks to wait
    let mut writer = writer_to(alloc, b"", &[Cut::Take(3), Cut::Wait], &[], 4)?;
    assert!(rt; writer.write(b"0123456789") == Err(IoFault::WouldBlock { taken: 7 }));
    assert!(rt; writer.short()); // a wait cut it short: three bytes went, and four fill the buffer
    assert!(rt; writer.write(b"789") == Ok(3)); // later: what is left of them
    assert!(rt; writer.flush() == Ok(()));
    let detached = writer.detach().expect(&rt, "a raw");
    assert!(rt; holds(&detached.raw, b"0123456789"));
    assert!(rt; detached.unwritten.is_empty());
    Ok(())
}

#[test]
fn lines_that_have_to_wait_are_counted_over_all_of_them(rt: HostRuntime) -> Result<(), Fail> {
    let alloc = rt.alloc();
    // the raw takes three bytes, and then asks to wait
    let mut writer = writer_to(alloc, b"", &[Cut::Take(3), Cut::Wait], &[], 4)?;
    let lines = three_lines(alloc).expect(&rt, "room");
    assert!(rt; writer.writelines(&lines) == Err(IoFault::WouldBlock { taken: 7 }));
    assert!(rt; writer.write(b"\nghi\n") == Ok(5)); // later: what is left of the lines joined
    assert!(rt; writer.flush() == Ok(()));
    let detached = writer.detach().expect(&rt, "a raw");
    assert!(rt; holds(&detached.raw, b"abc\ndef\nghi\n"));
    Ok(())
}

#[test]
fn a_flush_that_has_to_wait_is_called_again(rt: HostRuntime) -> Result<(), Fail> {
    let alloc = rt.alloc();
    // the raw takes two bytes, and then asks to wait
    let mut writer = writer_to(alloc, b"", &[Cut::Take(2), Cut::Wait], &[], 8)?;
    assert!(rt; writer.write(b"abcdef") == Ok(6));
    assert!(rt; writer.flush() == Err(IoFault::WouldBlock { taken: 0 })); // four bytes are still owed
    assert!(rt; writer.life() == Life::Live);
    assert!(rt; writer.flush() == Ok(())); // later: now the raw has them
    assert!(rt; writer.tell() == Ok(6));
    let detached = writer.detach().expect(&rt, "a raw");
    assert!(rt; holds(&detached.raw, b"abcdef"));
    Ok(())
}

/// The later calls of `what_a_fault_leaves_is_written_elsewhere`, by what is handed back.
fn lent_what_is_handed_back_is_written(
    rt: &impl Abort,
    alloc: Global,
    detached: &Detached<MemRaw>,
) -> Result<(), Fail> {
    let mut writer = writer_to(alloc, detached.raw.bytes_of(), &[], &[], 8)?;
    assert!(rt; writer.seek(2, 0) == Ok(2));
    assert!(rt; writer.write(&detached.unwritten) == Ok(4));
    let detached = writer.detach().expect(rt, "a raw");
    assert!(rt; holds(&detached.raw, b"abcdef"));
    Ok(())
}

/// The calls of `what_a_fault_leaves_is_written_elsewhere`, whose writer is lent: a `?` drops nothing of it.
fn lent_what_a_fault_leaves_is_written_elsewhere(
    rt: &impl Abort,
    alloc: Global,
    writer: &mut BufferedWriter<MemRaw>,
) -> Result<(), Fail> {
    assert!(rt; writer.write(b"abcdef") == Ok(6));
    assert!(rt; writer.flush() == Err(IoFault::RawFault));
    assert!(rt; writer.life() == Life::Failed); // every call but `detach` is refused now
    assert!(rt; writer.write(b"g") == Err(IoFault::Failed));
    let detached = writer.detach()?;
    assert!(rt; detached.unwritten.as_slice() == &b"cdef"[..]);
    assert!(rt; detached.place == Some(2));
    lent_what_is_handed_back_is_written(rt, alloc, &detached)
}

#[test]
fn what_a_fault_leaves_is_written_elsewhere(rt: HostRuntime) -> Result<(), Fail> {
    let alloc = rt.alloc();
    // the raw takes two bytes, and then fails
    let mut writer = writer_to(alloc, b"", &[Cut::Take(2), Cut::Break(0)], &[], 8)?;
    lent_what_a_fault_leaves_is_written_elsewhere(&rt, alloc, &mut writer)
}

/// The calls of `a_write_whose_older_bytes_fail_is_made_again`, whose writer is lent: a `?` drops nothing of it.
fn lent_a_write_whose_older_bytes_fail_is_made_again(
    rt: &impl Abort,
    writer: &mut BufferedWriter<MemRaw>,
) -> Result<(), Fail> {
    assert!(rt; writer.write(b"abc") == Ok(3));
    assert!(rt; writer.write(b"def") == Err(IoFault::RawFault)); // there was no room, and the raw failed
    let detached = writer.detach()?;
    assert!(rt; detached.unwritten.as_slice() == &b"abc"[..]); // none of `def` was taken
    assert!(rt; detached.place == Some(0));
    Ok(())
}

#[test]
fn a_write_whose_older_bytes_fail_is_made_again(rt: HostRuntime) -> Result<(), Fail> {
    let alloc = rt.alloc();
    let mut writer = writer_to(alloc, b"", &[Cut::Break(0)], &[], 4)?;
    lent_a_write_whose_older_bytes_fail_is_made_again(&rt, &mut writer)
}

/// The calls of `a_large_write_that_fails_tells_how_far_it_came`, whose writer is lent: a `?` drops nothing of it.
fn lent_a_large_write_that_fails_tells_how_far_it_came(
    rt: &impl Abort,
    writer: &mut BufferedWriter<MemRaw>,
) -> Result<(), Fail> {
    assert!(rt; writer.write(b"0123456789") == Err(IoFault::RawFault));
    let detached = writer.detach()?;
    assert!(rt; detached.unwritten.is_empty());
    assert!(rt; detached.place == Some(4)); // go on with the fifth byte
    Ok(())
}

#[test]
fn a_large_write_that_fails_tells_how_far_it_came(rt: HostRuntime) -> Result<(), Fail> {
    let alloc = rt.alloc();
    // the raw takes four bytes, and then fails
    let mut writer = writer_to(alloc, b"", &[Cut::Take(4), Cut::Break(0)], &[], 4)?;
    lent_a_large_write_that_fails_tells_how_far_it_came(&rt, &mut writer)
}

#[test]
fn a_close_that_has_to_wait_is_called_again(rt: HostRuntime) -> Result<(), Fail> {
    let alloc = rt.alloc();
    let mut writer = writer_to(alloc, b"", &[Cut::Wait], &[], 8)?;
    assert!(rt; writer.write(b"abc") == Ok(3));
    assert!(rt; writer.close() == Err(IoFault::WouldBlock { taken: 0 }));
    assert!(rt; writer.life() == Life::Live);
    assert!(rt; writer.close() == Ok(())); // later
    let parts = writer.into_parts().expect(&rt, "a raw");
    assert!(rt; holds(&parts.raw, b"abc"));
    Ok(())
}

#[test]
fn a_close_that_fails_gives_back_what_is_owed(rt: HostRuntime) -> Result<(), Fail> {
    let alloc = rt.alloc();
    let mut writer = writer_to(alloc, b"", &[Cut::Break(0)], &[], 8)?;
    assert!(rt; writer.write(b"abc") == Ok(3));
    assert!(rt; writer.close() == Err(IoFault::RawFault));
    assert!(rt; writer.life() == Life::Closed);
    let Some(parts) = writer.into_parts() else {
        return Err(Fail::from("detached"));
    };
    assert!(rt; !parts.raw.closed()); // the raw wasn't asked to close
    assert!(rt; parts.unwritten.as_slice() == &b"abc"[..]);
    assert!(rt; parts.place == Some(0));
    Ok(())
}

#[test]
fn a_seek_that_has_to_wait_stands_where_it_stood(rt: HostRuntime) -> Result<(), Fail> {
    let alloc = rt.alloc();
    // the raw takes two bytes, and then asks to wait
    let mut writer = writer_to(alloc, b"", &[Cut::Take(2), Cut::Wait], &[], 8)?;
    assert!(rt; writer.write(b"abcdef") == Ok(6));
    assert!(rt; writer.seek(0, 0) == Err(IoFault::WouldBlock { taken: 0 }));
    assert!(rt; writer.tell() == Ok(6)); // it stands where it stood
    assert!(rt; writer.seek(0, 0) == Ok(0)); // later
    let detached = writer.detach().expect(&rt, "a raw");
    assert!(rt; holds(&detached.raw, b"abcdef"));
    Ok(())
}

/// The calls of `lines_that_fail_are_counted_by_place_and_rest`, whose writer and lines are lent.
fn lent_lines_that_fail_are_counted_by_place_and_rest(
    rt: &impl Abort,
    writer: &mut BufferedWriter<MemRaw>,
    lines: &Lines,
) -> Result<(), Fail> {
    assert!(rt; writer.writelines(&lines) == Err(IoFault::RawFault)); // three lines of four bytes, from place 0
    let detached = writer.detach()?;
    assert!(rt; detached.raw.bytes_of() == &b"abc"[..]);
    assert!(rt; detached.unwritten.as_slice() == &b"\n"[..]);
    assert!(rt; detached.place == Some(3)); // 3 and 1: the first line was taken, and the others weren't
    Ok(())
}

#[test]
fn lines_that_fail_are_counted_by_place_and_rest(rt: HostRuntime) -> Result<(), Fail> {
    let alloc = rt.alloc();
    // the raw takes three bytes, and then fails
    let mut writer = writer_to(alloc, b"", &[Cut::Take(3), Cut::Break(0)], &[], 4)?;
    let lines = three_lines(alloc).expect(&rt, "room");
    lent_lines_that_fail_are_counted_by_place_and_rest(&rt, &mut writer, &lines)
}

#[test]
fn a_raw_that_fails_to_close_has_all_the_same(rt: HostRuntime) -> Result<(), Fail> {
    let alloc = rt.alloc();
    // The third call of the raw fails: it was asked where it stands, then written to, then closed.
    let mut writer = writer_to(alloc, b"", &[], &[2], 8)?;
    assert!(rt; writer.write(b"abc") == Ok(3));
    assert!(rt; writer.close() == Err(IoFault::RawFault));
    assert!(rt; writer.life() == Life::Closed);
    let Some(parts) = writer.into_parts() else {
        return Err(Fail::from("detached"));
    };
    assert!(rt; parts.raw.closed()); // closed it is, though it said that it failed
    assert!(rt; parts.unwritten.is_empty());
    assert!(rt; holds(&parts.raw, b"abc"));
    Ok(())
}
