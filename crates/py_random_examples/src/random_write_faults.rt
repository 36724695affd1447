//! Faults of the writes, the truncation and the closing of a buffered stream that is read and written: examples of docs/FAULTS.md.
use py_buffered::BufferedRandom;
use py_example_streams::{gives, random_over, three_lines, written_back};
use py_raw::{IoFault, Life, RawStream};
use py_raw_memory::{Cut, MemRaw};
use std::alloc::Global;
use std::process::Abort;
use std::test::Fail;

/// The calls of `a_write_that_has_no_room_is_made_again_where_it_began`, whose stream is lent: a `?` drops nothing of it.
fn lent_a_write_that_has_no_room_is_made_again_where_it_began(
    rt: &impl Abort,
    alloc: Global,
    stream: &mut BufferedRandom<MemRaw>,
) -> Result<(), Fail> {
    assert!(rt; stream.write(b"abc") == Ok(3));
    assert!(rt; stream.seek(1, 0) == Ok(1)); // where the next write begins
    assert!(rt; stream.write(b"wxyz") == Err(IoFault::RawFault)); // there was no room, and the raw failed
    assert!(rt; stream.taken() == 0); // none of `wxyz` was taken
    let detached = stream.detach()?;
    assert!(rt; detached.unwritten.as_slice() == &b"bc"[..]);
    assert!(rt; detached.place == Some(1));
    let mut stream = written_back(alloc, detached, 4)?;
    assert!(rt; stream.seek(1, 0) == Ok(1)); // 1 and 0: it stood behind `bc`
    assert!(rt; stream.write(b"wxyz") == Ok(4));
    let detached = stream.detach().expect(rt, "a raw");
    assert!(rt; detached.raw.bytes_of() == &b"awxyz56789"[..]);
    Ok(())
}

#[test]
fn a_write_that_has_no_room_is_made_again_where_it_began(rt: HostRuntime) -> Result<(), Fail> {
    let alloc = rt.alloc();
    // the raw takes one byte, and then fails
    let mut stream = random_over(alloc, b"0123456789", &[Cut::Take(1), Cut::Break(0)], &[], 4)?;
    lent_a_write_that_has_no_room_is_made_again_where_it_began(&rt, alloc, &mut stream)
}

/// The calls of `a_large_write_that_fails_goes_on_behind_what_was_taken`, whose stream is lent: a `?` drops nothing of it.
fn lent_a_large_write_that_fails_goes_on_behind_what_was_taken(
    rt: &impl Abort,
    alloc: Global,
    stream: &mut BufferedRandom<MemRaw>,
) -> Result<(), Fail> {
    assert!(rt; stream.write(b"abcdefghi") == Err(IoFault::RawFault));
    assert!(rt; stream.life() == Life::Failed);
    assert!(rt; stream.taken() == 4); // the raw has them
    let detached = stream.detach()?;
    assert!(rt; detached.unwritten.is_empty());
    assert!(rt; detached.place == Some(4));
    let mut stream = written_back(alloc, detached, 4)?;
    assert!(rt; stream.write(b"efghi") == Ok(5)); // from the fifth byte on
    let detached = stream.detach().expect(rt, "a raw");
    assert!(rt; detached.raw.bytes_of() == &b"abcdefghi9"[..]);
    Ok(())
}

#[test]
fn a_large_write_that_fails_goes_on_behind_what_was_taken(rt: HostRuntime) -> Result<(), Fail> {
    let alloc = rt.alloc();
    // the raw takes four bytes, and then fails
    let mut stream = random_over(alloc, b"0123456789", &[Cut::Take(4), Cut::Break(0)], &[], 4)?;
    lent_a_large_write_that_fails_goes_on_behind_what_was_taken(&rt, alloc, &mut stream)
}

#[test]
fn lines_that_fail_go_on_behind_what_was_taken(rt: HostRuntime) -> Result<(), Fail> {
    let alloc = rt.alloc();
    let lines = three_lines(alloc)?;
    // the raw is read, takes three bytes, and then fails
    let plan = [Cut::Take(4), Cut::Take(3), Cut::Break(0)];
    let mut stream = random_over(alloc, b"0123456789", &plan, &[], 4)?;
    assert!(rt; gives(&stream.read(alloc, Some(2)), b"01"));
    assert!(rt; stream.writelines(&lines) == Err(IoFault::RawFault)); // three lines of four bytes, from place 2
    assert!(rt; stream.taken() == 4); // the first line
    let detached = stream.detach()?;
    assert!(rt; detached.unwritten.as_slice() == &b"\n"[..]); // its end; the raw has `abc`
    assert!(rt; detached.place == Some(5));
    let mut stream = written_back(alloc, detached, 4)?;
    assert!(rt; stream.seek(6, 0) == Ok(6)); // 2 and 4
    assert!(rt; stream.write(b"def\nghi\n") == Ok(8)); // what is left of the lines joined
    let detached = stream.detach().expect(&rt, "a raw");
    assert!(rt; detached.raw.bytes_of() == &b"01abc\ndef\nghi\n"[..]);
    Ok(())
}

/// The calls of `a_truncate_that_fails_to_pass_on_is_made_again`, whose stream is lent: a `?` drops nothing of it.
fn lent_a_truncate_that_fails_to_pass_on_is_made_again(
    rt: &impl Abort,
    alloc: Global,
    stream: &mut BufferedRandom<MemRaw>,
) -> Result<(), Fail> {
    assert!(rt; stream.write(b"abc") == Ok(3));
    assert!(rt; stream.truncate(Some(5)) == Err(IoFault::RawFault));
    assert!(rt; stream.life() == Life::Failed);
    let detached = stream.detach()?;
    assert!(rt; detached.raw.bytes_of() == &b"a123456789"[..]); // nothing was cut
    assert!(rt; detached.unwritten.as_slice() == &b"bc"[..]);
    assert!(rt; detached.place == Some(1));
    let mut stream = written_back(alloc, detached, 4)?;
    assert!(rt; stream.truncate(Some(5)) == Ok(5));
    let detached = stream.detach().expect(rt, "a raw");
    assert!(rt; detached.raw.bytes_of() == &b"abc34"[..]);
    Ok(())
}

#[test]
fn a_truncate_that_fails_to_pass_on_is_made_again(rt: HostRuntime) -> Result<(), Fail> {
    let alloc = rt.alloc();
    // the raw takes one byte, and then fails
    let mut stream = random_over(alloc, b"0123456789", &[Cut::Take(1), Cut::Break(0)], &[], 4)?;
    lent_a_truncate_that_fails_to_pass_on_is_made_again(&rt, alloc, &mut stream)
}

#[test]
fn a_close_that_fails_to_pass_on_is_made_again(rt: HostRuntime) -> Result<(), Fail> {
    let alloc = rt.alloc();
    // the raw takes one byte, and then fails
    let mut stream = random_over(alloc, b"0123456789", &[Cut::Take(1), Cut::Break(0)], &[], 4)?;
    assert!(rt; stream.write(b"abc") == Ok(3));
    assert!(rt; stream.close() == Err(IoFault::RawFault));
    assert!(rt; stream.life() == Life::Closed);
    let Some(parts) = stream.into_parts() else {
        return Err(Fail::from("detached"));
    };
    assert!(rt; !parts.raw.closed()); // the raw wasn't asked to close
    assert!(rt; parts.unwritten.as_slice() == &b"bc"[..]);
    assert!(rt; parts.place == Some(1));
    let mut stream = written_back(alloc, parts, 4)?;
    assert!(rt; stream.close() == Ok(()));
    assert!(rt; stream.raw().map(MemRaw::bytes_of) == Some(&b"abc3456789"[..]));
    Ok(())
}

#[test]
fn a_raw_that_fails_to_be_moved_back_stays_open(rt: HostRuntime) -> Result<(), Fail> {
    let alloc = rt.alloc();
    // the third call of the raw fails: it was asked where it stands, then written to, then moved back to the place
    let mut stream = random_over(alloc, b"0123456789", &[], &[2], 4)?;
    assert!(rt; stream.write(b"abc") == Ok(3));
    assert!(rt; stream.seek(1, 0) == Ok(1)); // among the bytes held: no raw is called
    assert!(rt; stream.close() == Err(IoFault::RawFault));
    assert!(rt; stream.life() == Life::Closed);
    let Some(mut parts) = stream.into_parts() else {
        return Err(Fail::from("detached"));
    };
    assert!(rt; parts.raw.bytes_of() == &b"abc3456789"[..]); // it has every byte
    assert!(rt; parts.unwritten.is_empty());
    assert!(rt; parts.place == Some(1));
    assert!(rt; !parts.raw.closed()); // it wasn't asked to close
    assert!(rt; parts.raw.close().is_ok());
    Ok(())
}
