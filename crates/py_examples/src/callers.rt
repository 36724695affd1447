//! The callers of docs/CALLING.md, each called once.
use py_buffered::BufferedReader;
use py_callers::{copy_all, decode_replacing, first_line};
use py_example_streams::{holds, reader_of, writer_to};
use py_flat::IoFault;
use py_open::Reply;
use py_raw::{Data, RawFlags};
use py_raw_memory::{Cut, MemRaw};
use std::alloc::Global;
use std::process::Abort;
use std::test::Fail;

/// Copies what a reader that is lent has left to a writer that follows a plan, once for each answer; in the end the raw has these
/// bytes.
fn lent_copies(
    rt: &impl Abort,
    alloc: Global,
    reader: &mut BufferedReader<MemRaw>,
    plan: &[Cut],
    answers: &[Result<bool, IoFault>],
    bytes: &[u8],
) -> Result<(), Fail> {
    let mut writer = writer_to(alloc, b"", plan, &[], 2)?;
    for answer in answers {
        assert!(rt; copy_all(alloc, reader, &mut writer) == *answer);
    }
    assert!(rt; writer.raw().is_some_and(|raw| holds(raw, bytes)));
    Ok(())
}

#[test]
fn all_that_a_reader_has_left_is_copied(rt: HostRuntime) -> Result<(), Fail> {
    let alloc = rt.alloc();
    let mut reader = reader_of(alloc, b"one\ntwo\n", &[Cut::Take(3)], &[], 4)?;
    let plan = [Cut::Take(5)];
    lent_copies(&rt, alloc, &mut reader, &plan, &[Ok(true)], b"one\ntwo\n")
}

#[test]
fn a_copy_says_that_it_had_to_wait(rt: HostRuntime) -> Result<(), Fail> {
    let alloc = rt.alloc();
    let mut reader = reader_of(alloc, b"one", &[Cut::Take(2), Cut::Wait], &[], 4)?;
    lent_copies(&rt, alloc, &mut reader, &[], &[Ok(false), Ok(true)], b"one")
}

#[test]
fn a_copy_passes_a_fault_on(rt: HostRuntime) -> Result<(), Fail> {
    let alloc = rt.alloc();
    let mut reader = reader_of(alloc, b"one", &[], &[], 4)?;
    let answers = [Err(IoFault::RawFault)];
    lent_copies(&rt, alloc, &mut reader, &[Cut::Break(0)], &answers, b"")
}

#[test]
fn the_first_line_is_read_by_a_session(rt: HostRuntime) {
    let alloc = rt.alloc();
    let bytes = b"one\ntwo\n".to_vec(alloc).expect(&rt, "room");
    let flags = RawFlags::able(true, false, true);
    let raw = MemRaw::new(bytes, flags, Vec::new(alloc), Vec::new(alloc));
    let line = Reply::Bytes(Data::from_slice(alloc, b"one\n").expect(&rt, "room"));
    let first = first_line(alloc, raw).expect(&rt, "a line");
    assert!(rt; first.reply == line);
}

#[test]
fn what_is_no_utf_8_is_replaced(rt: HostRuntime) -> Result<(), Fail> {
    let text = decode_replacing(rt.alloc(), b"caf\xC3\xA9 \xFF\xC3")?;
    assert!(rt; text.as_str() == "café \u{FFFD}\u{FFFD}");
    Ok(())
}
