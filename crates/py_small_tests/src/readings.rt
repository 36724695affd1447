//! The readings that every raw stream has of its own: once, and up to the end.
use py_raw::{RawError, RawFlags, RawStream};
use py_raw_memory::{Cut, MemRaw};
use std::alloc::Global;
use std::process::Abort;

/// A stream over some bytes that can be read and moved.
fn raw_over(rt: &impl Abort, alloc: Global, bytes: &[u8], plan: &[Cut], faults: &[u64]) -> MemRaw {
    let bytes = bytes.to_vec(alloc).expect(rt, "memory");
    let plan = plan.to_vec(alloc).expect(rt, "memory");
    let faults = faults.to_vec(alloc).expect(rt, "memory");
    MemRaw::new(bytes, RawFlags::able(true, false, true), plan, faults)
}

/// A transfer of one byte.
const ONE: Cut = Cut::Take(1);

/// How much is asked for, the plan and the faults of a stream over `abc`, what one reading answers, and where the stream stands then.
const SINGLE: [(usize, &[Cut], &[u64], Result<Option<&[u8]>, RawError>, u64); 6] = [
    (9, &[], &[], Ok(Some(b"abc")), 3),
    (2, &[], &[], Ok(Some(b"ab")), 2),
    (0, &[], &[], Ok(Some(b"")), 0),
    (9, &[ONE], &[], Ok(Some(b"a")), 1),
    (9, &[Cut::Wait], &[], Ok(None), 0),
    (9, &[], &[0], Err(RawError::Fault), 0),
];

/// Reads once through the bound, and compares what comes.
fn assert_reads_once<R: RawStream>(
    rt: &impl Abort,
    alloc: Global,
    raw: &mut R,
    n: usize,
    answer: Result<Option<&[u8]>, RawError>,
) {
    assert!(rt; !raw.closed() && raw.readable());
    let agrees = match raw.read(alloc, n) {
        Ok(Some(bytes)) => answer == Ok(Some(bytes.as_slice())),
        Ok(None) => answer == Ok(None),
        Err(error) => answer == Err(error),
    };
    assert!(rt; agrees, "at {n}");
}

#[test]
fn a_single_reading_gives_what_one_transfer_does(rt: HostRuntime) {
    let alloc = rt.alloc();
    for (n, plan, faults, answer, stands) in SINGLE {
        let mut raw = raw_over(&rt, alloc, b"abc", plan, faults);
        assert_reads_once(&rt, alloc, &mut raw, n, answer);
        assert!(rt; raw.place_of() == stands, "at {n}");
    }
}

/// Reads up to the end through the bound, and compares the answer and all that is held then.
fn assert_reads<R: RawStream>(
    rt: &impl Abort,
    raw: &mut R,
    out: &mut Vec<u8>,
    answer: Result<Option<usize>, RawError>,
    held: &[u8],
) {
    assert!(rt; !raw.closed() && raw.readable());
    assert!(rt; raw.readall(out) == answer);
    assert!(rt; out.as_slice() == held);
}

/// The plan and the faults of a stream over `abcde`, what a reading of all answers, and what is held then behind a point.
const UP_TO_THE_END: [(&[Cut], &[u64], Result<Option<usize>, RawError>, &[u8]); 7] = [
    (&[], &[], Ok(Some(5)), b".abcde"),
    (&[ONE, ONE, ONE, ONE, ONE], &[], Ok(Some(5)), b".abcde"),
    (&[ONE, ONE, Cut::Wait], &[], Ok(Some(2)), b".ab"),
    (&[ONE, Cut::Wait, ONE], &[], Ok(Some(1)), b".a"),
    (&[Cut::Wait], &[], Ok(None), b"."),
    (&[ONE, ONE], &[2], Err(RawError::Fault), b".ab"),
    (&[Cut::Take(2), ONE], &[2], Err(RawError::Fault), b".abc"),
];

#[test]
fn a_reading_up_to_the_end_keeps_what_came_before_a_fault(rt: HostRuntime) {
    let alloc = rt.alloc();
    for (plan, faults, answer, held) in UP_TO_THE_END {
        let mut raw = raw_over(&rt, alloc, b"abcde", plan, faults);
        let mut out = b".".to_vec(alloc).expect(&rt, "memory");
        assert_reads(&rt, &mut raw, &mut out, answer, held);
    }
}

/// A plan that waits twice.
const WAITS: [Cut; 3] = [Cut::Take(2), Cut::Wait, Cut::Wait];

/// What readings of all answer one after the other, and what is held after each.
const GOES_ON: [(Result<Option<usize>, RawError>, &[u8]); 4] = [
    (Ok(Some(2)), b"ab"),
    (Ok(None), b"ab"),
    (Ok(Some(1)), b"abc"),
    (Ok(Some(0)), b"abc"),
];

#[test]
fn a_reading_up_to_the_end_goes_on_where_the_stream_asked_to_wait(rt: HostRuntime) {
    let alloc = rt.alloc();
    let mut raw = raw_over(&rt, alloc, b"abc", &WAITS, &[]);
    let mut out = Vec::new(alloc);
    for (answer, held) in GOES_ON {
        assert_reads(&rt, &mut raw, &mut out, answer, held);
    }
}

#[test]
fn a_reading_up_to_the_end_asks_for_more_each_time(rt: HostRuntime) {
    let alloc = rt.alloc();
    let mut long = Vec::new(alloc);
    long.resize(20000, b'x').expect(&rt, "memory");
    let mut raw = raw_over(&rt, alloc, long.as_slice(), &[], &[]);
    let mut out = Vec::new(alloc);
    assert_reads(&rt, &mut raw, &mut out, Ok(Some(20000)), long.as_slice());
    assert!(rt; raw.transfer_count() == 4);
}
