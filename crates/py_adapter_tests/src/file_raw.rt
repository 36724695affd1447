//! Raw streams over files: over a fake, which answers what a system may, and over a real one.
use crate::calls::{Call, Moved, assert_answers};
use crate::fake::{Fake, Step};
use crate::paths::temporary;
use py_raw::{Opener, RawError, RawStream};
use py_raw_files::{FileOpener, FileRaw};
use std::fs::OpenOptions;
use std::io::ErrorKind;
use std::{fs, io};

/// A fault, of whatever call.
const FAULT: RawError = RawError::Fault;

/// What a file answers to each transfer, what a stream over it answers to one of three bytes each way, how many bytes are then written,
/// and how many faults and waits there were after the first of the two, and after both.
const TRANSFERS: [(Step, Moved, u64, (u64, u64), (u64, u64)); 6] = [
    (Step::Moves(2), Ok(Some(2)), 2, (0, 0), (0, 0)),
    (Step::Moves(9), Ok(Some(3)), 3, (0, 0), (0, 0)),
    (
        Step::Fails(ErrorKind::WouldBlock),
        Ok(None),
        0,
        (0, 1),
        (0, 2),
    ),
    (
        Step::Fails(ErrorKind::Interrupted),
        Ok(None),
        0,
        (0, 1),
        (0, 2),
    ),
    (
        Step::Fails(ErrorKind::StorageFull),
        Err(FAULT),
        0,
        (1, 0),
        (2, 0),
    ),
    (
        Step::Fails(ErrorKind::BrokenPipe),
        Err(FAULT),
        0,
        (1, 0),
        (2, 0),
    ),
];

#[test]
fn would_block_and_interrupted_are_waits_and_the_rest_are_faults(rt: HostRuntime) {
    for (case, (step, answer, written, once, twice)) in TRANSFERS.into_iter().enumerate() {
        let mut raw = FileRaw::new(Fake::new(step, 0), true, true, false);
        let calls = [
            Call::Read(answer, b"..."),
            Call::Counted(1, 0, once.0, once.1),
            Call::Write(b"abc", answer),
            Call::Counted(2, written, twice.0, twice.1),
        ];
        assert_answers(&rt, &mut raw, case, &calls);
    }
}

/// A write of nothing, and one of something that takes nothing of it.
const TAKES_NOTHING: [Call<'static>; 4] = [
    Call::Write(b"", Ok(Some(0))),
    Call::Counted(1, 0, 0, 0),
    Call::Write(b"abc", Ok(Some(0))),
    Call::Counted(2, 0, 1, 0),
];

#[test]
fn a_write_that_takes_nothing_is_a_fault(rt: HostRuntime) {
    let mut raw = FileRaw::new(Fake::new(Step::Moves(0), 0), false, true, false);
    assert_answers(&rt, &mut raw, 0, &TAKES_NOTHING);
}

/// What a device answers that always stands at 3.
const STANDS_AT_3: [Call<'static>; 7] = [
    Call::Seek(3, Ok(())),
    Call::Seek(5, Err(FAULT)),
    Call::Tell(Ok(3)),
    Call::End(Ok(3)), // it moves to the end and back
    Call::Truncate(1, Err(FAULT)),
    Call::Close(Ok(())),
    Call::Counted(0, 0, 2, 0),
];

#[test]
fn a_device_that_stands_elsewhere_than_asked_fails_the_seek(rt: HostRuntime) {
    let mut raw = FileRaw::new(Fake::new(Step::Moves(0), 3), true, true, true);
    assert_answers(&rt, &mut raw, 0, &STANDS_AT_3);
}

/// What a device answers that stands where no file can.
const STANDS_TOO_FAR: [Call<'static>; 3] = [
    Call::Tell(Err(FAULT)),
    Call::End(Err(FAULT)),
    Call::Counted(0, 0, 2, 0),
];

#[test]
fn a_place_that_no_file_has_is_a_fault(rt: HostRuntime) {
    let mut raw = FileRaw::new(Fake::new(Step::Moves(0), 1 << 63), true, true, true);
    assert_answers(&rt, &mut raw, 0, &STANDS_TOO_FAR);
}

/// What the last error of a full disk is, after each call.
const DISK_IS_FULL: [Call<'static>; 7] = [
    Call::LastError(None),
    Call::Write(b"abc", Err(FAULT)),
    Call::LastError(Some(ErrorKind::StorageFull)),
    Call::Seek(0, Ok(())), // what doesn't fail leaves it
    Call::LastError(Some(ErrorKind::StorageFull)),
    Call::Seek(5, Err(FAULT)), // the system saw no fault in this one
    Call::LastError(None),
];

#[test]
fn the_last_error_is_what_the_system_said_of_the_last_fault(rt: HostRuntime) {
    let full = Step::Fails(ErrorKind::StorageFull);
    let mut raw = FileRaw::new(Fake::new(full, 0), false, true, true);
    assert_answers(&rt, &mut raw, 0, &DISK_IS_FULL);
}

/// What a real file answers that was just made.
const REAL_FILE: [Call<'static>; 20] = [
    Call::Write(b"abcdef", Ok(Some(6))),
    Call::Tell(Ok(6)),
    Call::Seek(4, Ok(())),
    Call::Read(Ok(Some(2)), b"ef.."),
    Call::Read(Ok(Some(0)), b"...."),
    Call::Truncate(3, Ok(())),
    Call::End(Ok(3)),
    Call::EndHint(Some(3)),
    Call::Tell(Ok(6)),
    Call::Write(b"g", Ok(Some(1))),
    Call::Seek(2, Ok(())),
    Call::Read(Ok(Some(4)), b"c\0\0\0"),
    Call::Truncate(0, Ok(())),
    Call::End(Ok(0)),
    Call::Tell(Ok(6)),
    Call::EndHint(Some(0)),
    Call::Counted(5, 7, 0, 0),
    Call::Close(Ok(())),
    Call::EndHint(None),
    Call::Counted(5, 7, 0, 0),
];

#[test]
fn a_real_file_keeps_what_is_written(rt: HostRuntime) {
    let path = temporary(&rt, "file").expect(&rt, "a path");
    let file = OpenOptions::new()
        .read(true)
        .write(true)
        .create_new(true)
        .open(&rt, path.as_path())
        .expect(&rt, "a new file");
    let mut raw = FileRaw::new(file, true, true, true);
    assert_answers(&rt, &mut raw, 0, &REAL_FILE);
    fs::remove_file(&rt, path.as_path()).expect(&rt, "a file to remove");
}

/// What a file of the system's answers whose metadata says that it is empty.
const SEEMS_EMPTY: [Call<'static>; 5] = [
    Call::Read(Ok(Some(5)), b"Linux"),
    Call::EndHint(Some(0)),
    Call::End(Err(FAULT)),
    Call::LastError(Some(ErrorKind::InvalidInput)),
    Call::Tell(Ok(5)),
];

#[test]
fn an_end_that_the_system_can_t_move_to_is_a_fault(rt: HostRuntime) {
    let mut opener = FileOpener::new(&rt);
    let mut raw = opener
        .open_raw(rt.alloc(), "/proc/version", "rb")
        .expect(&rt, "a file of the system's");
    assert_answers(&rt, &mut raw, 0, &SEEMS_EMPTY);
}

/// How many files this process has open, one more for the folder that tells it.
fn open_files(rt: &HostRuntime) -> io::Result<usize> {
    let mut count = 0usize;
    for entry in fs::read_dir(rt, "/proc/self/fd")? {
        let _ = entry?;
        count = count.saturating_add(1);
    }
    Ok(count)
}

#[test]
fn closed_streams_leave_no_file_open(rt: HostRuntime) {
    let alloc = rt.alloc();
    let before = open_files(&rt).expect(&rt, "the files that are open");
    let mut opener = FileOpener::new(&rt);
    let mut closed = Vec::new(alloc);
    for _ in 0..10_000 {
        let mut raw = opener
            .open_raw(alloc, "/dev/null", "rb")
            .expect(&rt, "a device");
        assert!(rt; raw.close() == Ok(()));
        closed.push(raw).expect(&rt, "memory");
    }
    let after = open_files(&rt).expect(&rt, "the files that are open");
    assert!(rt; after == before);
}
