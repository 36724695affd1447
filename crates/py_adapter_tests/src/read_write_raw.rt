//! Raw streams over readers and writers.
use crate::calls::{Call, Moved, assert_answers};
use crate::fake::{Fake, Holding, Step};
use py_raw::{RawError, RawStream, Reads};
use py_raw_files::{ReadRaw, WriteRaw};
use std::io::ErrorKind;

/// A fault, of whatever call.
const FAULT: RawError = RawError::Fault;

/// What a reader answers, what a stream over it answers to a reading of three bytes, and how many faults and waits that makes.
const READS: [(Step, Moved, u64, u64); 6] = [
    (Step::Moves(0), Ok(Some(0)), 0, 0),
    (Step::Moves(2), Ok(Some(2)), 0, 0),
    (Step::Moves(9), Ok(Some(3)), 0, 0),
    (Step::Fails(ErrorKind::WouldBlock), Ok(None), 0, 1),
    (Step::Fails(ErrorKind::Interrupted), Ok(None), 0, 1),
    (Step::Fails(ErrorKind::BrokenPipe), Err(FAULT), 1, 0),
];

#[test]
fn a_reader_waits_and_fails_as_a_file_does(rt: HostRuntime) {
    for (case, (step, answer, faults, waits)) in READS.into_iter().enumerate() {
        let mut raw = ReadRaw::new(Fake::new(step, 0));
        let mut reads = Reads::default();
        if let Ok(Some(count)) = answer {
            reads.count(count);
        }
        let calls = [
            Call::Read(answer, b"..."),
            Call::Counted(1, 0, faults, waits),
            Call::Brought(reads),
        ];
        assert_answers(&rt, &mut raw, case, &calls);
    }
}

/// What a writer answers, what a stream over it answers to a write of three bytes, and how many bytes written, faults and waits that
/// makes.
const WRITES: [(Step, Moved, u64, u64, u64); 6] = [
    (Step::Moves(0), Ok(Some(0)), 0, 1, 0),
    (Step::Moves(2), Ok(Some(2)), 2, 0, 0),
    (Step::Moves(9), Ok(Some(3)), 3, 0, 0),
    (Step::Fails(ErrorKind::WouldBlock), Ok(None), 0, 0, 1),
    (Step::Fails(ErrorKind::Interrupted), Ok(None), 0, 0, 1),
    (Step::Fails(ErrorKind::StorageFull), Err(FAULT), 0, 1, 0),
];

#[test]
fn a_writer_waits_and_fails_as_a_file_does(rt: HostRuntime) {
    for (case, (step, answer, written, faults, waits)) in WRITES.into_iter().enumerate() {
        let mut raw = WriteRaw::new(Fake::new(step, 0));
        let calls = [
            Call::Write(b"abc", answer),
            Call::Counted(1, written, faults, waits),
            Call::Brought(Reads::default()),
        ];
        assert_answers(&rt, &mut raw, case, &calls);
    }
}

/// The calls that a reader lacks.
const READER_LACKS: [Call<'static>; 6] = [
    Call::Seek(0, Err(FAULT)),
    Call::Tell(Err(FAULT)),
    Call::End(Err(FAULT)),
    Call::Truncate(0, Err(FAULT)),
    Call::Write(b"abc", Err(FAULT)),
    Call::Counted(0, 0, 5, 0),
];

/// The calls that a writer lacks.
const WRITER_LACKS: [Call<'static>; 6] = [
    Call::Seek(0, Err(FAULT)),
    Call::Tell(Err(FAULT)),
    Call::End(Err(FAULT)),
    Call::Truncate(0, Err(FAULT)),
    Call::Read(Err(FAULT), b"..."),
    Call::Counted(0, 0, 5, 0),
];

#[test]
fn a_call_that_a_reader_or_a_writer_lacks_is_a_fault(rt: HostRuntime) {
    let step = Step::Moves(3);
    let mut reader = ReadRaw::new(Fake::new(step, 0));
    assert_answers(&rt, &mut reader, 0, &READER_LACKS);
    let mut writer = WriteRaw::new(Fake::new(step, 0));
    assert_answers(&rt, &mut writer, 1, &WRITER_LACKS);
}

#[test]
fn a_closed_stream_has_no_reader_left(rt: HostRuntime) {
    let step = Step::Moves(3);
    let mut raw = ReadRaw::new(Fake::new(step, 7));
    assert!(rt; raw.close() == Ok(()));
    assert!(rt; raw.closed() && raw.into_inner().is_none());
    let raw = WriteRaw::new(Fake::new(step, 7));
    assert!(rt; raw.into_inner().is_some_and(|file| file.stands == 7));
}

/// What the last error of a reader is, after each call.
const READER_FAILS: [Call<'static>; 5] = [
    Call::LastError(None),
    Call::Read(Err(FAULT), b"..."),
    Call::LastError(Some(ErrorKind::BrokenPipe)),
    Call::Seek(0, Err(FAULT)), // the system saw no fault in this one
    Call::LastError(None),
];

#[test]
fn the_last_error_of_a_reader_is_what_the_system_said(rt: HostRuntime) {
    let step = Step::Fails(ErrorKind::BrokenPipe);
    let mut raw = ReadRaw::new(Fake::new(step, 0));
    assert_answers(&rt, &mut raw, 0, &READER_FAILS);
}

/// What a stream answers whose writer can't pass on what it took.
const CANT_PASS_ON: [Call<'static>; 5] = [
    Call::Write(b"abc", Err(FAULT)),
    Call::Counted(1, 0, 1, 0),
    Call::LastError(Some(ErrorKind::StorageFull)),
    Call::Close(Err(FAULT)),
    Call::Counted(1, 0, 2, 0),
];

#[test]
fn what_a_writer_can_t_pass_on_is_a_fault(rt: HostRuntime) {
    let mut raw = WriteRaw::new(Holding::new(&[ErrorKind::StorageFull; 2]));
    assert_answers(&rt, &mut raw, 0, &CANT_PASS_ON);
}

/// What the flushes of a writer come to that holds what it took.
const HOLDS: [ErrorKind; 4] = [
    ErrorKind::WouldBlock,
    ErrorKind::WouldBlock,
    ErrorKind::Interrupted,
    ErrorKind::Interrupted,
];

/// What a stream over it answers.
const PASSES_ON_LATER: [Call<'static>; 8] = [
    Call::Write(b"abc", Ok(Some(3))), // the writer took them, and holds them
    Call::Counted(1, 3, 0, 0),
    Call::Write(b"de", Ok(None)),
    Call::Counted(2, 3, 0, 1),
    Call::Write(b"de", Ok(Some(2))), // flushed twice more at once, as that was interrupted
    Call::Counted(3, 5, 0, 1),
    Call::Write(b"f", Ok(Some(1))), // nothing is held: flushed after it alone
    Call::Counted(4, 6, 0, 1),
];

#[test]
fn what_a_writer_holds_goes_before_the_next_write(rt: HostRuntime) {
    let mut raw = WriteRaw::new(Holding::new(&HOLDS));
    assert_answers(&rt, &mut raw, 0, &PASSES_ON_LATER);
    assert!(rt;
        raw.into_inner().is_some_and(|writer| (writer.flushes, writer.passed, writer.held)
            == (7, 6, 0))
    );
}

/// What a stream answers whose writer took bytes, and can't pass them on later.
const CANT_PASS_ON_LATER: [Call<'static>; 4] = [
    Call::Write(b"abc", Ok(Some(3))),
    Call::Write(b"de", Err(FAULT)),
    Call::Counted(2, 3, 1, 0),
    Call::LastError(Some(ErrorKind::StorageFull)),
];

#[test]
fn what_a_writer_holds_and_can_t_pass_on_is_a_fault(rt: HostRuntime) {
    let errors = [ErrorKind::WouldBlock, ErrorKind::StorageFull];
    let mut raw = WriteRaw::new(Holding::new(&errors));
    assert_answers(&rt, &mut raw, 0, &CANT_PASS_ON_LATER);
}

/// A write, and a close that passes on what the writer holds.
const CLOSES: [Call<'static>; 3] = [
    Call::Write(b"abc", Ok(Some(3))),
    Call::Close(Ok(())),
    Call::Counted(1, 3, 0, 0),
];

/// A write, and a close that can't pass on what the writer holds.
const LOSES: [Call<'static>; 3] = [
    Call::Write(b"abc", Ok(Some(3))),
    Call::Close(Err(FAULT)),
    Call::Counted(1, 3, 1, 0),
];

/// What the flushes of a writer come to, and what a stream over it answers.
const CLOSINGS: [(&[ErrorKind], [Call<'static>; 3]); 4] = [
    (&[], CLOSES),
    (&[ErrorKind::WouldBlock], CLOSES),
    (&[ErrorKind::WouldBlock, ErrorKind::Interrupted], CLOSES),
    (&[ErrorKind::WouldBlock, ErrorKind::WouldBlock], LOSES), // nothing comes after it
];

#[test]
fn closing_passes_on_what_a_writer_holds(rt: HostRuntime) {
    for (case, (errors, calls)) in CLOSINGS.iter().enumerate() {
        let mut raw = WriteRaw::new(Holding::new(errors));
        assert_answers(&rt, &mut raw, case, calls);
    }
}
