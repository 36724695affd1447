//! The texts of errors, and what `{:?}` shows of what holds bytes.
use py_raw::{
    Failed, IoFault, ModeError, OpenError, ParseModeError, RawError, ReadSource, WriteSink,
};
use py_raw_files::FileOpener;
use py_raw_memory::MemOpener;
use std::alloc::Global;
use std::fmt;
use std::process::Abort;

/// Python's message for a mode without just one of its letters for files.
const ONE_FILE: &str =
    "Must have exactly one of create/read/write/append mode and at most one plus";

/// A value is written as this text.
fn assert_says<T: fmt::Display>(rt: &impl Abort, alloc: Global, value: &T, text: &str) {
    let said = format!(in alloc; "{value}").expect(rt, "memory");
    assert!(rt; said.as_str() == text, "of {text}");
}

/// What each fault says.
const FAULTS: [(IoFault, &str); 30] = [
    (IoFault::Closed, "I/O operation on closed file"),
    (IoFault::Detached, "raw stream has been detached"),
    (IoFault::Failed, "an earlier fault left the stream unusable"),
    (
        IoFault::Unsupported,
        "underlying stream does not support the operation",
    ),
    (IoFault::BadWhence, "invalid whence"),
    (IoFault::NegativeSeek, "negative seek value"),
    (IoFault::TooFar, "position or size too large"),
    (IoFault::BadArgument, "invalid argument"),
    (IoFault::RawFault, "the raw stream failed"),
    (
        IoFault::WouldBlock { taken: 7 },
        "write could not complete without blocking (7 bytes taken)",
    ),
    (IoFault::NoMemory, "out of memory"),
    (
        IoFault::UnicodeDecodeError { start: 2, end: 5 },
        "can't decode bytes in position 2-4",
    ),
    (
        IoFault::UnicodeDecodeError { start: 0, end: 1 },
        "can't decode byte in position 0",
    ),
    (
        IoFault::UnicodeEncodeError { start: 3, end: 4 },
        "can't encode character in position 3",
    ),
    (
        IoFault::UnicodeEncodeError { start: 3, end: 5 },
        "can't encode characters in position 3-4",
    ),
    (
        IoFault::SeekFirst,
        "a text that was read from must be sought before it is written",
    ),
    (IoFault::InvalidCookie, "invalid cookie"),
    (
        IoFault::CannotRestore,
        "can't restore logical file position",
    ),
    (IoFault::UnknownEncoding, "unknown encoding"),
    (IoFault::UnknownHandler, "unknown error handler name"),
    (
        IoFault::ParseMode(ParseModeError::InvalidMode),
        "invalid mode",
    ),
    (
        IoFault::ParseMode(ParseModeError::MultipleFile),
        "must have exactly one of create/read/write/append mode",
    ),
    (
        IoFault::ParseMode(ParseModeError::MultipleEncode),
        "can't have text and binary mode at once",
    ),
    (IoFault::ParseMode(ParseModeError::NoFile), ONE_FILE),
    (
        IoFault::BufferError,
        "existing exports of data: object cannot be re-sized",
    ),
    (
        IoFault::BadRestart,
        "position returned by the error handler is out of bounds",
    ),
    (IoFault::EndOfFile, "EOF when reading a line"),
    (IoFault::ModeText(ModeError::Invalid), "invalid mode"),
    (IoFault::ModeText(ModeError::BadRwa), ONE_FILE),
    (
        IoFault::IndexError { dimension: 1 },
        "index out of bounds on dimension 1",
    ),
];

#[test]
fn each_fault_says_what_went_wrong(rt: HostRuntime) {
    for (fault, text) in FAULTS {
        assert_says(&rt, rt.alloc(), &fault, text);
    }
}

#[test]
fn each_error_of_the_outside_says_what_went_wrong(rt: HostRuntime) {
    let alloc = rt.alloc();
    assert_says(&rt, alloc, &RawError::Fault, "the raw stream failed");
    assert_says(&rt, alloc, &RawError::Memory, "out of memory");
    assert_says(&rt, alloc, &OpenError::Fault, "the opener failed");
    assert_says(&rt, alloc, &OpenError::Memory, "out of memory");
    assert_says(&rt, alloc, &Failed, "the source or sink failed");
}

/// What is wrong with a mode of `open`, the mode, and the message.
const PARSED: [(ParseModeError, &str, &str); 5] = [
    (ParseModeError::InvalidMode, "rr", "invalid mode: 'rr'"),
    (ParseModeError::InvalidMode, "é", "invalid mode: 'é'"),
    (
        ParseModeError::MultipleFile,
        "rw",
        "must have exactly one of create/read/write/append mode",
    ),
    (
        ParseModeError::MultipleEncode,
        "tb",
        "can't have text and binary mode at once",
    ),
    (ParseModeError::NoFile, "", ONE_FILE),
];

/// What is wrong with a mode of a raw stream, the mode, and the message.
const OF_A_RAW: [(ModeError, &str, &str); 4] = [
    (ModeError::Invalid, "rt", "invalid mode: rt"),
    (ModeError::Invalid, "é", "invalid mode: é"),
    (ModeError::BadRwa, "rwb", ONE_FILE),
    (ModeError::BadRwa, "b", ONE_FILE),
];

#[test]
fn a_mode_that_is_refused_has_pythons_message(rt: HostRuntime) {
    let alloc = rt.alloc();
    for (error, mode, message) in PARSED {
        let said = error.error_msg(alloc, mode).expect(&rt, "memory");
        assert!(rt; said.as_str() == message);
    }
    for (error, mode, message) in OF_A_RAW {
        let said = error.error_msg(alloc, mode).expect(&rt, "memory");
        assert!(rt; said.as_str() == message);
    }
}

/// `{:?}` shows this of a value.
fn assert_shows<T: fmt::Debug>(rt: &impl Abort, alloc: Global, value: &T, text: &str) {
    let shown = format!(in alloc; "{value:?}").expect(rt, "memory");
    assert!(rt; shown.as_str() == text, "of {text}");
}

#[test]
fn openers_sources_and_sinks_show_counts_and_no_bytes(rt: HostRuntime) {
    let alloc = rt.alloc();
    let bytes = Vec::from_slice(alloc, b"abc").expect(&rt, "memory");
    let mut held = MemOpener::new(alloc);
    held.put(alloc, "f", bytes).expect(&rt, "memory");
    assert_shows(
        &rt,
        alloc,
        &held,
        "MemOpener { paths: 1, plans: 0, faults: 0, raw_faults: 0, raw_waits: 0, .. }",
    );
    assert_shows(
        &rt,
        alloc,
        &FileOpener::new(&rt),
        "FileOpener { faults: 0, raw_faults: 0, raw_waits: 0, last_error: None, last_file_error: None, .. }",
    );
    let source = ReadSource::new(rt.stdin());
    assert_shows(&rt, alloc, &source, "ReadSource { faults: 0, .. }");
    let sink = WriteSink::new(Vec::new(alloc));
    assert_shows(&rt, alloc, &sink, "WriteSink { faults: 0, .. }");
}
