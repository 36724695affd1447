//! Sources over readers and sinks over writers, as standard input and output.
use crate::fake::Holding;
use py_raw::{Failed, ReadSource, Sink, Source, WriteSink};
use std::io;
use std::io::{Cursor, ErrorKind, Read, Write};
use std::process::Abort;

/// A reader whose first reads fail in one way, and whose others give one byte.
#[derive(Drop)]
struct FailsFirst {
    fails: u32,
    why: ErrorKind,
}

impl Read for FailsFirst {
    fn read(&mut self, buf: &mut [u8]) -> io::Result<usize> {
        if self.fails > 0 {
            self.fails -= 1;
            return Err(io::Error::from(self.why));
        }
        if buf.is_empty() {
            return Ok(0);
        }
        buf[0] = b'x';
        Ok(1)
    }
}

/// What a reading into four bytes answers, and what it brings.
type Reading<'a> = (Result<usize, Failed>, &'a [u8]);

/// Reads, and compares what each reading answers and brings.
fn assert_reads<S: Source>(rt: &impl Abort, source: &mut S, readings: &[Reading<'_>]) {
    for (answer, bytes) in readings {
        let mut buf = [0; 4];
        assert!(rt; source.read(&mut buf) == *answer);
        assert!(rt; buf.starts_with(bytes));
    }
}

/// The readings of a reader that holds six bytes.
const ALL_OF_IT: [Reading<'static>; 3] = [(Ok(4), b"abcd"), (Ok(2), b"ef"), (Ok(0), b"")];

/// The readings of a reader whose first would block.
const FAILS: [Reading<'static>; 2] = [(Err(Failed), b""), (Ok(1), b"x")];

/// The reading of a reader that is interrupted, which is read again, as `write_all` of a sink writes again.
const IS_INTERRUPTED: [Reading<'static>; 1] = [(Ok(1), b"x")];

#[test]
fn reads_what_the_reader_gives_and_fails_where_it_fails(rt: HostRuntime) {
    let mut source = ReadSource::new(Cursor::new(b"abcdef".as_slice()));
    assert_reads(&rt, &mut source, &ALL_OF_IT);
    let why = ErrorKind::WouldBlock;
    let mut failing = ReadSource::new(FailsFirst { fails: 1, why });
    assert_reads(&rt, &mut failing, &FAILS);
    let why = ErrorKind::Interrupted;
    let mut interrupted = ReadSource::new(FailsFirst { fails: 2, why });
    assert_reads(&rt, &mut interrupted, &IS_INTERRUPTED);
}

/// A writer that takes one byte a write into its three places, and keeps them until it is flushed, which fails once
/// all are taken.
#[derive(Drop)]
struct Narrow {
    taken: usize,
}

impl Write for Narrow {
    fn write(&mut self, buf: &[u8]) -> io::Result<usize> {
        if self.taken < 3 && !buf.is_empty() {
            self.taken += 1;
            return Ok(1);
        }
        Ok(0)
    }

    fn flush(&mut self) -> io::Result<()> {
        if self.taken < 3 {
            return Ok(());
        }
        Err(io::Error::from(ErrorKind::StorageFull))
    }
}

/// A piece that is written, and what the sink answers.
type Writing<'a> = (&'a [u8], Result<(), Failed>);

/// Writes, and compares what each write answers.
fn assert_writes<S: Sink>(rt: &impl Abort, sink: &mut S, writings: &[Writing<'_>]) {
    for (piece, answer) in writings {
        assert!(rt; sink.write(piece) == *answer);
    }
}

/// The writes of a writer that takes all.
const TAKES_ALL: [Writing<'static>; 2] = [(b"ab", Ok(())), (b"c", Ok(()))];

/// The writes of a writer that takes three bytes.
const TAKES_THREE: [Writing<'static>; 3] = [
    (b"ab", Ok(())),
    (b"c", Err(Failed)),
    (b"d", Err(Failed)),
];

#[test]
fn writes_all_and_fails_where_the_writer_fails(rt: HostRuntime) {
    let mut bytes = Vec::new(rt.alloc());
    assert_writes(&rt, &mut WriteSink::new(&mut bytes), &TAKES_ALL);
    assert!(rt; bytes.as_slice() == b"abc".as_slice());
    let mut narrow = WriteSink::new(Narrow { taken: 0 });
    assert_writes(&rt, &mut narrow, &TAKES_THREE);
}

/// The writes of a writer that holds what it took until it is flushed.
const HELD: [Writing<'static>; 3] = [(b"abc", Ok(())), (b"de", Ok(())), (b"f", Ok(()))];

/// The write of a writer whose flush would block.
const BLOCKS: [Writing<'static>; 1] = [(b"abc", Err(Failed))];

#[test]
fn a_flush_that_was_interrupted_is_made_again_and_one_that_would_block_fails(rt: HostRuntime) {
    let mut writer = Holding::new(&[ErrorKind::Interrupted; 2]);
    assert_writes(&rt, &mut WriteSink::new(&mut writer), &HELD);
    assert!(rt; (writer.flushes, writer.passed) == (5, 6));
    let mut sink = WriteSink::new(Holding::new(&[ErrorKind::WouldBlock]));
    assert_writes(&rt, &mut sink, &BLOCKS);
}
