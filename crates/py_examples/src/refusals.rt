//! Refusals as errors: `?` takes each to a fault, to an error of std's `io`, or to one of `anyhow`.
use py_buffered::BufferedReader;
use py_example_streams::gives;
use py_flat::IoFault;
use py_open::{OpenArgs, run_session};
use py_raw::{Opener, RawFlags};
use py_raw_memory::{MemOpener, MemRaw};
use py_registry::{CodecsRegistry, NoHandler, NoSearch};
use std::alloc::{AllocError, Global};
use std::{fmt, io};

/// The first line of a path, or the one fault of all that may go wrong: the opening, the reader, the reading.
fn first_line(
    alloc: Global,
    opener: &mut MemOpener,
    path: &str,
) -> Result<Option<Vec<u8>>, IoFault> {
    let raw = opener.open_raw(alloc, path, "rb")?;
    let mut reader = BufferedReader::new(alloc, raw, 8192)?;
    reader.readline(alloc, None)
}

/// Prints the next line of a reader; a refusal is an `io::Error`, as one of printing is.
fn print_line(rt: &HostRuntime, reader: &mut BufferedReader<MemRaw>) -> io::Result<()> {
    let line = reader.readline(rt.alloc(), None)?;
    println!(rt; "{line:?}")
}

/// Prints the first line of what a path holds; a refusal is an `io::Error`, too.
fn print_first_line(rt: &HostRuntime, opener: &mut MemOpener, path: &str) -> io::Result<()> {
    let alloc = rt.alloc();
    let raw = opener.open_raw(alloc, path, "rb")?;
    let mut reader = BufferedReader::new(alloc, raw, 8192)?;
    print_line(rt, &mut reader)
}

/// How many bytes the buffer of a reader of some bytes holds, for a program that only shows what went wrong.
fn buffer_of(alloc: Global, bytes: &[u8], size: usize) -> anyhow::Result<usize> {
    let flags = RawFlags::able(true, false, true);
    let raw = MemRaw::new(
        bytes.to_vec(alloc)?,
        flags,
        Vec::new(alloc),
        Vec::new(alloc),
    );
    let reader = BufferedReader::new(alloc, raw, size)?;
    Ok(reader.buffer_size())
}

/// A registry in which only what is built in has a name.
type BuiltIn = CodecsRegistry<NoSearch, NoHandler>;

/// Opens a session over no bytes, by a mode.
fn open_by(alloc: Global, registry: &mut BuiltIn, mode: &str) -> Result<(), IoFault> {
    let flags = RawFlags::able(true, false, true);
    let raw = MemRaw::new(Vec::new(alloc), flags, Vec::new(alloc), Vec::new(alloc));
    run_session(alloc, raw, registry, mode, OpenArgs::default(), &[])?;
    Ok(())
}

/// Whether an error is shown as a text.
fn says<E: fmt::Display>(alloc: Global, error: &E, text: &str) -> Result<bool, AllocError> {
    Ok(error.to_string(alloc)?.as_str() == text)
}

#[test]
fn one_fault_stands_for_all_that_may_go_wrong(rt: HostRuntime) {
    let alloc = rt.alloc();
    let mut opener = MemOpener::new(alloc);
    let bytes = b"one\ntwo".to_vec(alloc).expect(&rt, "room");
    opener.put(alloc, "held", bytes).expect(&rt, "room");
    assert!(rt; gives(&first_line(alloc, &mut opener, "held"), b"one\n"));
    assert!(rt; first_line(alloc, &mut opener, "missing").err() == Some(IoFault::RawFault));
}

#[test]
fn one_fault_stands_for_a_refused_session(rt: HostRuntime) {
    let alloc = rt.alloc();
    let mut registry = BuiltIn::new(alloc).expect(&rt, "room");
    assert!(rt; open_by(alloc, &mut registry, "rb") == Ok(()));
    assert!(rt; open_by(alloc, &mut registry, "wb") == Err(IoFault::Unsupported));
}

#[test]
fn an_error_of_io_has_the_message_and_the_kind(rt: HostRuntime) {
    let alloc = rt.alloc();
    let mut opener = MemOpener::new(alloc);
    let missing = print_first_line(&rt, &mut opener, "missing").expect_err(&rt, "it was opened");
    assert!(rt; says(alloc, &missing, "the opener failed") == Ok(true));
    let refused = io::Error::from(IoFault::UnicodeDecodeError { start: 2, end: 5 });
    assert!(rt; refused.kind() == io::ErrorKind::InvalidData);
    assert!(rt; says(alloc, &refused, "can't decode bytes in position 2-4") == Ok(true));
}

#[test]
fn a_refused_reader_is_shown_as_its_fault(rt: HostRuntime) {
    let alloc = rt.alloc();
    assert!(rt; buffer_of(alloc, b"one", 16).expect(&rt, "a reader") == 16);
    let refused = buffer_of(alloc, b"one", 0).expect_err(&rt, "a buffer of 0 bytes was taken");
    assert!(rt; says(alloc, &refused, "invalid argument") == Ok(true));
}
