//! What `{:?}` shows of streams and sessions: what is under them, the place and the life, and how much is in hand.
use py_example_streams::{reader_of, writer_to};
use py_open::{OpenArgs, Run, run_session};
use py_raw::RawFlags;
use py_raw_memory::MemRaw;
use py_registry::{CodecsRegistry, NoHandler, NoSearch};
use std::alloc::{AllocError, Global};
use std::fmt::Debug;
use std::test::Fail;

/// Whether a text has a part.
fn has(text: &str, part: &str) -> bool {
    text.contains(part)
}

/// What `{:?}` shows.
fn shown<T: Debug>(alloc: Global, it: &T) -> Result<String, AllocError> {
    format!(in alloc; "{it:?}")
}

/// A run of no calls over three bytes, by a mode.
fn run_by(
    alloc: Global,
    registry: &mut CodecsRegistry<NoSearch, NoHandler>,
    mode: &str,
) -> Result<Run<MemRaw>, Fail> {
    let flags = RawFlags::able(true, true, true);
    let bytes = b"abc".to_vec(alloc)?;
    let raw = MemRaw::new(bytes, flags, Vec::new(alloc), Vec::new(alloc));
    Ok(run_session(alloc, raw, registry, mode, OpenArgs::default(), &[])?)
}

/// What `{:?}` shows of a run of no calls, by a mode and a registry in which only what is built in has a name.
fn run_shown(alloc: Global, mode: &str) -> Result<String, Fail> {
    let mut registry = CodecsRegistry::<NoSearch, NoHandler>::new(alloc)?;
    let run = run_by(alloc, &mut registry, mode)?;
    Ok(shown(alloc, &run)?)
}

#[test]
fn a_reader_shows_where_it_stands_and_not_its_buffer(rt: HostRuntime) -> Result<(), Fail> {
    let alloc = rt.alloc();
    let mut reader = reader_of(alloc, b"abcdef", &[], &[], 4)?;
    assert!(rt; reader.read(alloc, Some(3)).is_ok());
    let text = shown(alloc, &reader).expect(&rt, "room");
    assert!(rt;
        has(
            text.as_str(),
            "BufferedOver { inner: Buffered { data: Some(BufferedData { live: LiveRaw { raw: MemRaw {"
        )
    );
    assert!(rt; has(text.as_str(), "access: Read, life: Live"));
    assert!(rt;
        has(
            text.as_str(),
            "window: Window { place: 3, ahead: 1, pending: 0, size: 4 }"
        )
    );
    Ok(())
}

#[test]
fn a_writer_shows_what_it_owes_and_not_its_buffer(rt: HostRuntime) -> Result<(), Fail> {
    let alloc = rt.alloc();
    let mut writer = writer_to(alloc, b"", &[], &[], 4)?;
    assert!(rt; writer.write(b"abc") == Ok(3));
    let text = shown(alloc, &writer).expect(&rt, "room");
    assert!(rt; has(text.as_str(), "access: Write, life: Live"));
    assert!(rt;
        has(
            text.as_str(),
            "window: Window { place: 3, ahead: 0, pending: 3, size: 4 }"
        )
    );
    Ok(())
}

#[test]
fn a_session_shows_its_stream(rt: HostRuntime) -> Result<(), Fail> {
    let alloc = rt.alloc();
    let bytes = run_shown(alloc, "rb")?;
    assert!(rt; has(bytes.as_str(), "kind: Binary(BinarySession {"));
    assert!(rt; has(bytes.as_str(), "replies: []"));
    Ok(())
}
