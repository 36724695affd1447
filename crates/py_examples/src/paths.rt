//! Paths that are opened in one call, as a text and as bytes.
use py_open::{Call, OpenArgs, OpenFailed, Reply, io_open, open_code, text_encoding};
use py_raw::{Chars, Data, IoFault, Opener};
use py_raw_memory::MemOpener;
use py_registry::{CodecsRegistry, NoHandler, NoSearch};
use std::alloc::Global;
use std::process::Abort;
use std::test::Fail;

/// A registry in which only what is built in has a name.
type BuiltIn = CodecsRegistry<NoSearch, NoHandler>;

fn lent_a_path_is_opened_as_a_text(
    rt: &impl Abort,
    alloc: Global,
    opener: &mut MemOpener,
    registry: &mut BuiltIn,
) -> Result<(), Fail> {
    let args = OpenArgs::default();
    let whole = Reply::Text(Chars::from_text(alloc, "a\n")?);
    let mut text = io_open(alloc, opener, "f", None, &args, registry)?; // as by the mode "r"
    assert!(rt; text.call(alloc, &Call::Read(None)) == whole);
    assert!(rt; text.call(alloc, &Call::Close) == Reply::Done); // passes on what is owed
    opener.done("f", text.finish().raw)?; // the opener takes the raw back
    Ok(())
}

fn lent_a_path_is_opened_as_bytes(
    rt: &impl Abort,
    alloc: Global,
    opener: &mut MemOpener,
    registry: &mut BuiltIn,
) -> Result<(), Fail> {
    let whole = Reply::Bytes(Data::from_slice(alloc, b"a\r\n")?);
    let mut code = open_code(alloc, opener, "f", registry)?; // as by the mode "rb"
    assert!(rt; code.call(alloc, &Call::Read(None)) == whole);
    Ok(())
}

#[test]
fn a_path_is_opened_as_a_text_and_as_bytes(rt: HostRuntime) -> Result<(), Fail> {
    let alloc = rt.alloc();
    assert!(rt; text_encoding(None) == "utf-8");
    let mut registry = BuiltIn::new(alloc).expect(&rt, "room");
    let mut opener = MemOpener::new(alloc);
    let bytes = b"a\r\n".to_vec(alloc).expect(&rt, "room");
    opener.put(alloc, "f", bytes).expect(&rt, "room");
    lent_a_path_is_opened_as_a_text(&rt, alloc, &mut opener, &mut registry)?;
    lent_a_path_is_opened_as_bytes(&rt, alloc, &mut opener, &mut registry)
}

/// What a path holds before it is opened, none where nothing is there; the mode; and what it holds once the line `é` was written and
/// the text closed, none where the opening is refused.
const WRITTEN: [(Option<&str>, &str, Option<&str>); 12] = [
    (None, "w", Some("é\n")),
    (Some("one\n"), "w", Some("é\n")),
    (None, "x", Some("é\n")),
    (Some("one\n"), "x", None),
    (None, "a", Some("é\n")),
    (Some("one\n"), "a", Some("one\né\n")),
    (None, "r+", None),
    (Some("one\n"), "r+", Some("é\n\n")),
    (None, "w+", Some("é\n")),
    (Some("one\n"), "w+", Some("é\n")),
    (None, "x+", Some("é\n")),
    (Some("one\n"), "x+", None),
];

/// Whether a path is opened by a mode and the line written, and then read by `+` alone: all that it holds, of which the start is sought.
fn is_written(
    alloc: Global,
    opener: &mut MemOpener,
    registry: &mut BuiltIn,
    mode: &str,
    whole: &str,
) -> Result<bool, IoFault> {
    let line = Call::WriteText(Chars::from_text(alloc, "é\n")?);
    let start = Call::SeekText(Data::from_slice(alloc, b"")?, 0);
    let all = match mode.contains('+') {
        true => Reply::Text(Chars::from_text(alloc, whole)?),
        false => Reply::Refused(IoFault::Unsupported),
    };
    let args = OpenArgs::default();
    let mut text = io_open(alloc, opener, "f", Some(mode), &args, registry)?;
    let is_taken = text.call(alloc, &line) == Reply::Count(2);
    text.call(alloc, &start); // which a text that appends refuses
    let is_read = text.call(alloc, &Call::Read(None)) == all;
    let is_closed = text.call(alloc, &Call::Close) == Reply::Done;
    opener.done("f", text.finish().raw)?;
    Ok(is_taken && is_read && is_closed)
}

/// Whether the opener refuses a path by a mode.
fn is_refused(alloc: Global, opener: &mut MemOpener, registry: &mut BuiltIn, mode: &str) -> bool {
    let args = OpenArgs::default();
    let opened = io_open(alloc, opener, "f", Some(mode), &args, registry);
    matches!(opened, Err(OpenFailed::Opener))
}

/// Whether a path that holds this becomes that.
fn becomes(
    alloc: Global,
    registry: &mut BuiltIn,
    before: Option<&str>,
    mode: &str,
    after: Option<&str>,
) -> Result<bool, IoFault> {
    let mut opener = MemOpener::new(alloc);
    if let Some(held) = before {
        opener.put(alloc, "f", held.as_bytes().to_vec(alloc)?)?;
    }
    let (is_so, left) = match after {
        Some(whole) => (
            is_written(alloc, &mut opener, registry, mode, whole)?,
            after,
        ),
        None => (is_refused(alloc, &mut opener, registry, mode), before),
    };
    Ok(is_so && opener.bytes_at("f") == left.map(|held| held.as_bytes()))
}

#[test]
fn a_text_is_written_at_its_path_by_each_mode(rt: HostRuntime) {
    let alloc = rt.alloc();
    let mut registry = BuiltIn::new(alloc).expect(&rt, "room");
    for (before, mode, after) in WRITTEN {
        assert!(rt;
            becomes(alloc, &mut registry, before, mode, after) == Ok(true),
            "by {mode}"
        );
    }
}
