//! A text that is read, without a session.
use py_flat::IoFault;
use py_open::TextSession;
use py_raw::{Chars, RawFlags};
use py_raw_memory::MemRaw;
use py_stream::Access;
use py_text::{Coder, Encoding, Handler, Newlines, TextSettings};
use std::alloc::Global;
use std::process::Abort;
use std::test::Fail;

/// A text over some bytes, with a buffer and chunks of 8 bytes.
fn text_of(alloc: Global, bytes: &[u8]) -> Result<TextSession<MemRaw>, Fail> {
    let flags = RawFlags::able(true, false, true);
    let raw = MemRaw::new(
        bytes.to_vec(alloc)?,
        flags,
        Vec::new(alloc),
        Vec::new(alloc),
    );
    let coder = Coder {
        encoding: Encoding::Utf8,
        errors: Handler::Strict,
    };
    let settings = TextSettings {
        newline: Newlines::Lf,
        line_buffering: false,
        write_through: false,
        chunk_size: 8,
    };
    Ok(TextSession::new(alloc, raw, Access::Read, 8, coder, settings)?)
}

/// Whether an answer gives a line; not where it isn't ready or refused.
fn is_line(answer: &Result<Option<Chars>, IoFault>, line: &str) -> bool {
    match answer {
        Ok(Some(given)) => given.as_str() == line,
        _ => false,
    }
}

/// The lines of a text that is lent, in a loop that ends after the last.
fn lent_lines_of_a_text_come_one_by_one(
    rt: &impl Abort,
    alloc: Global,
    text: &mut TextSession<MemRaw>,
) {
    let lines = ["é\n", "\n", "x"];
    let mut count = 0usize;
    for answer in text.lines(alloc) {
        let line = lines.get(count).copied().unwrap_or("there is no more");
        assert!(rt; is_line(&answer, line));
        count = count.saturating_add(1);
    }
    assert!(rt; count == 3);
}

#[test]
fn lines_of_a_text_come_one_by_one(rt: HostRuntime) -> Result<(), Fail> {
    let alloc = rt.alloc();
    let mut text = text_of(alloc, &[0xC3, 0xA9, 0x0A, 0x0A, 0x78])?; // é, two LF, x
    lent_lines_of_a_text_come_one_by_one(&rt, alloc, &mut text);
    Ok(())
}

/// The lines of a text that is lent, up to a range that is refused.
fn lent_lines_of_a_text_end_after_a_refused_range(
    rt: &impl Abort,
    alloc: Global,
    text: &mut TextSession<MemRaw>,
) {
    let refused = IoFault::UnicodeDecodeError { start: 2, end: 3 };
    let mut lines = text.lines(alloc);
    assert!(rt; lines.next().is_some_and(|answer| is_line(&answer, "a\n")));
    assert!(rt; lines.next() == Some(Err(refused)));
    assert!(rt; lines.next() == None);
    // the text stands where it stood, so the same line is refused again
    assert!(rt; text.lines(alloc).next() == Some(Err(refused)));
}

#[test]
fn lines_of_a_text_end_after_a_refused_range(rt: HostRuntime) -> Result<(), Fail> {
    let alloc = rt.alloc();
    let mut text = text_of(alloc, b"a\n\xFFb")?;
    lent_lines_of_a_text_end_after_a_refused_range(&rt, alloc, &mut text);
    Ok(())
}
