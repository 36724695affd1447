//! Cookies that are kept: an index of a log that grows, and what a changed text does to a cookie.
use crate::making::{OverBytes, STRICT, text_of};
use crate::shown::characters;
use anyhow::Result;
use py_flat::IoFault;
use py_stream::BufferedStream;
use py_text::{Coder, Encoding, Handler};
use py_textio::TextIOWrapper;
use std::alloc::{AllocError, Global};

/// Goes on with an index of a log: the cookies at which its lines begin. The last line is read anew, since it may have been half a line.
fn go_on<B: BufferedStream>(
    alloc: Global,
    log: &mut TextIOWrapper<B>,
    index: &mut Vec<[u8; 25]>,
) -> Result<(), IoFault> {
    let last = index.pop().unwrap_or([0; 25]); // of an empty index the start
    log.seek(alloc, &last[..], 0)?;
    for _ in 0..u64::MAX {
        let here = log.tell()?.build().unwrap_or([0; 25]); // one that is told can be built
        let line = match log.readline(alloc, None)? {
            Some(line) if !line.is_empty() => line,
            _ => return Ok(()), // nothing is left, or not yet
        };
        index.push(here)?;
        if !line.ends_with('\n') {
            return Ok(()); // half a line: the log ends there, or has to wait
        }
    }
    Ok(())
}

/// The line of a number, by the index.
fn line_of<B: BufferedStream>(
    alloc: Global,
    log: &mut TextIOWrapper<B>,
    index: &[[u8; 25]],
    number: usize,
) -> Result<Option<String>, IoFault> {
    let Some(cookie) = index.get(number) else {
        return Ok(None);
    };
    log.seek(alloc, &cookie[..], 0)?;
    log.readline(alloc, None)
}

/// The bytes that an index is kept as between two runs, in a file or elsewhere: 25 for each cookie.
fn kept(alloc: Global, index: &[[u8; 25]]) -> Result<Vec<u8>, AllocError> {
    let mut bytes = Vec::new(alloc);
    for cookie in index {
        bytes.extend_from_slice(&cookie[..])?;
    }
    Ok(bytes)
}

/// The index that was kept as some bytes; a cookie that was kept in part is left out.
fn found(alloc: Global, bytes: &[u8]) -> Result<Vec<[u8; 25]>, AllocError> {
    let mut index = Vec::new(alloc);
    for part in bytes.chunks(25) {
        let mut cookie = [0; 25];
        if part.len() == cookie.len() {
            cookie.copy_from_slice(part);
            index.push(cookie)?;
        }
    }
    Ok(index)
}

/// A run of the indexer over the bytes that a log has by then.
fn run(alloc: Global, bytes: &[u8], index: &mut Vec<[u8; 25]>) -> Result<()> {
    let mut log = text_of(alloc, bytes, &[], STRICT)?;
    Ok(go_on(alloc, &mut log, index)?)
}

/// The line of a number, of the bytes that a log has by then.
fn look_up(
    alloc: Global,
    bytes: &[u8],
    index: &[[u8; 25]],
    number: usize,
) -> Result<Option<String>> {
    let mut log = text_of(alloc, bytes, &[], STRICT)?;
    Ok(line_of(alloc, &mut log, index, number)?)
}

/// An index goes on where it was left, over a log that grew.
pub(crate) fn indexed(alloc: Global) -> Result<String> {
    let mut index = Vec::new(alloc);
    run(alloc, "één\r\ntwee\r\ndr".as_bytes(), &mut index)?; // three lines, of which one is half
    let first = index.len();
    let bytes = kept(alloc, &index)?; // 75 of them
    let mut index = found(alloc, &bytes)?; // after a restart
    let grown = "één\r\ntwee\r\ndrie\r\nvier\r\n".as_bytes();
    run(alloc, grown, &mut index)?; // four: "dr" was read anew
    let third = look_up(alloc, grown, &index, 2)?; // Some("drie\n")
    Ok(format!(in alloc; "indexed: {first} {} {:?}", index.len(), characters(&third))?)
}

/// A coder of UTF-8.
fn by(errors: Handler) -> Coder {
    Coder {
        encoding: Encoding::Utf8,
        errors,
    }
}

/// A cookie inside what stands for a byte, of a text by a handler that replaces it by four characters.
fn told(alloc: Global, bytes: &[u8]) -> Result<[u8; 25]> {
    let mut text = text_of(alloc, bytes, &[], by(Handler::BackslashReplace))?;
    Ok(lent_told(alloc, &mut text)?)
}

/// The calls of `told`, of a text that is lent: a `?` drops nothing of it.
fn lent_told(alloc: Global, text: &mut OverBytes) -> Result<[u8; 25], IoFault> {
    text.read(alloc, Some(3))?; // Some("A\\x")
    let cookie = text.tell()?; // inside: byte 1, which feeds 1 byte and skips 2 characters
    Ok(cookie.build().unwrap_or([0; 25]))
}

/// A cookie that skips characters is refused by a text of other settings, which stands at its start then.
pub(crate) fn unfit(alloc: Global) -> Result<String> {
    let cookie = told(alloc, b"A\xFFB")?;
    let mut text = text_of(alloc, b"A\xFFB", &[], by(Handler::Replace))?;
    Ok(lent_unfit(alloc, &mut text, cookie)?)
}

/// The calls of `unfit`, of a text that is lent.
fn lent_unfit(alloc: Global, text: &mut OverBytes, cookie: [u8; 25]) -> Result<String, IoFault> {
    let is_unfit = text.seek(alloc, &cookie[..], 0) == Err(IoFault::CannotRestore);
    let rest = text.read(alloc, None)?; // Some("\u{FFFD}B"), from byte 1
    let is_invalid = text.seek(alloc, &[0; 26], 0) == Err(IoFault::InvalidCookie);
    let end = text.seek(alloc, &[], 2)?; // where the bytes end
    Ok(format!(in alloc;
        "unfit: {is_unfit} {:?} {is_invalid} {}",
        characters(&rest),
        end.start_pos
    )?)
}
