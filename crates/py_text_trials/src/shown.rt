//! Answers as words.
use py_flat::IoFault;
use py_stream::BufferedStream;
use py_textio::{TextIOCookie, TextIOWrapper};
use std::alloc::{AllocError, Global};

/// Appends a refusal as words.
pub fn push_fault(alloc: Global, out: &mut String, fault: IoFault) -> Result<(), AllocError> {
    match fault {
        IoFault::UnicodeDecodeError { start, end } => {
            out.push_str(format!(in alloc; "err UnicodeDecodeError {start} {end}")?.as_str())
        }
        IoFault::UnicodeEncodeError { start, end } => {
            out.push_str(format!(in alloc; "err UnicodeEncodeError {start} {end}")?.as_str())
        }
        IoFault::WouldBlock { taken } => {
            out.push_str(format!(in alloc; "err WouldBlock {taken}")?.as_str())
        }
        IoFault::UnknownHandler => out.push_str("err UnknownHandler"),
        IoFault::BadArgument => out.push_str("err BadArgument"),
        IoFault::BufferError => out.push_str("err BufferError"),
        IoFault::Unsupported => out.push_str("err Unsupported"),
        IoFault::BadWhence => out.push_str("err BadWhence"),
        IoFault::InvalidCookie => out.push_str("err InvalidCookie"),
        IoFault::CannotRestore => out.push_str("err CannotRestore"),
        IoFault::SeekFirst => out.push_str("err SeekFirst"),
        IoFault::TooFar => out.push_str("err TooFar"),
        IoFault::RawFault => out.push_str("err RawFault"),
        IoFault::Failed => out.push_str("err Failed"),
        IoFault::Closed => out.push_str("err Closed"),
        IoFault::Detached => out.push_str("err Detached"),
        _ => out.push_str("err another"),
    }
}

/// Appends an answer as words: characters as they are, those that aren't seen escaped.
pub fn push_answer(
    alloc: Global,
    out: &mut String,
    answer: Result<Option<String>, IoFault>,
    short: bool,
) -> Result<(), AllocError> {
    match answer {
        Ok(Some(text)) => {
            out.push_str(format!(in alloc; "{:?}", text.as_str())?.as_str())?;
            if short {
                out.push_str(" short")?;
            }
            Ok(())
        }
        Ok(None) => out.push_str("not ready"),
        Err(fault) => push_fault(alloc, out, fault),
    }
}

/// Appends where a text stands, or was put: a cookie by its 25 bytes.
pub fn push_cookie(
    alloc: Global,
    out: &mut String,
    answer: Result<TextIOCookie, IoFault>,
) -> Result<(), AllocError> {
    let cookie = match answer {
        Ok(cookie) => cookie,
        Err(fault) => return push_fault(alloc, out, fault),
    };
    out.push_str("cookie ")?;
    match cookie.build() {
        Some(bytes) => out.push_str(hex::encode(alloc, &bytes[..])?.as_str()),
        None => out.push_str("of a negative field"),
    }
}

/// Puts a text where words say, and appends what that answered: a whence and a cookie as `0,HEX`, without a comma one of no bytes.
pub fn push_sought<B: BufferedStream>(
    alloc: Global,
    out: &mut String,
    text: &mut TextIOWrapper<B>,
    words: &str,
) -> Result<(), AllocError> {
    let (whence, bytes) = words.split_once(',').unwrap_or((words, ""));
    match (whence.parse(), hex::decode(alloc, bytes.as_bytes())) {
        (Ok(whence), Ok(cookie)) => push_cookie(alloc, out, text.seek(alloc, &cookie, whence)),
        _ => out.push_str("no such seek"),
    }
}
