//! A text beside the plain one: what each call answers.
use crate::asking::Asking;
use py_flat::IoFault;
use py_plain_text::PlainText;
use std::alloc::Global;

/// What came of a call.
#[derive(Clone, Copy, Debug, PartialEq, Eq)]
pub enum Came {
    /// The answer of the plain text.
    Same,
    /// Some of it, or none yet, as the raw would have blocked.
    Short,
    /// The raw failed.
    Faulted,
    /// Another answer.
    Differs,
}

/// Whether the next characters of the plain text are these.
fn are_next(alloc: Global, plain: &mut PlainText, text: &str) -> bool {
    match plain.read(alloc, Some(text.chars().count())) {
        Ok(characters) => characters.as_str() == text,
        Err(_) => false,
    }
}

/// Whether the plain text answers a call with these characters.
fn answers(alloc: Global, plain: &mut PlainText, asking: Asking, text: &str) -> bool {
    match asking.of_plain(alloc, plain) {
        Ok(characters) => characters.as_str() == text,
        Err(_) => false,
    }
}

/// Whether the plain text refuses a call so.
fn refuses(alloc: Global, plain: &mut PlainText, asking: Asking, fault: IoFault) -> bool {
    match asking.of_plain(alloc, plain) {
        Ok(_) => false,
        Err(expected) => expected == fault,
    }
}

/// What came of a call, beside the plain text, which it is made on too: of a short answer as many characters are read there.
pub fn came_of(
    alloc: Global,
    plain: &mut PlainText,
    asking: Asking,
    answer: Result<Option<String>, IoFault>,
    short: bool,
) -> Came {
    let (fits, came) = match answer {
        Ok(Some(text)) if short => (
            !text.is_empty() && are_next(alloc, plain, text.as_str()),
            Came::Short,
        ),
        Ok(Some(text)) => (answers(alloc, plain, asking, text.as_str()), Came::Same),
        Ok(None) => (short, Came::Short),
        Err(IoFault::RawFault) => (!short, Came::Faulted),
        Err(fault) => (!short && refuses(alloc, plain, asking, fault), Came::Same),
    };
    if fits { came } else { Came::Differs }
}
