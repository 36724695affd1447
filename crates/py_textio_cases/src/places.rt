//! Where texts tell that they stand, beside the plain text.
use py_flat::IoFault;
use py_plain_text::{PlainPlace, PlainSettings, PlainText, TextIOCookie};
use py_stream::BufferedStream;
use py_textio::TextIOWrapper;
use std::alloc::Global;

/// Of how many characters of a text the cookies behind them are kept.
const MOST: usize = 200;

/// What the plain text tells at each of its places; nothing where it isn't asked.
#[derive(Debug, Drop)]
pub(crate) struct Places {
    /// Behind each number of characters.
    behind: Vec<TextIOCookie>,
    /// Behind a `read` of all.
    end: Option<TextIOCookie>,
}

/// Reads one more character of the plain text, and answers whether there was one.
fn passes_one(alloc: Global, plain: &mut PlainText) -> bool {
    match plain.read(alloc, Some(1)) {
        Ok(characters) => !characters.as_str().is_empty(),
        Err(_) => false,
    }
}

/// What the plain text tells behind each number of its characters.
fn told_behind(alloc: Global, plain: &mut PlainText) -> Result<Vec<TextIOCookie>, IoFault> {
    let mut behind = Vec::new(alloc);
    for _ in 0..MOST {
        let told = plain.tell(alloc)?;
        if behind.push(told).is_err() {
            return Err(IoFault::NoMemory);
        }
        if !passes_one(alloc, plain) {
            break;
        }
    }
    Ok(behind)
}

/// What the plain text tells behind a `read` of all, where that isn't refused.
fn told_behind_all(alloc: Global, plain: &mut PlainText) -> Option<TextIOCookie> {
    match plain.read(alloc, None) {
        Ok(_) => plain.tell(alloc).ok(),
        Err(_) => None,
    }
}

impl Places {
    /// The places of a text that isn't asked where it stands.
    pub(crate) fn unasked(alloc: Global) -> Places {
        Places {
            behind: Vec::new(alloc),
            end: None,
        }
    }

    /// The places of the plain text over some bytes.
    pub(crate) fn of(
        alloc: Global,
        settings: PlainSettings,
        bytes: Vec<u8>,
    ) -> Result<Places, IoFault> {
        let mut plain = PlainText::new(bytes, settings);
        let behind = told_behind(alloc, &mut plain)?;
        let end = told_behind_all(alloc, &mut plain);
        Ok(Places { behind, end })
    }

    /// Whether the text is asked where it stands.
    pub(crate) fn are_asked(&self) -> bool {
        !self.behind.is_empty()
    }

    /// What the plain text tells at a place that it came to by reading.
    pub(crate) fn at(&self, place: PlainPlace) -> Option<TextIOCookie> {
        if place.at == 0 {
            return self.behind.get(place.taken).copied();
        }
        self.end
    }
}

/// Whether a text tells this cookie; over a stream that can't be moved it has to refuse it.
pub(crate) fn tells_as<B: BufferedStream>(
    text: &mut TextIOWrapper<B>,
    expected: Option<TextIOCookie>,
) -> bool {
    let told = text.tell();
    if !text.seekable() {
        return matches!(told, Err(IoFault::Unsupported));
    }
    match (told, expected) {
        (Ok(told), Some(expected)) => told == expected,
        _ => false,
    }
}
