//! Readings, made on a text and on the plain one.
use py_flat::{Chars, IoFault};
use py_plain_text::PlainText;
use py_stream::BufferedStream;
use py_textio::TextIOWrapper;
use std::alloc::Global;

/// A call that reads.
#[derive(Clone, Copy, Debug, PartialEq, Eq)]
pub enum Asking {
    /// So many characters.
    Characters(usize),
    /// All that is left.
    Whole,
    /// A line.
    Line,
    /// At most so many characters of a line.
    LineOf(usize),
}

impl Asking {
    /// Makes the call on a text.
    pub fn of<B: BufferedStream>(
        self,
        alloc: Global,
        text: &mut TextIOWrapper<B>,
    ) -> Result<Option<String>, IoFault> {
        match self {
            Asking::Characters(size) => text.read(alloc, Some(size)),
            Asking::Whole => text.read(alloc, None),
            Asking::Line => text.readline(alloc, None),
            Asking::LineOf(limit) => text.readline(alloc, Some(limit)),
        }
    }

    /// Makes the call on the plain text.
    pub fn of_plain(self, alloc: Global, text: &mut PlainText) -> Result<Chars, IoFault> {
        match self {
            Asking::Characters(size) => text.read(alloc, Some(size)),
            Asking::Whole => text.read(alloc, None),
            Asking::Line => text.readline(alloc, None),
            Asking::LineOf(limit) => text.readline(alloc, Some(limit)),
        }
    }
}
