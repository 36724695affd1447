//! What is tried: a text over a stream, or a session of a text over a raw.
use crate::apart::{Apart, Held, Under, take_text_apart};
use crate::asking::Asking;
use py_flat::{Chars, IoFault};
use py_open::TextSession;
use py_raw::RawStream;
use py_raw_memory::MemRaw;
use py_stream::Detached;
use py_textio::TextIOWrapper;
use std::alloc::{AllocError, Global};

/// A text that is written and read.
pub trait Tried: Drop {
    /// Writes a text, and answers how many characters it has.
    fn write(&mut self, alloc: Global, text: &str) -> Result<usize, IoFault>;

    /// Reads what is asked for.
    fn ask(&mut self, alloc: Global, asking: Asking) -> Result<Option<String>, IoFault>;

    /// Passes on all that was written.
    fn flush(&mut self) -> Result<(), IoFault>;

    /// Closes it.
    fn close(&mut self) -> Result<(), IoFault>;

    /// Whether it is closed.
    fn is_closed(&self) -> bool;

    /// Whether a wait cut its last call short.
    fn is_short(&self) -> bool;

    /// What it comes to, taken apart.
    fn take_apart(self, alloc: Global) -> Result<Apart, AllocError>;
}

impl<B: Under> Tried for TextIOWrapper<B> {
    fn write(&mut self, alloc: Global, text: &str) -> Result<usize, IoFault> {
        TextIOWrapper::write(self, alloc, text)
    }

    fn ask(&mut self, alloc: Global, asking: Asking) -> Result<Option<String>, IoFault> {
        asking.of(alloc, self)
    }

    fn flush(&mut self) -> Result<(), IoFault> {
        TextIOWrapper::flush(self)
    }

    fn close(&mut self) -> Result<(), IoFault> {
        TextIOWrapper::close(self)
    }

    fn is_closed(&self) -> bool {
        self.closed()
    }

    fn is_short(&self) -> bool {
        self.short()
    }

    fn take_apart(self, alloc: Global) -> Result<Apart, AllocError> {
        take_text_apart(alloc, self)
    }
}

impl Tried for TextSession<MemRaw> {
    fn write(&mut self, alloc: Global, text: &str) -> Result<usize, IoFault> {
        TextSession::write(self, alloc, text)
    }

    fn ask(&mut self, alloc: Global, asking: Asking) -> Result<Option<String>, IoFault> {
        let answer = match asking {
            Asking::Characters(size) => self.read(alloc, Some(size)),
            Asking::Whole => self.read(alloc, None),
            Asking::Line => self.readline(alloc, None),
            Asking::LineOf(limit) => self.readline(alloc, Some(limit)),
        };
        Ok(answer?.map(Chars::into_string))
    }

    fn flush(&mut self) -> Result<(), IoFault> {
        TextSession::flush(self)
    }

    fn close(&mut self) -> Result<(), IoFault> {
        TextSession::close(self)
    }

    fn is_closed(&self) -> bool {
        self.closed()
    }

    fn is_short(&self) -> bool {
        self.short()
    }

    /// What it owes is one list, as that of a stream alone.
    fn take_apart(self, alloc: Global) -> Result<Apart, AllocError> {
        let Detached {
            raw,
            unwritten,
            place,
        } = self.into_parts();
        let end = match place {
            Some(place) => place.checked_add(unwritten.len() as u64),
            None => None,
        };
        Ok(Apart {
            held: Held {
                is_closed: raw.closed(),
                raw: Some(raw.into_bytes()),
                owed: unwritten,
                owed_at: place,
            },
            unwritten: Vec::new(alloc),
            at: end,
        })
    }
}
