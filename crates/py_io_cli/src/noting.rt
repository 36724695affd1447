//! A source whose bytes are kept as they are read.

use py_raw::{Failed, Source};
use std::alloc::Global;

/// A source that is read through, with what came of it, so that a line of it can be named.
#[derive(Drop)]
pub struct Noting<S> {
    source: S,
    seen: Vec<u8>,
}

impl<S> Noting<S> {
    /// A source of which nothing was read so far.
    pub fn new(alloc: Global, source: S) -> Self {
        Noting {
            source,
            seen: Vec::new(alloc),
        }
    }

    /// What was read so far, without a piece for which there was no memory.
    pub fn seen(&self) -> &[u8] {
        self.seen.as_slice()
    }
}

impl<S: Source> Source for Noting<S> {
    ghost shows = { λ noting. S.shows noting.source };

    fn read(&mut self, buf: &mut [u8]) -> Result<usize, Failed> {
        let count = self.source.read(buf)?;
        // A complaint is all that lacks the piece where memory does.
        let _ = self.seen.extend_from_slice(&buf[..count]);
        Ok(count)
    }
}
