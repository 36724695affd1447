//! The queue, into which one part of a program puts what another takes out.
ghost use Rattle.std.specs.Prelude.{◌≤◌, length};

use std::alloc::{AllocError, Global};
use std::cell::Cell;
use std::fmt;

/// Bytes that were put in and not taken out yet, and whether more may come.
///
/// It is shared by `&`: who puts bytes in has it beside the stream that takes them out. A cell tells no contract what it holds, so
/// nothing is claimed of the bytes.
#[derive(Drop)]
pub struct Queue {
    alloc: Global,
    bytes: Cell<Vec<u8>>,
    ended: Cell<bool>,
}

// Only how many bytes there are, and not which: thousands of them would hide all else.
impl fmt::Debug for Queue {
    fn fmt<W: fmt::Write>(&self, f: &mut fmt::Formatter<W>) -> fmt::Result {
        let held = self.bytes.replace(Vec::new(self.alloc));
        let count = held.len();
        self.bytes.set(held);
        f.debug_struct("Queue")
            .field("count", &count)
            .field("ended", &self.ended.get())
            .finish_non_exhaustive()
    }
}

impl Queue {
    /// An empty queue, to which more may come. It takes no memory.
    pub fn new(alloc: Global) -> Self {
        Queue {
            alloc,
            bytes: Cell::new(Vec::new(alloc)),
            ended: Cell::new(false),
        }
    }

    /// Puts bytes after those that are there; all of them, or none when out of memory.
    pub fn put(&self, bytes: &[u8]) -> Result<(), AllocError> {
        let mut held = self.bytes.replace(Vec::new(self.alloc));
        let put = held.extend_from_slice(bytes);
        self.bytes.set(held);
        put
    }

    /// Says that no more come: the stream ends once all were taken out.
    pub fn end(&self) {
        self.ended.set(true);
    }

    /// Whether the end was said.
    pub(crate) fn ended(&self) -> bool {
        self.ended.get()
    }

    /// Takes the first bytes out into the front of a buffer, and answers how many.
    pub(crate) fn take(&self, buffer: &mut [u8]) -> usize
        ensures { result ≤ length buffer.old }
    {
        let mut held = self.bytes.replace(Vec::new(self.alloc));
        let count = held.len().min(buffer.len());
        buffer[..count].copy_from_slice(&held[..count]);
        let rest = held.len() - count;
        held.copy_within(count.., 0);
        held.truncate(rest);
        self.bytes.set(held);
        count
    }
}
