//! A stream of bytes in memory.
ghost use Rattle.std.specs.Prelude.{◌≡◌, false};
ghost use Rattle.py_flat.specs.ExactStep.{is_closed};
ghost use Rattle.py_memio.specs.InMemory.{file_in_memory, OpenOutcome, UnlentOutcome};
ghost use Rattle.py_memio.specs.BytesIO.{no_exports, is_lent, resize_refusal, ResizableOutcome};

mod as_buffer;
mod exports;
mod lent;
mod moving;
mod reading;
mod resizing;
mod writing;

use crate::standing::check_open;
pub use lent::LentBytes;
use py_flat::IoFault;
pub use resizing::Resizable;
use std::alloc::Global;
use std::marker::Model;

/// Bytes in memory that are read and written as a stream: Python's `io.BytesIO`.
///
/// Contracts see the flat file; the exports: which are out, and the number of the next; and how many bytes of the last write were taken.
#[derive(Debug, Drop)]
pub struct BytesIO {
    bytes: Vec<u8>,
    place: u64,
    closed: bool,
    out: Vec<u64>,
    next: Option<u64>,
    taken: u64,
}

// A function's proof knows the invariant where the function uses a field: so some begin with `let _ = &self.bytes;`.
impl Model for BytesIO {
    ghost use Rattle.py_memio.specs.InMemory.{file_in_memory};
    ghost use Rattle.py_memio.specs.BytesIO.{BytesView, IsBytesIO, next_number};

    ghost Value = { BytesView };

    ghost view = { λ b. record { file = file_in_memory b.bytes.items b.place b.closed; exports = record { out = b.out.items; next = next_number b.next }; taken = b.taken } };

    ghost invariant = { λ b. IsBytesIO b.place b.closed b.out.items b.next };
}

impl BytesIO {
    /// A live stream of these bytes, at its start, with no export out. It takes no memory.
    pub fn new(alloc: Global, bytes: Vec<u8>) -> Self
        ensures file { result.file ≡ file_in_memory bytes.items 0 false }
        ensures exports { result.exports ≡ no_exports }
        ensures taken { result.taken ≡ 0 }
    {
        BytesIO {
            bytes,
            place: 0,
            closed: false,
            out: Vec::new(alloc),
            next: Some(0),
            taken: 0,
        }
    }

    /// Whether the stream is closed.
    pub fn closed(&self) -> bool
        ensures { result ≡ is_closed self.now.file.life }
    {
        self.closed
    }

    /// Whether it can be read: always.
    pub fn readable(&self) -> bool
        ensures { result ≡ self.now.file.can.readable }
    {
        let _ = &self.bytes;
        true
    }

    /// Whether it can be written: always.
    pub fn writable(&self) -> bool
        ensures { result ≡ self.now.file.can.writable }
    {
        let _ = &self.bytes;
        true
    }

    /// Whether it can be moved: always.
    pub fn seekable(&self) -> bool
        ensures { result ≡ self.now.file.can.seekable }
    {
        let _ = &self.bytes;
        true
    }

    /// Every call of a closed stream but `close` is refused.
    fn check_open(&self) -> Result<(), IoFault>
        ensures { OpenOutcome self.now.file.life result }
    {
        check_open(self.closed)
    }

    /// What changes how many bytes there are is refused where an export of them is out.
    fn check_unlent(&self) -> Result<(), IoFault>
        ensures { UnlentOutcome (is_lent self.now) result }
    {
        if self.out.is_empty() {
            Ok(())
        } else {
            Err(IoFault::BufferError)
        }
    }

    /// What changes how many bytes there are is refused by a closed stream, and where an export of them is out.
    fn check_resizable(&self) -> Result<(), IoFault>
        ensures { ResizableOutcome (resize_refusal self.now) result }
    {
        if !self.closed & self.out.is_empty() {
            return Ok(()); // one test of both, as most calls pass it
        }
        self.check_open()?;
        self.check_unlent()
    }
}
