//! The stream that takes the bytes out.
ghost use Rattle.std.proofs.Common.{rules};
ghost use Rattle.std.specs.Prelude.{◌≡◌, true, false};
ghost use Rattle.py_raw.specs.RawStream.{untold};
ghost use Rattle.py_queue_raw.specs.QueueRaw.{shown};

use crate::Queue;
use py_raw::{RawError, RawStream};

/// What is taken out of a queue, as a raw stream: it can be read, and neither written nor moved.
///
/// It tells nothing. An empty queue would block until its end was said; that is counted, once each time.
#[derive(Debug, Drop)]
pub struct QueueRaw<'a> {
    queue: &'a Queue,
    closed: bool,
    faults: u64,
    waits: u64,
}

impl<'a> QueueRaw<'a> {
    /// An open stream over a queue.
    pub fn new(queue: &'a Queue) -> Self
        ensures { shown result ≡ untold 0 0 false true false false }
    {
        QueueRaw {
            queue,
            closed: false,
            faults: 0,
            waits: 0,
        }
    }
}

impl<'a> RawStream for QueueRaw<'a> {
    ghost shows = { shown };

    ghost told_length = { λ raw _. Prim.search rules };

    fn unsupported(&mut self) -> RawError {
        self.faults = self.faults.saturating_add(1);
        RawError::Fault
    }

    fn readinto(&mut self, buf: &mut [u8]) -> Result<Option<usize>, RawError> {
        let count = self.queue.take(buf);
        if count == 0 && !buf.is_empty() && !self.queue.ended() {
            self.waits = self.waits.saturating_add(1);
            return Ok(None);
        }
        Ok(Some(count))
    }

    fn close(&mut self) -> Result<(), RawError> {
        self.closed = true;
        Ok(())
    }

    fn closed(&self) -> bool {
        self.closed
    }

    fn readable(&self) -> bool {
        true
    }

    fn writable(&self) -> bool {
        false
    }

    fn seekable(&self) -> bool {
        false
    }
}
