//! Readings of one transfer, and of all that is left.
ghost use Rattle.std.specs.Prelude.{◌≡◌, length};
ghost use Rattle.py_flat.specs.Calls.{Read, ReadInto};
ghost use Rattle.py_stream.specs.Answers.{Answers};
ghost use Rattle.py_stream.specs.Replies.{bytes_reply, into_reply, CountFits, KeepsBuffer};
ghost use Rattle.py_unbuffered.specs.Engine.{stream_of};

use super::UnbufferedData;
use py_raw::{IoFault, RawStream};
use py_stream::{ReadsOn, read_rest};
use std::alloc::Global;

impl<R: RawStream> UnbufferedData<R> {
    /// Reads at most n bytes, or all that are left.
    pub fn read(&mut self, alloc: Global, size: Option<usize>) -> Result<Option<Vec<u8>>, IoFault>
        ensures { Answers (stream_of self.old) (Read size) (bytes_reply result) (stream_of self.new) }
    {
        match size {
            Some(size) => self.read_once(alloc, size),
            None => read_rest(self, alloc),
        }
    }

    /// Reads into a buffer, by one transfer.
    pub fn readinto(&mut self, buffer: &mut [u8]) -> Result<Option<usize>, IoFault>
        ensures answers { Answers (stream_of self.old) (ReadInto (length buffer.old)) (into_reply result buffer.new) (stream_of self.new) }
        ensures length { length buffer.new ≡ length buffer.old }
        ensures fits { CountFits result buffer.new }
        ensures refused { KeepsBuffer result buffer.old buffer.new }
    {
        let _ = &self.live;
        self.begin_reading()?;
        let count = self.transfer(buffer, false)?;
        self.note_wait(count.is_none());
        Ok(count)
    }

    /// Reads into a vector by one transfer; its space is taken first.
    fn read_once(&mut self, alloc: Global, size: usize) -> Result<Option<Vec<u8>>, IoFault>
        ensures { Answers (stream_of self.old) (Read (Some size)) (bytes_reply result) (stream_of self.new) }
    {
        let _ = &self.live;
        self.begin_reading()?;
        let Ok(bytes) = vec![in alloc; 0u8; size] else {
            return Err(IoFault::NoMemory);
        };
        let mut bytes = bytes;
        match self.transfer(&mut bytes, false)? {
            Some(count) => {
                bytes.truncate(count);
                Ok(Some(bytes))
            }
            None => {
                self.note_wait(true);
                Ok(None)
            }
        }
    }
}
