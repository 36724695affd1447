//! A stream in memory, as a buffered stream.
ghost use Rattle.std.specs.Prelude.{◌≡◌, length};
ghost use Rattle.py_flat.specs.Refusals.{life_fault};
ghost use Rattle.py_flat.specs.Calls.{Read1, Write, Seek, Tell, Flush, Close};
ghost use Rattle.py_stream.specs.Replies.{bytes_reply, count_reply, place_reply, done_reply};
ghost use Rattle.py_stream.specs.Buffer.{TellsPlace, AnswersEnd, AnswersAsBuffer, Prepares, TakesBack};
ghost use Rattle.py_memio.specs.InMemory.{AnswersInMemory};
ghost use Rattle.py_memio.specs.BytesIO.{as_buffer, is_lent, TellsEnd};

use super::BytesIO;
use py_flat::{IoFault, Life};
use py_stream::BufferedStream;
use std::alloc::Global;

impl BufferedStream for BytesIO {
    ghost shows = { as_buffer };

    ghost own = { λ old call reply new. AnswersInMemory (is_lent old) old.file call reply new.file × (new.exports ≡ old.exports) };

    fn read1(&mut self, alloc: Global, size: Option<usize>) -> Result<Option<Vec<u8>>, IoFault>
        ensures answers { AnswersAsBuffer (as_buffer self.old) (Read1 size) (bytes_reply result) (as_buffer self.new) }
        ensures exact { AnswersInMemory (is_lent self.old) self.old.file (Read1 size) (bytes_reply result) self.new.file }
        ensures exports { self.new.exports ≡ self.old.exports }
    {
        let _ = &self.bytes;
        let given = BytesIO::read1(self, alloc, size);
        let _ = &self.bytes;
        match given {
            Ok(given) => Ok(Some(given)),
            Err(fault) => Err(fault),
        }
    }

    fn write(&mut self, bytes: &[u8]) -> Result<usize, IoFault>
        ensures answers { AnswersAsBuffer (as_buffer self.old) (Write bytes.now) (count_reply result) (as_buffer self.new) }
        ensures exact { AnswersInMemory (is_lent self.old) self.old.file (Write bytes.now) (count_reply result) self.new.file }
        ensures exports { self.new.exports ≡ self.old.exports }
    {
        let _ = &self.bytes;
        let written = BytesIO::write(self, bytes);
        let _ = &self.bytes;
        written
    }

    fn seek(&mut self, offset: i64, whence: i32) -> Result<u64, IoFault>
        ensures answers { AnswersAsBuffer (as_buffer self.old) (Seek offset whence) (place_reply result) (as_buffer self.new) }
        ensures exact { AnswersInMemory (is_lent self.old) self.old.file (Seek offset whence) (place_reply result) self.new.file }
        ensures exports { self.new.exports ≡ self.old.exports }
    {
        let _ = &self.bytes;
        let place = BytesIO::seek(self, offset, whence);
        let _ = &self.bytes;
        place
    }

    fn tell(&mut self) -> Result<u64, IoFault>
        ensures answers { TellsPlace (as_buffer self.old) result (as_buffer self.new) }
        ensures exact { AnswersInMemory (is_lent self.old) self.old.file Tell (place_reply result) self.new.file }
        ensures exports { self.new.exports ≡ self.old.exports }
    {
        let _ = &self.bytes;
        BytesIO::tell(self)
    }

    fn end(&mut self) -> Result<u64, IoFault>
        ensures answers { AnswersEnd (as_buffer self.old) result (as_buffer self.new) }
        ensures exact { TellsEnd (life_fault self.old.file.life) (length self.old.file.bytes) result }
        ensures same { self.new ≡ self.old }
        ensures exports { self.new.exports ≡ self.old.exports }
    {
        self.check_open()?;
        Ok(self.bytes.len() as u64)
    }

    fn flush(&mut self) -> Result<(), IoFault>
        ensures answers { AnswersAsBuffer (as_buffer self.old) Flush (done_reply result) (as_buffer self.new) }
        ensures exact { AnswersInMemory (is_lent self.old) self.old.file Flush (done_reply result) self.new.file }
        ensures exports { self.new.exports ≡ self.old.exports }
    {
        let _ = &self.bytes;
        let done = BytesIO::flush(self);
        let _ = &self.bytes;
        done
    }

    fn prepare_flush(&mut self) -> Result<(), IoFault>
        ensures prepares { Prepares (as_buffer self.old) result (as_buffer self.new) }
        ensures same { self.new ≡ self.old }
    {
        self.check_open()
    }

    fn take_back(&mut self, count: usize) -> bool
        ensures takes { TakesBack (as_buffer self.old) count result (as_buffer self.new) }
        ensures same { self.new ≡ self.old }
    {
        count == 0 && !self.closed
    }

    fn close(&mut self) -> Result<(), IoFault>
        ensures answers { AnswersAsBuffer (as_buffer self.old) Close (done_reply result) (as_buffer self.new) }
        ensures exact { AnswersInMemory (is_lent self.old) self.old.file Close (done_reply result) self.new.file }
        ensures exports { self.new.exports ≡ self.old.exports }
    {
        let _ = &self.bytes;
        let done = BytesIO::close(self);
        let _ = &self.bytes;
        done
    }

    fn readable(&self) -> bool {
        BytesIO::readable(self)
    }

    fn writable(&self) -> bool {
        BytesIO::writable(self)
    }

    fn seekable(&self) -> bool {
        let _ = &self.bytes;
        BytesIO::seekable(self)
    }

    fn appending(&self) -> bool {
        let _ = &self.bytes;
        false
    }

    fn closed(&self) -> bool {
        BytesIO::closed(self)
    }

    fn short(&self) -> bool {
        false
    }

    fn exported(&self) -> bool {
        !self.out.is_empty()
    }

    fn life(&self) -> Life {
        if self.closed {
            Life::Closed
        } else {
            Life::Live
        }
    }

    fn buffer_size(&self) -> usize {
        let _ = &self.bytes;
        0
    }

    fn taken(&self) -> u64 {
        self.taken
    }
}
