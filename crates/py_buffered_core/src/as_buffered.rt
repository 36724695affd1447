//! A buffered stream, as the layer above asks for one, whatever it is opened for.
ghost use Rattle.std.specs.Prelude.{◌≡◌, false};
ghost use Rattle.py_flat.specs.Calls.{Read1, Write, Seek, Tell, Flush, Close};
ghost use Rattle.py_stream.specs.Replies.{bytes_reply, count_reply, place_reply, done_reply};
ghost use Rattle.py_stream.specs.Answers.{Answers};
ghost use Rattle.py_stream.specs.Buffer.{TellsPlace, AnswersEnd, AnswersAsBuffer, Prepares, TakesBack};
ghost use Rattle.py_buffered_core.specs.Buffered.{seen_of, as_buffer};

use crate::Buffered;
use py_raw::{IoFault, Life, RawStream};
use py_stream::BufferedStream;
use std::alloc::Global;

// A stream that isn't written owes nothing: some functions begin with `let _ = self.place();`, whose clause says so.
impl<R: RawStream> BufferedStream for Buffered<R> {
    ghost shows = { as_buffer };

    ghost own = { λ old call reply new. Answers (seen_of old) call reply (seen_of new) };

    fn read1(&mut self, alloc: Global, size: Option<usize>) -> Result<Option<Vec<u8>>, IoFault>
        ensures answers { AnswersAsBuffer (as_buffer self.old) (Read1 size) (bytes_reply result) (as_buffer self.new) }
        ensures own { Answers (seen_of self.old) (Read1 size) (bytes_reply result) (seen_of self.new) }
        ensures taken { self.new.taken ≡ self.old.taken }
    {
        let _ = self.place();
        if self.access.reads() {
            Buffered::read1(self, alloc, size)
        } else {
            Err(self.refuse())
        }
    }

    fn write(&mut self, bytes: &[u8]) -> Result<usize, IoFault>
        ensures answers { AnswersAsBuffer (as_buffer self.old) (Write bytes.now) (count_reply result) (as_buffer self.new) }
        ensures own { Answers (seen_of self.old) (Write bytes.now) (count_reply result) (seen_of self.new) }
        ensures unwritten { (seen_of self.old).can.writable ≡ false → self.new.taken ≡ 0 }
    {
        let _ = (self.place(), self.buffer_size());
        if self.access.writes() {
            Buffered::write(self, bytes)
        } else {
            self.taken = 0;
            Err(self.refuse())
        }
    }

    fn seek(&mut self, offset: i64, whence: i32) -> Result<u64, IoFault>
        ensures answers { AnswersAsBuffer (as_buffer self.old) (Seek offset whence) (place_reply result) (as_buffer self.new) }
        ensures own { Answers (seen_of self.old) (Seek offset whence) (place_reply result) (seen_of self.new) }
        ensures taken { self.new.taken ≡ self.old.taken }
    {
        let _ = self.place();
        Buffered::seek(self, offset, whence)
    }

    fn tell(&mut self) -> Result<u64, IoFault>
        ensures answers { TellsPlace (as_buffer self.old) result (as_buffer self.new) }
        ensures own { Answers (seen_of self.old) Tell (place_reply result) (seen_of self.new) }
        ensures taken { self.new.taken ≡ self.old.taken }
    {
        Buffered::tell(self)
    }

    fn end(&mut self) -> Result<u64, IoFault>
        ensures answers { AnswersEnd (as_buffer self.old) result (as_buffer self.new) }
        ensures can { (seen_of self.new).can ≡ (seen_of self.old).can }
        ensures taken { self.new.taken ≡ self.old.taken }
    {
        Buffered::end(self)
    }

    fn flush(&mut self) -> Result<(), IoFault>
        ensures answers { AnswersAsBuffer (as_buffer self.old) Flush (done_reply result) (as_buffer self.new) }
        ensures own { Answers (seen_of self.old) Flush (done_reply result) (seen_of self.new) }
        ensures taken { self.new.taken ≡ self.old.taken }
    {
        let _ = self.place();
        Buffered::flush(self)
    }

    fn prepare_flush(&mut self) -> Result<(), IoFault>
        ensures prepares { Prepares (as_buffer self.old) result (as_buffer self.new) }
        ensures can { (seen_of self.new).can ≡ (seen_of self.old).can }
        ensures taken { self.new.taken ≡ self.old.taken }
    {
        Buffered::prepare_flush(self)
    }

    fn take_back(&mut self, count: usize) -> bool
        ensures takes { TakesBack (as_buffer self.old) count result (as_buffer self.new) }
        ensures can { (seen_of self.new).can ≡ (seen_of self.old).can }
        ensures taken { self.new.taken ≡ self.old.taken }
    {
        Buffered::take_back(self, count)
    }

    fn close(&mut self) -> Result<(), IoFault>
        ensures answers { AnswersAsBuffer (as_buffer self.old) Close (done_reply result) (as_buffer self.new) }
        ensures own { Answers (seen_of self.old) Close (done_reply result) (seen_of self.new) }
        ensures taken { self.new.taken ≡ self.old.taken }
    {
        let _ = self.place();
        Buffered::close(self)
    }

    fn readable(&self) -> bool {
        self.access.reads()
    }

    fn writable(&self) -> bool {
        self.access.writes()
    }

    fn seekable(&self) -> bool {
        Buffered::seekable(self)
    }

    fn appending(&self) -> bool {
        self.access.appends()
    }

    fn closed(&self) -> bool {
        matches!(Buffered::life(self), Life::Closed)
    }

    fn short(&self) -> bool {
        Buffered::short(self)
    }

    fn exported(&self) -> bool {
        false
    }

    fn life(&self) -> Life {
        Buffered::life(self)
    }

    fn buffer_size(&self) -> usize {
        Buffered::buffer_size(self)
    }

    fn taken(&self) -> u64 {
        Buffered::taken(self)
    }
}
