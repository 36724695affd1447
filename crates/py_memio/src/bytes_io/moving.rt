//! Where the stream stands, moving it, and closing it.
ghost use Rattle.std.specs.Prelude.{◌≡◌};
ghost use Rattle.py_flat.specs.Calls.{Seek, Tell, Flush, Close};
ghost use Rattle.py_stream.specs.Replies.{place_reply, done_reply};
ghost use Rattle.py_memio.specs.InMemory.{AnswersInMemory};
ghost use Rattle.py_memio.specs.BytesIO.{is_lent};

use super::BytesIO;
use crate::standing::seek_target;
use py_flat::IoFault;

impl BytesIO {
    /// Moves by an offset from the start (0), the place (1) or the end (2), and answers the new place. Past the end is allowed.
    pub fn seek(&mut self, offset: i64, whence: i32) -> Result<u64, IoFault>
        ensures answer { AnswersInMemory (is_lent self.old) self.old.file (Seek offset whence) (place_reply result) self.new.file }
        ensures exports { self.new.exports ≡ self.old.exports }
        ensures taken { self.new.taken ≡ self.old.taken }
    {
        self.check_open()?;
        let target = seek_target(self.place, self.bytes.len() as u64, offset, whence)?;
        self.place = target;
        Ok(target)
    }

    /// The place.
    pub fn tell(&self) -> Result<u64, IoFault>
        ensures { AnswersInMemory (is_lent self.now) self.now.file Tell (place_reply result) self.now.file }
    {
        self.check_open()?;
        Ok(self.place)
    }

    /// Nothing is to be passed on.
    pub fn flush(&mut self) -> Result<(), IoFault>
        ensures answer { AnswersInMemory (is_lent self.old) self.old.file Flush (done_reply result) self.new.file }
        ensures exports { self.new.exports ≡ self.old.exports }
        ensures taken { self.new.taken ≡ self.old.taken }
    {
        self.check_open()
    }

    /// Closes the stream, which keeps its bytes. A closed one stays so. `BufferError`: an export is out.
    pub fn close(&mut self) -> Result<(), IoFault>
        ensures answer { AnswersInMemory (is_lent self.old) self.old.file Close (done_reply result) self.new.file }
        ensures exports { self.new.exports ≡ self.old.exports }
        ensures taken { self.new.taken ≡ self.old.taken }
    {
        self.check_unlent()?;
        self.closed = true;
        Ok(())
    }
}
