//! Where the stream stands, moving it, and closing it.
ghost use Rattle.std.specs.Prelude.{false};
ghost use Rattle.py_flat.specs.Calls.{Seek, Tell, Flush, Close};
ghost use Rattle.py_stream.specs.Replies.{place_reply, done_reply};
ghost use Rattle.py_memio.specs.InMemory.{AnswersInMemory};

use super::StringIO;
use crate::standing::{check_open, seek_target};
use py_flat::IoFault;

impl StringIO {
    /// Moves by an offset from the start (0), the place (1) or the end (2), and answers the new place. Past the end is allowed. It takes
    /// no memory.
    ///
    /// `BadWhence`: the whence is none of these. `NegativeSeek`: the target lies below 0. `TooFar`: it lies past 9223372036854775807.
    pub fn seek(&mut self, offset: i64, whence: i32) -> Result<u64, IoFault>
        ensures { AnswersInMemory false self.old (Seek offset whence) (place_reply result) self.new }
    {
        check_open(self.closed)?;
        let end = self.characters.len() as u64;
        let target = seek_target(self.place, end, offset, whence)?;
        self.place = target;
        Ok(target)
    }

    /// The place. It takes no memory.
    pub fn tell(&self) -> Result<u64, IoFault>
        ensures { AnswersInMemory false self.now Tell (place_reply result) self.now }
    {
        check_open(self.closed)?;
        Ok(self.place)
    }

    /// Nothing is to be passed on. It takes no memory.
    pub fn flush(&mut self) -> Result<(), IoFault>
        ensures { AnswersInMemory false self.old Flush (done_reply result) self.new }
    {
        check_open(self.closed)
    }

    /// Closes the stream. A closed one stays so. It takes no memory.
    pub fn close(&mut self) -> Result<(), IoFault>
        ensures { AnswersInMemory false self.old Close (done_reply result) self.new }
    {
        self.closed = true;
        Ok(())
    }
}
