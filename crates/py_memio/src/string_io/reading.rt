//! Readings.
ghost use Rattle.std.specs.Prelude.{false};
ghost use Rattle.py_flat.specs.Calls.{Read, ReadLine};
ghost use Rattle.py_flat.specs.Refusals.{life_fault};
ghost use Rattle.py_memio.specs.InMemory.{AnswersInMemory};
ghost use Rattle.py_memio.specs.StringIO.{text_reply, GivesText};

use super::StringIO;
use crate::characters::{first_line, text_of};
use crate::standing::{check_open, front, left_from};
use py_flat::IoFault;
use std::alloc::Global;

impl StringIO {
    /// Reads n characters, or all that are left: fewer only at the end. `NoMemory` leaves all as it was.
    pub fn read(&mut self, alloc: Global, size: Option<usize>) -> Result<String, IoFault>
        ensures { AnswersInMemory false self.old (Read size) (text_reply result) self.new }
    {
        check_open(self.closed)?;
        let given = front(left_from(&self.characters, self.place), size);
        let text = text_of(alloc, given)?;
        self.place += given.len() as u64;
        Ok(text)
    }

    /// Reads up to and with the next LF, at most n characters; all that are left where neither comes. `NoMemory` leaves all as it was.
    pub fn readline(&mut self, alloc: Global, limit: Option<usize>) -> Result<String, IoFault>
        ensures { AnswersInMemory false self.old (ReadLine limit) (text_reply result) self.new }
    {
        check_open(self.closed)?;
        let line = first_line(left_from(&self.characters, self.place), limit);
        let text = text_of(alloc, line)?;
        self.place += line.len() as u64;
        Ok(text)
    }

    /// A text of all characters, wherever the stream stands.
    pub fn getvalue(&self, alloc: Global) -> Result<String, IoFault>
        ensures { GivesText (life_fault self.now.life) self.now.bytes result }
    {
        check_open(self.closed)?;
        Ok(text_of(alloc, &self.characters)?)
    }
}
