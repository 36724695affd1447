//! Writings, and cutting.
ghost use Rattle.std.specs.Prelude.{false, chars};
ghost use Rattle.py_flat.specs.Calls.{Write, Truncate};
ghost use Rattle.py_stream.specs.Replies.{count_reply, place_reply};
ghost use Rattle.py_memio.specs.InMemory.{AnswersInMemory};

use super::StringIO;
use crate::characters::{count_of, lay_text};
use crate::standing::{check_open, cut_size};
use py_flat::IoFault;
use py_raw::GREATEST_PLACE;

impl StringIO {
    /// Lays all characters of a text at the place, U+0000 up to it where it lies past the end, and answers how many there are.
    ///
    /// `TooFar`: they would end past 9223372036854775807. `NoMemory` leaves all as it was.
    pub fn write(&mut self, text: &str) -> Result<usize, IoFault>
        ensures { AnswersInMemory false self.old (Write (chars text.now)) (count_reply result) self.new }
    {
        check_open(self.closed)?;
        let count = count_of(text);
        if count as u64 > GREATEST_PLACE - self.place {
            return Err(IoFault::TooFar);
        }
        lay_text(&mut self.characters, self.place as usize, text, count)?;
        self.place += count as u64;
        Ok(count)
    }

    /// Cuts the characters to a size, or to the place, and answers the size asked; the place stays. Fewer characters stay as they are:
    /// nothing is lengthened. It takes no memory.
    ///
    /// `TooFar`: the size lies past 9223372036854775807.
    pub fn truncate(&mut self, size: Option<u64>) -> Result<u64, IoFault>
        ensures { AnswersInMemory false self.old (Truncate size) (place_reply result) self.new }
    {
        check_open(self.closed)?;
        let size = cut_size(self.place, size)?;
        self.characters.truncate(size as usize);
        Ok(size)
    }
}
