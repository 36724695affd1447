//! Writings, and cutting.
ghost use Rattle.std.specs.Prelude.{◌≡◌, ◌-◌, IfOk};
ghost use Rattle.py_flat.specs.Lines.{joined};
ghost use Rattle.py_flat.specs.Calls.{Write, WriteLines, Truncate};
ghost use Rattle.py_stream.specs.Replies.{count_reply, place_reply, done_reply};
ghost use Rattle.py_memio.specs.InMemory.{AnswersInMemory};
ghost use Rattle.py_memio.specs.BytesIO.{is_lent};

use super::BytesIO;
use crate::standing::cut_size;
use py_flat::{IoFault, Lines};
use py_raw::{GREATEST_PLACE, lay_on};
use py_stream::end_of_lines;
use std::alloc::{AllocError, Global};

/// The lines, one after the other.
fn joined_lines(alloc: Global, lines: &Lines) -> Result<Vec<u8>, AllocError>
    ensures { IfOk result (λ all. all.items ≡ joined lines.now) }
{
    let mut all = Vec::new(alloc);
    for line in lines.as_slice() {
        all.extend_from_slice(line.as_slice())?;
    }
    Ok(all)
}

impl BytesIO {
    /// Lays all bytes at the place, zeros up to it where it lies past the end, and answers how many there are.
    ///
    /// `BufferError`: an export is out. `TooFar`: they would end past 9223372036854775807. `NoMemory` leaves all as it was.
    pub fn write(&mut self, bytes: &[u8]) -> Result<usize, IoFault>
        ensures answer { AnswersInMemory (is_lent self.old) self.old.file (Write bytes.now) (count_reply result) self.new.file }
        ensures exports { self.new.exports ≡ self.old.exports }
        ensures taken { self.new.taken ≡ self.new.file.place - self.old.file.place }
    {
        let written = self.lay(bytes);
        self.taken = match written {
            Ok(count) => count as u64,
            Err(_) => 0,
        };
        written
    }

    /// `write`, but for how many bytes were taken, which stays.
    fn lay(&mut self, bytes: &[u8]) -> Result<usize, IoFault>
        ensures answer { AnswersInMemory (is_lent self.old) self.old.file (Write bytes.now) (count_reply result) self.new.file }
        ensures exports { self.new.exports ≡ self.old.exports }
        ensures taken { self.new.taken ≡ self.old.taken }
    {
        self.check_resizable()?;
        if bytes.len() as u64 > GREATEST_PLACE - self.place {
            return Err(IoFault::TooFar);
        }
        lay_on(&mut self.bytes, self.place as usize, bytes)?;
        self.place += bytes.len() as u64;
        Ok(bytes.len())
    }

    /// Writes the lines, one after the other, as one `write`.
    pub fn writelines(&mut self, alloc: Global, lines: &Lines) -> Result<(), IoFault>
        ensures answer { AnswersInMemory (is_lent self.old) self.old.file (WriteLines lines.now) (done_reply result) self.new.file }
        ensures exports { self.new.exports ≡ self.old.exports }
        ensures taken { self.new.taken ≡ self.new.file.place - self.old.file.place }
    {
        self.taken = 0;
        self.check_resizable()?;
        if end_of_lines(self.place, lines).is_none() {
            return Err(IoFault::TooFar);
        }
        let all = joined_lines(alloc, lines)?;
        self.write(&all)?;
        Ok(())
    }

    /// Cuts the bytes to a size, or to the place, and answers the size asked; the place stays. Fewer bytes stay as they are: nothing is
    /// lengthened. It takes no memory.
    ///
    /// `BufferError`: an export is out. `TooFar`: the size lies past 9223372036854775807.
    pub fn truncate(&mut self, size: Option<u64>) -> Result<u64, IoFault>
        ensures answer { AnswersInMemory (is_lent self.old) self.old.file (Truncate size) (place_reply result) self.new.file }
        ensures exports { self.new.exports ≡ self.old.exports }
        ensures taken { self.new.taken ≡ self.old.taken }
    {
        self.check_resizable()?;
        let size = cut_size(self.place, size)?;
        self.bytes.truncate(size as usize);
        Ok(size)
    }
}
