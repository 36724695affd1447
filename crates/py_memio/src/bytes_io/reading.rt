//! Readings.
ghost use Rattle.std.specs.Prelude.{◌≡◌, ◌≤◌, length, Some, IfOk, IfErr};
ghost use Rattle.py_flat.specs.Bytes.{first_of};
ghost use Rattle.py_flat.specs.Lines.{Lf, first_line, lines_within, joined};
ghost use Rattle.py_flat.specs.Calls.{Read, Read1, ReadInto, ReadInto1, ReadLine, ReadLines};
ghost use Rattle.py_flat.specs.ExactStep.{rest};
ghost use Rattle.py_memio.specs.InMemory.{AnswersInMemory};
ghost use Rattle.py_memio.specs.Replies.{given_reply, filled_reply, FillsFront, passed_reply, given_lines_reply};
ghost use Rattle.py_memio.specs.BytesIO.{is_lent, LendsBytes, GivesAll};
ghost use Rattle.py_flat.specs.Refusals.{life_fault};

use super::BytesIO;
use crate::standing::{front, left_from};
use py_flat::{IoFault, Lines};
use py_lines::{Collected, Collector, LineCollector, LinesCollector};
use py_raw::fill_front;
use std::alloc::{AllocError, Global};

/// The first line of some bytes, with its end, at most a limit of them.
fn line_of(alloc: Global, bytes: &[u8], limit: Option<usize>) -> Result<Vec<u8>, AllocError>
    ensures line { IfOk result (λ line. line.items ≡ first_line Lf limit bytes.now) }
    ensures within { IfOk result (λ line. length line.items ≤ length bytes.now) }
{
    let mut collector = LineCollector::new(alloc, limit);
    collector.collect(bytes)?;
    Ok(collector.into_line())
}

/// The lines of some bytes up to the first with which their total is above a hint; and that total.
fn lines_of(alloc: Global, bytes: &[u8], hint: Option<usize>) -> Result<(Lines, usize), AllocError>
    ensures lines { IfOk result (λ found. found.0 ≡ lines_within hint bytes.now) }
    ensures total { IfOk result (λ found. found.1 ≡ length (joined found.0)) }
    ensures within { IfOk result (λ found. found.1 ≤ length bytes.now) }
{
    let mut collector = LinesCollector::new(alloc, hint);
    let total = match collector.collect(bytes)? {
        Collected::Enough(used) => used,
        Collected::All => bytes.len(),
    };
    Ok((collector.into_lines(), total))
}

impl BytesIO {
    /// Reads n bytes, or all that are left: fewer only at the end. `NoMemory` leaves all as it was.
    pub fn read(&mut self, alloc: Global, size: Option<usize>) -> Result<Vec<u8>, IoFault>
        ensures answer { AnswersInMemory (is_lent self.old) self.old.file (Read size) (given_reply result) self.new.file }
        ensures exports { self.new.exports ≡ self.old.exports }
        ensures taken { self.new.taken ≡ self.old.taken }
    {
        self.check_open()?;
        let given = Vec::from_slice(alloc, self.next_bytes(size))?;
        self.place += given.len() as u64;
        Ok(given)
    }

    /// As `read`: nothing is gained by one transfer alone.
    pub fn read1(&mut self, alloc: Global, size: Option<usize>) -> Result<Vec<u8>, IoFault>
        ensures answer { AnswersInMemory (is_lent self.old) self.old.file (Read1 size) (given_reply result) self.new.file }
        ensures exports { self.new.exports ≡ self.old.exports }
        ensures taken { self.new.taken ≡ self.old.taken }
    {
        let _ = &self.bytes;
        self.read(alloc, size)
    }

    /// Reads into a buffer until it is full, and answers how many bytes came: fewer only at the end. What lies after them in the buffer
    /// stays. It takes no memory.
    pub fn readinto(&mut self, buffer: &mut [u8]) -> Result<usize, IoFault>
        ensures answer { AnswersInMemory (is_lent self.old) self.old.file (ReadInto (length buffer.old)) (filled_reply result buffer.new) self.new.file }
        ensures exports { self.new.exports ≡ self.old.exports }
        ensures taken { self.new.taken ≡ self.old.taken }
        ensures front { FillsFront result buffer.old buffer.new }
    {
        self.check_open()?;
        let given = self.next_bytes(Some(buffer.len()));
        let count = given.len();
        fill_front(buffer, given);
        self.place += count as u64;
        Ok(count)
    }

    /// As `readinto`: nothing is gained by one transfer alone.
    pub fn readinto1(&mut self, buffer: &mut [u8]) -> Result<usize, IoFault>
        ensures answer { AnswersInMemory (is_lent self.old) self.old.file (ReadInto1 (length buffer.old)) (filled_reply result buffer.new) self.new.file }
        ensures exports { self.new.exports ≡ self.old.exports }
        ensures taken { self.new.taken ≡ self.old.taken }
        ensures front { FillsFront result buffer.old buffer.new }
    {
        let _ = &self.bytes;
        self.readinto(buffer)
    }

    /// Reads up to and with the next LF, at most n bytes; all that are left where neither comes.
    pub fn readline(&mut self, alloc: Global, limit: Option<usize>) -> Result<Vec<u8>, IoFault>
        ensures answer { AnswersInMemory (is_lent self.old) self.old.file (ReadLine limit) (given_reply result) self.new.file }
        ensures exports { self.new.exports ≡ self.old.exports }
        ensures taken { self.new.taken ≡ self.old.taken }
    {
        self.check_open()?;
        let line = line_of(alloc, self.rest(), limit)?;
        self.place += line.len() as u64;
        Ok(line)
    }

    /// Reads lines until their total is above a hint; all for `None` and 0.
    pub fn readlines(&mut self, alloc: Global, hint: Option<usize>) -> Result<Lines, IoFault>
        ensures answer { AnswersInMemory (is_lent self.old) self.old.file (ReadLines hint) (given_lines_reply result) self.new.file }
        ensures exports { self.new.exports ≡ self.old.exports }
        ensures taken { self.new.taken ≡ self.old.taken }
    {
        self.check_open()?;
        let (lines, total) = lines_of(alloc, self.rest(), hint)?;
        self.place += total as u64;
        Ok(lines)
    }

    /// Shows all that is left, lent; the place stays. It takes no memory.
    pub fn peek(&self) -> Result<&[u8], IoFault>
        ensures { LendsBytes (life_fault self.now.file.life) (rest self.now.file) result }
    {
        self.check_open()?;
        Ok(self.rest())
    }

    /// Moves the place past the next `amount` bytes, or past all that are left where they are fewer, and answers how many: as `readinto`,
    /// without a buffer. It takes no memory.
    pub fn consume(&mut self, amount: usize) -> Result<usize, IoFault>
        ensures answer { AnswersInMemory (is_lent self.old) self.old.file (ReadInto1 amount) (passed_reply result (first_of (Some amount) (rest self.old.file))) self.new.file }
        ensures count { IfOk result (λ count. count ≡ length (first_of (Some amount) (rest self.old.file))) }
        ensures refused { IfErr result (λ why. life_fault self.old.file.life ≡ Some why) }
        ensures exports { self.new.exports ≡ self.old.exports }
        ensures taken { self.new.taken ≡ self.old.taken }
    {
        self.check_open()?;
        let count = self.next_bytes(Some(amount)).len();
        self.place += count as u64;
        Ok(count)
    }

    /// A copy of all bytes, wherever the stream stands.
    pub fn getvalue(&self, alloc: Global) -> Result<Vec<u8>, IoFault>
        ensures { GivesAll (life_fault self.now.file.life) self.now.file.bytes result }
    {
        self.check_open()?;
        Ok(Vec::from_slice(alloc, &self.bytes)?)
    }

    /// The bytes that are left from the place on.
    fn rest(&self) -> &[u8]
        ensures { result.now ≡ rest self.now.file }
    {
        left_from(&self.bytes, self.place)
    }

    /// The next n bytes, or all that are left.
    fn next_bytes(&self, size: Option<usize>) -> &[u8]
        ensures { result.now ≡ first_of size (rest self.now.file) }
    {
        front(self.rest(), size)
    }
}
