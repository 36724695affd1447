//! Readings of an engine that is read, whatever it owes.
ghost use Rattle.std.specs.Prelude.{◌≡◌, true, length, IfOk};
ghost use Rattle.py_flat.specs.Calls.{Read, Read1, ReadLine, ReadLines, Peek, ReadInto, ReadInto1};
ghost use Rattle.py_stream.specs.Access.{is_read};
ghost use Rattle.py_stream.specs.Answers.{Answers};
ghost use Rattle.py_stream.specs.Replies.{bytes_reply, into_reply, lines_reply, look_reply, CountFits, KeepsBuffer, KeepsUnread};
ghost use Rattle.py_window.specs.Window.{ahead_of};
ghost use Rattle.py_engine.specs.Engine.{stream_of};
ghost use Rattle.py_engine.specs.Ahead.{LendsAhead, PassesOver};

use super::BufferedData;
use super::random::lines_in;
use py_lines::line_end;
use py_raw::{IoFault, Lines, RawStream};
use py_stream::{read_line, read_lines, read_rest};
use std::alloc::Global;

impl<R: RawStream> BufferedData<R> {
    /// Reads n bytes, or all that are left.
    pub fn read(&mut self, alloc: Global, size: Option<usize>) -> Result<Option<Vec<u8>>, IoFault>
        requires reads { is_read self.old.access ≡ true }
        ensures { Answers (stream_of self.old) (Read size) (bytes_reply result) (stream_of self.new) }
    {
        let _ = &self.live;
        self.begin()?;
        let Some(size) = size else {
            if !self.go_ahead()? {
                return Ok(None);
            }
            return read_rest(self, alloc);
        };
        if size <= self.window.ahead().len() {
            let bytes = self.give(alloc, size)?;
            return Ok(Some(bytes));
        }
        let Ok(space) = vec![in alloc; 0u8; size] else {
            return Err(IoFault::NoMemory);
        };
        if !self.go_ahead()? {
            return Ok(None);
        }
        let mut bytes = space;
        let Some(count) = self.fill_up(&mut bytes)? else {
            return Ok(None);
        };
        bytes.truncate(count);
        Ok(Some(bytes))
    }

    /// Reads into a buffer until it is full.
    pub fn readinto(&mut self, buffer: &mut [u8]) -> Result<Option<usize>, IoFault>
        requires reads { is_read self.old.access ≡ true }
        ensures answers { Answers (stream_of self.old) (ReadInto (length buffer.old)) (into_reply result buffer.new) (stream_of self.new) }
        ensures length { length buffer.new ≡ length buffer.old }
        ensures fits { CountFits result buffer.new }
        ensures refused { KeepsBuffer result buffer.old buffer.new }
    {
        let _ = &self.live;
        self.begin()?;
        if buffer.len() <= self.window.ahead().len() {
            let count = self.copy_ahead(buffer);
            self.step_on(count);
            return Ok(Some(count));
        }
        if !self.go_ahead()? {
            return Ok(None);
        }
        self.fill_up(buffer)
    }

    /// Reads at most n bytes, or a buffer's size.
    pub fn read1(&mut self, alloc: Global, size: Option<usize>) -> Result<Option<Vec<u8>>, IoFault>
        requires reads { is_read self.old.access ≡ true }
        ensures { Answers (stream_of self.old) (Read1 size) (bytes_reply result) (stream_of self.new) }
    {
        let _ = &self.live;
        self.begin()?;
        let most = size.unwrap_or(self.window.size());
        if most == 0 {
            return Ok(Some(Vec::new(alloc)));
        }
        if !self.has_once(most)? {
            return Ok(None);
        }
        let bytes = self.give(alloc, most)?;
        Ok(Some(bytes))
    }

    /// Reads at most as many bytes as a buffer is long.
    pub fn readinto1(&mut self, buffer: &mut [u8]) -> Result<Option<usize>, IoFault>
        requires reads { is_read self.old.access ≡ true }
        ensures answers { Answers (stream_of self.old) (ReadInto1 (length buffer.old)) (into_reply result buffer.new) (stream_of self.new) }
        ensures length { length buffer.new ≡ length buffer.old }
        ensures fits { CountFits result buffer.new }
        ensures unread { KeepsUnread result buffer.old buffer.new }
    {
        let _ = &self.live;
        self.begin()?;
        if buffer.is_empty() {
            return Ok(Some(0));
        }
        if !self.has_some(buffer.len())? {
            return Ok(None);
        }
        let count = self.copy_ahead(buffer);
        self.step_on(count);
        Ok(Some(count))
    }

    /// Whether the bytes held show some of what comes next, or that nothing does; else the raw would have blocked.
    pub fn look(&mut self) -> Result<bool, IoFault>
        requires reads { is_read self.old.access ≡ true }
        ensures answers { Answers (stream_of self.old) Peek (look_reply result (ahead_of self.new.window)) (stream_of self.new) }
        ensures lends { IfOk result (λ shown. shown ≡ true → LendsAhead (stream_of self.new) (ahead_of self.new.window)) }
    {
        let _ = &self.live;
        self.begin()?;
        let size = self.window.size();
        let shown = self.has_some(size);
        let _ = &self.live;
        shown
    }

    /// Moves the place past n of the bytes held, or past all where fewer are, and answers how many.
    pub fn consume(&mut self, amount: usize) -> Result<usize, IoFault>
        requires reads { is_read self.old.access ≡ true }
        ensures { PassesOver (stream_of self.old) amount result (stream_of self.new) }
    {
        let _ = &self.live;
        self.begin()?;
        let count = amount.min(self.window.ahead().len());
        if count == 0 {
            return Ok(0);
        }
        self.step_on(count);
        Ok(count)
    }

    /// Reads a line, of at most so many bytes.
    pub fn readline(
        &mut self,
        alloc: Global,
        limit: Option<usize>,
    ) -> Result<Option<Vec<u8>>, IoFault>
        requires reads { is_read self.old.access ≡ true }
        ensures { Answers (stream_of self.old) (ReadLine limit) (bytes_reply result) (stream_of self.new) }
    {
        let _ = &self.live;
        self.begin()?;
        // A line that ends among the bytes held is looked for once, and takes its memory at once.
        if let Some(used) = line_end(self.window.ahead(), limit) {
            let line = self.give(alloc, used)?;
            return Ok(Some(line));
        }
        if !self.go_ahead()? {
            return Ok(None);
        }
        read_line(self, alloc, limit)
    }

    /// Reads lines until their total is above the hint, or all.
    pub fn readlines(
        &mut self,
        alloc: Global,
        hint: Option<usize>,
    ) -> Result<Option<Lines>, IoFault>
        requires reads { is_read self.old.access ≡ true }
        ensures { Answers (stream_of self.old) (ReadLines hint) (lines_reply result) (stream_of self.new) }
    {
        let _ = &self.live;
        // A reading that goes on from the bytes held gathers its lines there, so that they aren't looked for twice.
        if self.is_ahead() {
            return read_lines(self, alloc, hint);
        }
        self.begin()?;
        let Ok(held) = lines_in(alloc, self.window.ahead(), hint) else {
            return Err(IoFault::NoMemory);
        };
        if let Some((lines, used)) = held {
            self.step_on(used);
            return Ok(Some(lines));
        }
        if !self.go_ahead()? {
            return Ok(None);
        }
        read_lines(self, alloc, hint)
    }
}
