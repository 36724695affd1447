//! Writing.
ghost use Rattle.std.specs.Prelude.{◌≡◌, ◌+◌, ◌≤◌, true, false, length};
ghost use Rattle.py_flat.specs.declared.life.Life.TheVariants.{Live};
ghost use Rattle.py_flat.specs.Limits.{greatest_place};
ghost use Rattle.py_flat.specs.Calls.{Write, WriteLines};
ghost use Rattle.py_stream.specs.Answers.{Answers};
ghost use Rattle.py_stream.specs.Replies.{taken_reply, done_reply};
ghost use Rattle.py_unbuffered.specs.Engine.{stream_of, PutOutcome};
ghost use Rattle.py_stream.specs.Access.{can_of};

use super::UnbufferedData;
use py_raw::{GREATEST_PLACE, IoFault, Lines, RawStream};
use py_stream::{TakesPieces, write_lines};

impl<R: RawStream> TakesPieces for UnbufferedData<R> {
    ghost shows = { stream_of };

    ghost may_begin = { λ engine. Unit {0} };

    ghost takes = { λ engine. (stream_of engine).can.writable ≡ true };

    fn begin_writing(&mut self) -> Result<(), IoFault> {
        let _ = &self.live;
        self.begin()?;
        if self.writes() {
            Ok(())
        } else {
            Err(IoFault::Unsupported)
        }
    }

    fn next_place(&self) -> u64 {
        self.place
    }

    fn note_short(&mut self) {
        self.live.note_wait(true);
    }

    /// Hands all of a piece to the raw.
    fn take_piece(&mut self, piece: &[u8], start: u64) -> Result<bool, IoFault> {
        let _ = &self.live;
        let mut taken = 0;
        while taken < piece.len() {
            match self.put(&piece[taken..], self.place > start)? {
                Some(count) => taken += count,
                None => return Ok(false),
            }
        }
        Ok(true)
    }
}

impl<R: RawStream> UnbufferedData<R> {
    /// Hands bytes to the raw, by one transfer.
    pub fn write(&mut self, bytes: &[u8]) -> Result<Option<usize>, IoFault>
        ensures { Answers (stream_of self.old) (Write bytes.now) (taken_reply result) (stream_of self.new) }
    {
        self.begin_writing()?;
        if bytes.len() as u64 > GREATEST_PLACE - self.place {
            return Err(IoFault::TooFar);
        }
        let count = self.put(bytes, false)?;
        self.note_wait(count.is_none());
        Ok(count)
    }

    /// Hands lines to the raw, one after another, each whole.
    pub fn writelines(&mut self, lines: &Lines) -> Result<(), IoFault>
        ensures { Answers (stream_of self.old) (WriteLines lines.now) (done_reply result) (stream_of self.new) }
    {
        write_lines(self, lines)
    }

    /// One transfer to the raw. `moved` tells whether bytes had moved in this call.
    fn put(&mut self, bytes: &[u8], moved: bool) -> Result<Option<usize>, IoFault>
        requires live { self.old.life ≡ Live }
        requires writes { (can_of self.old.access self.old.raw.seekable).writable ≡ true }
        requires within { self.old.place + length bytes.now ≤ greatest_place }
        ensures { PutOutcome self.old moved bytes.now result self.new }
    {
        let count = self.live.write(bytes, moved)?;
        self.place += count.unwrap_or(0) as u64;
        Ok(count)
    }
}
