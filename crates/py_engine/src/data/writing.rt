//! Taking bytes.
ghost use Rattle.std.specs.Prelude.{◌≡◌, ◌+◌, ◌-◌, ◌<◌, ◌≤◌, true, false, [], length};
ghost use Rattle.py_flat.specs.Limits.{greatest_place};
ghost use Rattle.py_flat.specs.Calls.{Write, WriteLines};
ghost use Rattle.py_stream.specs.Answers.{Answers};
ghost use Rattle.py_stream.specs.Replies.{count_reply, done_reply};
ghost use Rattle.py_stream.specs.Taking.{Took, KeepsWhatFits, PutOutcome};
ghost use Rattle.py_window.specs.Window.{place_of, pending_of};
ghost use Rattle.py_engine.specs.Engine.{stream_of, IsBehind};
ghost use Rattle.py_engine.specs.Passing.{room_behind, HandOnOutcome, FitOutcome, StopOutcome};

use super::BufferedData;
use super::passing_on::Passed;
use py_raw::{GREATEST_PLACE, IoFault, Life, Lines, RawStream};
use py_stream::{TakesPieces, write_lines};

impl<R: RawStream> TakesPieces for BufferedData<R> {
    ghost shows = { stream_of };

    ghost may_begin = { IsBehind };

    ghost takes = { IsBehind };

    fn begin_writing(&mut self) -> Result<(), IoFault> {
        let _ = &self.live;
        self.begin()
    }

    fn next_place(&self) -> u64 {
        self.window.place()
    }

    fn note_short(&mut self) {
        self.live.note_wait(true);
    }

    fn take_piece(&mut self, piece: &[u8], start: u64) -> Result<bool, IoFault> {
        let _ = &self.live;
        self.put(piece, start)
    }
}

impl<R: RawStream> BufferedData<R> {
    /// Takes bytes, and passes on what the buffer has no room for.
    pub(super) fn write_behind(&mut self, bytes: &[u8]) -> Result<usize, IoFault>
        requires writes { IsBehind self.old }
        ensures { Answers (stream_of self.old) (Write bytes.now) (count_reply result) (stream_of self.new) }
    {
        self.begin_writing()?;
        let start = self.window.place();
        if bytes.len() as u64 > GREATEST_PLACE - start {
            return Err(IoFault::TooFar);
        }
        if self.put(bytes, start)? {
            Ok(bytes.len())
        } else {
            Err(self.blocked(start))
        }
    }

    /// Takes lines, as one write of them joined.
    pub(super) fn writelines_behind(&mut self, lines: &Lines) -> Result<(), IoFault>
        requires writes { IsBehind self.old }
        ensures { Answers (stream_of self.old) (WriteLines lines.now) (done_reply result) (stream_of self.new) }
    {
        write_lines(self, lines)
    }

    /// The refusal of a call that a wait stopped, which says how many bytes were taken from the place on where it began.
    fn blocked(&mut self, start: u64) -> IoFault
        requires { start ≤ place_of self.old.window }
        ensures fault { result ≡ IoFault.WouldBlock (place_of self.old.window - start) }
        ensures stream { self.new ≡ record self.old { short = true } }
    {
        self.live.note_wait(true);
        IoFault::WouldBlock {
            taken: self.window.place() - start,
        }
    }

    /// Takes bytes for a call that began at a place; false where some of them couldn't be taken.
    fn put(&mut self, bytes: &[u8], start: u64) -> Result<bool, IoFault>
        requires live { self.old.life ≡ Life.Live }
        requires writes { IsBehind self.old }
        requires start { start ≤ place_of self.old.window }
        requires within { place_of self.old.window + length bytes.now ≤ greatest_place }
        ensures outcome { PutOutcome (stream_of self.old) bytes.now start result (stream_of self.new) }
        ensures room { KeepsWhatFits (stream_of self.old) bytes.now result (stream_of self.new) }
        ensures writes { IsBehind self.new }
    {
        if bytes.len() <= self.window.room() {
            self.keep(bytes);
            return Ok(true);
        }
        match self.flush_pending() {
            Ok(Passed::All) => self.put_large(bytes, start),
            Ok(Passed::Waits) => Ok(self.take_what_fits(bytes)),
            Err(fault) => Err(self.stop(fault, start)),
        }
    }

    /// Takes bytes while nothing is owed: more than the buffer holds go straight to the raw.
    fn put_large(&mut self, bytes: &[u8], start: u64) -> Result<bool, IoFault>
        requires live { self.old.life ≡ Life.Live }
        requires writes { IsBehind self.old }
        requires none { pending_of self.old.window ≡ [] }
        requires start { start ≤ place_of self.old.window }
        requires within { place_of self.old.window + length bytes.now ≤ greatest_place }
        ensures outcome { PutOutcome (stream_of self.old) bytes.now start result (stream_of self.new) }
        ensures writes { IsBehind self.new }
    {
        let _ = &self.live;
        let mut taken = 0;
        while bytes.len() - taken > self.window.size() {
            match self.hand_on(&bytes[taken..]) {
                Ok(Some(count)) => taken += count,
                Ok(None) => return Ok(self.take_what_fits(&bytes[taken..])),
                Err(fault) => return Err(self.stop(fault, start)),
            }
        }
        self.keep(&bytes[taken..]);
        Ok(true)
    }

    /// Hands a front of a caller's bytes on to the raw, by one transfer, while nothing is owed.
    fn hand_on(&mut self, bytes: &[u8]) -> Result<Option<usize>, IoFault>
        requires live { self.old.life ≡ Life.Live }
        requires writes { IsBehind self.old }
        requires none { pending_of self.old.window ≡ [] }
        requires some { 0 < length bytes.now }
        requires within { place_of self.old.window + length bytes.now ≤ greatest_place }
        ensures outcome { HandOnOutcome (stream_of self.old) bytes.now result (stream_of self.new) }
        ensures writes { IsBehind self.new }
    {
        match self.live.write(bytes, false)? {
            Some(count) => {
                let place = self.window.place() + count as u64;
                self.window.restart_at(place);
                self.raw_place = place;
                Ok(Some(count))
            }
            None => Ok(None),
        }
    }

    /// Keeps bytes after what is owed, for which there is room.
    fn keep(&mut self, bytes: &[u8])
        requires live { self.old.life ≡ Life.Live }
        requires writes { IsBehind self.old }
        requires room { length bytes.now ≤ room_behind (stream_of self.old) }
        requires within { place_of self.old.window + length bytes.now ≤ greatest_place }
        ensures took { Took (stream_of self.old) bytes.now (stream_of self.new) }
        ensures more { length (pending_of self.new.window) ≡ length (pending_of self.old.window) + length bytes.now }
        ensures raw { self.new.raw ≡ self.old.raw }
        ensures writes { IsBehind self.new }
    {
        if !bytes.is_empty() {
            self.window.push(bytes);
        }
    }

    /// Takes as many bytes as the buffer has room for; whether these are all.
    fn take_what_fits(&mut self, bytes: &[u8]) -> bool
        requires live { self.old.life ≡ Life.Live }
        requires writes { IsBehind self.old }
        requires within { place_of self.old.window + length bytes.now ≤ greatest_place }
        ensures outcome { FitOutcome (stream_of self.old) bytes.now result (stream_of self.new) }
        ensures writes { IsBehind self.new }
    {
        let room = self.window.room();
        if bytes.len() <= room {
            self.keep(bytes);
            true
        } else {
            self.keep(&bytes[..room]);
            false
        }
    }

    /// What a refusal by the raw leaves of a call that began at a place: after running out of memory the stream fails where the raw
    /// has bytes of the call's own; else it drops those again.
    fn stop(&mut self, fault: IoFault, start: u64) -> IoFault
        requires writes { IsBehind self.old }
        requires start { start ≤ place_of self.old.window }
        ensures fault { result ≡ fault }
        ensures stream { StopOutcome fault start (stream_of self.old) (stream_of self.new) }
        ensures writes { IsBehind self.new }
    {
        if matches!(fault, IoFault::NoMemory) {
            if self.window.pending_place() <= start {
                self.window.cut_at(start);
            } else {
                self.live.starve(true);
            }
        }
        fault
    }
}
