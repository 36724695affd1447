//! Readings of lines, byte by byte, as nothing may be held after them, and of all that is left.
ghost use Rattle.std.specs.Prelude.{◌≡◌, true};
ghost use Rattle.py_stream.specs.Access.{is_read};
ghost use Rattle.py_stream.specs.LiveRaw.{starved};
ghost use Rattle.py_unbuffered.specs.Engine.{stream_of, StarvesWith};

use super::UnbufferedData;
use py_lines::{Collected, Collector};
use py_raw::{IoFault, RawStream};
use py_stream::{ReadsOn, Step, Stop};

/// How many bytes a reading of all asks for at first, without a guess of where the raw ends.
const FIRST_CHUNK: usize = 8192;

impl<R: RawStream> ReadsOn for UnbufferedData<R> {
    ghost shows = { stream_of };

    ghost reads = { λ engine. is_read engine.access ≡ true };

    ghost may_begin = { λ engine. Unit {0} };

    fn begin_reading(&mut self) -> Result<(), IoFault> {
        let _ = &self.live;
        self.begin()?;
        if self.live.reads() {
            Ok(())
        } else {
            Err(IoFault::Unsupported)
        }
    }

    fn gather<C: Collector>(&mut self, collector: &mut C) -> Result<Stop, IoFault> {
        let _ = &self.live;
        let mut moved = false;
        loop {
            let mut byte = [0u8; 1];
            match self.transfer(&mut byte, moved)? {
                Some(0) => return Ok(Stop::End),
                Some(_) => moved = true,
                None => return Ok(Stop::Waits),
            }
            match collector.collect(&byte) {
                Ok(Collected::Enough(_)) => return Ok(Stop::Enough),
                Ok(Collected::All) => {}
                Err(_) => return Err(self.starve(true)),
            }
        }
    }

    fn guessed_more(&self) -> Option<usize> {
        self.live.guessed_more(self.place, 0)
    }

    fn first_more(&self) -> usize {
        FIRST_CHUNK
    }

    /// Nothing is held.
    fn read_held(&mut self, buffer: &mut [u8]) -> Step {
        let _ = &self.live;
        if buffer.is_empty() {
            Step::Stopped {
                count: 0,
                stop: Stop::Enough,
            }
        } else {
            Step::On(0)
        }
    }

    fn read_on(&mut self, rest: &mut [u8], moved: bool) -> Result<Step, IoFault> {
        let _ = &self.live;
        let (count, stop) = match self.transfer(rest, moved)? {
            Some(0) => (0, Stop::End),
            Some(count) if count < rest.len() => return Ok(Step::On(count)),
            Some(count) => (count, Stop::Enough),
            None => (0, Stop::Waits),
        };
        Ok(Step::Stopped { count, stop })
    }

    fn starve(&mut self, moved: bool) -> IoFault
        ensures fault { result ≡ IoFault.NoMemory }
        ensures stream { stream_of self.new ≡ record (stream_of self.old) { life = starved moved (stream_of self.old).life } }
        ensures engine { StarvesWith moved self.old self.new }
        ensures reads { is_read self.old.access ≡ true → is_read self.new.access ≡ true }
    {
        self.live.starve(moved)
    }

    fn answers(&mut self, stop: Stop, empty: bool) -> bool {
        self.live.answers(stop, empty)
    }
}
