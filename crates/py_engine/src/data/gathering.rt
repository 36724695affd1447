//! Readings that go on until a collector has enough, or all that is left has come.
ghost use Rattle.std.specs.Prelude.{◌≡◌, true};
ghost use Rattle.py_stream.specs.Reading.{answered_at, has_answer, is_wait};
ghost use Rattle.py_stream.specs.LiveRaw.{starved};
ghost use Rattle.py_engine.specs.Reading.{reading_of, IsReading, StarvesWith};

use super::BufferedData;
use super::reading::step_by;
use py_lines::{Collected, Collector};
use py_raw::{IoFault, RawStream};
use py_stream::{ReadsOn, Step, Stop};
use py_window::Filled;

/// How many bytes are asked for after a seek, for a line of which nothing is known.
const GUESSED_LINE: usize = 512;

impl<R: RawStream> ReadsOn for BufferedData<R> {
    ghost shows = { reading_of };

    ghost reads = { IsReading };

    ghost may_begin = { IsReading };

    fn begin_reading(&mut self) -> Result<(), IoFault> {
        let _ = &self.live;
        self.begin()
    }

    fn gather<C: Collector>(&mut self, collector: &mut C) -> Result<Stop, IoFault> {
        // What holds of every engine is known from here on.
        let _ = &self.window;
        let mut moved = false;
        loop {
            match collector.collect(self.window.ahead()) {
                Ok(Collected::Enough(used)) => {
                    self.window.advance(used);
                    return Ok(Stop::Enough);
                }
                Ok(Collected::All) => {}
                Err(_) => return Err(self.starve(moved)),
            }
            match self.fill(GUESSED_LINE, moved)? {
                Filled::More(_) => moved = true,
                Filled::End => return Ok(Stop::End),
                Filled::Waits => return Ok(Stop::Waits),
            }
        }
    }

    fn guessed_more(&self) -> Option<usize> {
        self.live
            .guessed_more(self.window.place(), self.window.ahead().len())
    }

    /// The window's size more than it holds.
    fn first_more(&self) -> usize {
        self.window.ahead().len() + self.window.size()
    }

    fn read_held(&mut self, buffer: &mut [u8]) -> Step {
        let held = self.copy_ahead(buffer);
        if held < buffer.len() {
            return Step::On(held);
        }
        self.window.advance(held);
        Step::Stopped {
            count: held,
            stop: Stop::Enough,
        }
    }

    /// By way of the window where that is larger than what is left of the buffer, else straight into this.
    fn read_on(&mut self, rest: &mut [u8], moved: bool) -> Result<Step, IoFault> {
        if rest.len() < self.window.size() {
            return self.read_by_window(rest, moved);
        }
        let filled = self.pass(rest, moved)?;
        let count = match filled {
            Filled::More(count) => count,
            Filled::End | Filled::Waits => 0,
        };
        Ok(step_by(filled, count, rest.len()))
    }

    fn starve(&mut self, moved: bool) -> IoFault
        ensures fault { result ≡ IoFault.NoMemory }
        ensures stream { reading_of self.new ≡ record (reading_of self.old) { life = starved moved (reading_of self.old).life } }
        ensures engine { StarvesWith moved self.old self.new }
    {
        self.live.starve(moved)
    }

    fn answers(&mut self, stop: Stop, empty: bool) -> bool
        ensures answer { result ≡ has_answer stop empty }
        ensures stream { reading_of self.new ≡ answered_at stop (reading_of self.old) }
        ensures engine { self.new ≡ record self.old { short = is_wait stop } }
    {
        self.live.answers(stop, empty)
    }
}
