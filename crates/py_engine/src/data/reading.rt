//! Readings that go on until they have all that is asked for, or all that is left.
ghost use Rattle.std.specs.Prelude.{◌≡◌, ◌<◌, length, take, drop, min};
ghost use Rattle.py_flat.specs.declared.life.Life.TheVariants.{Live};
ghost use Rattle.py_window.specs.Window.{ahead_of};
ghost use Rattle.py_engine.specs.Engine.{Stands};
ghost use Rattle.py_engine.specs.Reading.{reading_of, AnswersSized, IsReading, stepped};
ghost use Rattle.py_stream.specs.ReadingOn.{StepOutcome};
ghost use Rattle.py_stream.specs.Replies.{into_reply, CountFits, KeepsBuffer};

use super::BufferedData;
use py_raw::{IoFault, RawStream};
use py_stream::{ReadsOn, Step, Stop, read_into};
use py_window::Filled;

/// The step that a transfer makes which brought n bytes of as many as were wanted.
pub(super) fn step_by(filled: Filled, count: usize, wanted: usize) -> Step
    ensures { result ≡ stepped filled count wanted }
{
    match filled {
        Filled::More(_) if count < wanted => Step::On(count),
        Filled::More(_) => Step::Stopped {
            count,
            stop: Stop::Enough,
        },
        Filled::End => Step::Stopped {
            count: 0,
            stop: Stop::End,
        },
        Filled::Waits => Step::Stopped {
            count: 0,
            stop: Stop::Waits,
        },
    }
}

impl<R: RawStream> BufferedData<R> {
    /// Reads into a buffer until it is full, from the bytes held on: what a call that wants as many bytes answers.
    pub(super) fn fill_up(&mut self, buffer: &mut [u8]) -> Result<Option<usize>, IoFault>
        requires reads { IsReading self.old }
        ensures answers { AnswersSized (reading_of self.old) (length buffer.old) (into_reply result buffer.new) (reading_of self.new) }
        ensures reads { IsReading self.new }
        ensures length { length buffer.new ≡ length buffer.old }
        ensures fits { CountFits result buffer.new }
        ensures refused { KeepsBuffer result buffer.old buffer.new }
    {
        let _ = &self.live;
        self.begin_reading()?;
        let progress = read_into(self, buffer, false)?;
        if self.answers(progress.stop, progress.count == 0) {
            Ok(Some(progress.count))
        } else {
            Ok(None)
        }
    }

    /// Copies the front of the bytes held into the front of a buffer, and answers how many. The cursor stays.
    pub(super) fn copy_ahead(&self, buffer: &mut [u8]) -> usize
        ensures count { result ≡ min (length (ahead_of self.now.window)) (length buffer.old) }
        ensures front { take result buffer.new ≡ take result (ahead_of self.now.window) }
        ensures behind { drop result buffer.new ≡ drop result buffer.old }
        ensures length { length buffer.new ≡ length buffer.old }
        ensures engine { Stands self.now }
    {
        let ahead = self.window.ahead();
        let count = ahead.len().min(buffer.len());
        buffer[..count].copy_from_slice(&ahead[..count]);
        count
    }

    /// One transfer for what is left of a buffer that is smaller than the window, by way of that.
    pub(super) fn read_by_window(&mut self, rest: &mut [u8], moved: bool) -> Result<Step, IoFault>
        requires live { self.old.life ≡ Live }
        requires reads { IsReading self.old }
        requires asks { 0 < length rest.old }
        ensures outcome { StepOutcome (reading_of self.old) moved result rest.new (reading_of self.new) }
        ensures length { length rest.new ≡ length rest.old }
        ensures reads { IsReading self.new }
    {
        let filled = self.fill(rest.len(), moved)?;
        let count = self.copy_ahead(rest);
        if count == rest.len() {
            self.window.advance(count);
        }
        Ok(step_by(filled, count, rest.len()))
    }
}
