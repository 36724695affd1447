//! Readings by at most one transfer.
ghost use Rattle.std.specs.Prelude.{◌≡◌, ◌<◌, false, true, [], length};
ghost use Rattle.py_flat.specs.declared.life.Life.TheVariants.{Live};
ghost use Rattle.py_stream.specs.Access.{is_read};
ghost use Rattle.py_window.specs.Window.{ahead_of};
ghost use Rattle.py_engine.specs.Engine.{stream_of};
ghost use Rattle.py_engine.specs.Random.{OnceOutcome, SomeOutcome};
ghost use Rattle.py_engine.specs.Reading.{IsReading, ReadyOutcome, GivesHeld};

use super::BufferedData;
use py_raw::{IoFault, RawStream};
use py_stream::{ReadsOn, Stop};
use py_window::Filled;
use std::alloc::Global;

impl<R: RawStream> BufferedData<R> {
    /// Sees to it that the bytes held answer a call by one transfer that wants n and passes on first: some are held and none owed, or
    /// nothing comes. False where the raw would have blocked, which is remembered.
    pub(super) fn has_once(&mut self, wanted: usize) -> Result<bool, IoFault>
        requires live { self.old.life ≡ Live }
        requires whole { self.old.short ≡ false }
        requires reads { is_read self.old.access ≡ true }
        requires wants { 0 < wanted }
        ensures { OnceOutcome self.old wanted result self.new }
    {
        let _ = &self.live;
        if self.gives_at_once() {
            return Ok(true);
        }
        if !self.go_ahead()? {
            return Ok(false);
        }
        let stop = self.ready(wanted)?;
        Ok(self.answers(stop, true))
    }

    /// Sees to it that some of the bytes that come next are held, owed or not, for a call by one transfer that wants n and needn't pass
    /// on first; or that nothing comes. False where the raw would have blocked, which is remembered.
    pub(super) fn has_some(&mut self, wanted: usize) -> Result<bool, IoFault>
        requires live { self.old.life ≡ Live }
        requires whole { self.old.short ≡ false }
        requires reads { is_read self.old.access ≡ true }
        requires wants { 0 < wanted }
        ensures { SomeOutcome self.old wanted result self.new }
    {
        let _ = &self.live;
        if !self.window.is_used_up() {
            return Ok(true);
        }
        self.has_once(wanted)
    }

    /// Whether bytes are held from the place on, and nothing is owed.
    fn gives_at_once(&self) -> bool
        ensures yes { result ≡ true → (0 < length (ahead_of self.now.window)) × ((stream_of self.now).owed.bytes ≡ []) }
        ensures no { result ≡ false → 0 < length (ahead_of self.now.window) → (stream_of self.now).owed.bytes ≡ [] → ⊥ }
    {
        self.window.is_settled() && !self.window.is_used_up()
    }

    /// Sees to it that some bytes are held, by one transfer where none are, for a call that wants n.
    fn ready(&mut self, wanted: usize) -> Result<Stop, IoFault>
        requires live { self.old.life ≡ Live }
        requires reads { IsReading self.old }
        requires wants { 0 < wanted }
        ensures { ReadyOutcome self.old result self.new }
    {
        if !self.window.is_used_up() {
            return Ok(Stop::Enough);
        }
        match self.fill(wanted, false)? {
            Filled::More(_) => Ok(Stop::Enough),
            Filled::End => Ok(Stop::End),
            Filled::Waits => Ok(Stop::Waits),
        }
    }

    /// Gives of what is held, at most n bytes.
    pub(super) fn give(&mut self, alloc: Global, size: usize) -> Result<Vec<u8>, IoFault>
        requires live { self.old.life ≡ Live }
        requires reads { is_read self.old.access ≡ true }
        ensures { GivesHeld self.old size result self.new }
    {
        let ahead = self.window.ahead();
        let count = size.min(ahead.len());
        let Ok(bytes) = Vec::from_slice(alloc, &ahead[..count]) else {
            return Err(IoFault::NoMemory);
        };
        self.window.advance(count);
        Ok(bytes)
    }
}
