//! Taking back what was written.
ghost use Rattle.std.specs.Prelude.{ℕ, ◌≡◌};
ghost use Rattle.py_stream.specs.Answers.{KeepsStream};
ghost use Rattle.py_stream.specs.Buffer.{buffer_of, may_take_back, TakesBack};
ghost use Rattle.py_engine.specs.Engine.{stream_of};

use super::BufferedData;
use py_raw::{Life, RawStream};

impl<R: RawStream> BufferedData<R> {
    /// Whether the last n bytes that are owed can be taken back: of a live stream that owes so many right before its place, whose raw
    /// stands where these begin.
    fn may_take_back(&self, count: usize) -> bool
        ensures { result ≡ may_take_back (buffer_of (stream_of self.now) 0) count }
    {
        let _ = &self.live;
        matches!(self.live.life(), Life::Live)
            && self.window.pending_end() == self.window.place()
            && self.raw_place == self.window.pending_place()
            && count <= self.window.pending().len()
    }

    /// Takes back the last n bytes that are owed, and answers whether it did; else all is as it was. Bytes that were read ahead behind them
    /// are let go of.
    pub fn take_back(&mut self, count: usize) -> bool
        ensures takes { (taken : ℕ) → TakesBack (buffer_of (stream_of self.old) taken) count result (buffer_of (stream_of self.new) taken) }
        ensures keeps { KeepsStream (stream_of self.old) (stream_of self.new) }
    {
        if !self.may_take_back(count) {
            return false;
        }
        if count > 0 {
            self.window.cut_at(self.window.place() - count as u64);
        }
        true
    }
}
