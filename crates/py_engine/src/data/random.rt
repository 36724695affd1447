//! What readings rest on of a stream that may be written too: it may owe bytes, and its raw needn't stand after those held.
ghost use Rattle.std.specs.Prelude.{◌≡◌, ◌≤◌, true, false, length};
ghost use Rattle.py_flat.specs.declared.life.Life.TheVariants.{Live};
ghost use Rattle.py_stream.specs.Access.{is_read};
ghost use Rattle.py_stream.specs.Answers.{IsAhead};
ghost use Rattle.py_window.specs.Window.{ahead_of, advanced};
ghost use Rattle.py_engine.specs.Engine.{stream_of};
ghost use Rattle.py_engine.specs.Reading.{IsReading};
ghost use Rattle.py_engine.specs.Random.{GoesAhead, LinesIn};

use super::BufferedData;
use py_lines::{Collected, Collector, LinesCollector};
use py_raw::{IoFault, Lines, RawStream};
use py_stream::Access;
use std::alloc::{AllocError, Global};

/// The lines at the front of a piece that are above the hint, and how many bytes they have; `None` where the piece doesn't have them.
pub(super) fn lines_in(
    alloc: Global,
    bytes: &[u8],
    hint: Option<usize>,
) -> Result<Option<(Lines, usize)>, AllocError>
    ensures { LinesIn bytes.now hint result }
{
    let most = hint.unwrap_or(0);
    if most == 0 || bytes.len() <= most {
        return Ok(None);
    }
    let mut collector = LinesCollector::new(alloc, hint);
    match collector.collect(bytes)? {
        Collected::Enough(used) => Ok(Some((collector.into_lines(), used))),
        Collected::All => Ok(None),
    }
}

impl<R: RawStream> BufferedData<R> {
    /// Whether a reading goes on from the bytes held: nothing is owed, and the raw stands after them.
    pub(super) fn is_ahead(&self) -> bool
        requires reads { is_read self.now.access ≡ true }
        ensures yes { result ≡ true → IsReading self.now }
        ensures no { result ≡ false → IsAhead (stream_of self.now) → ⊥ }
        ensures update { result ≡ false → self.now.access ≡ Access.Update }
    {
        if !self.live.writes() {
            return true;
        }
        self.window.is_settled() && self.raw_place == self.window.end_place()
    }

    /// Sees to it that a reading goes on from the bytes held: passes on all that is owed, and has the raw stand after them. False where
    /// the raw would have blocked, which is remembered.
    pub(super) fn go_ahead(&mut self) -> Result<bool, IoFault>
        requires live { self.old.life ≡ Live }
        requires whole { self.old.short ≡ false }
        requires reads { is_read self.old.access ≡ true }
        ensures { GoesAhead self.old result self.new }
    {
        let _ = &self.live;
        if self.is_ahead() {
            return Ok(true);
        }
        match self.pass_to_read() {
            Ok(()) => Ok(true),
            Err(fault) => match fault {
                IoFault::WouldBlock { taken: _ } => Ok(false),
                other => Err(other),
            },
        }
    }

    /// Moves the place past n of the bytes held.
    pub(super) fn step_on(&mut self, count: usize)
        requires reads { is_read self.old.access ≡ true }
        requires held { count ≤ length (ahead_of self.old.window) }
        ensures { self.new ≡ record self.old { window = advanced count self.old.window } }
    {
        let _ = &self.live;
        self.window.advance(count);
    }
}
