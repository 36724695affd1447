//! Passing on what the raw is owed.
ghost use Rattle.std.specs.Prelude.{ℕ, ◌≡◌, ◌≢◌, ◌<◌, ◌≤◌, true, false, [], length, IfOk};
ghost use Rattle.py_flat.specs.Limits.{greatest_place};
ghost use Rattle.py_flat.specs.Calls.{Flush};
ghost use Rattle.py_raw.specs.RawStream.{WhereTransfers};
ghost use Rattle.py_stream.specs.Access.{is_written};
ghost use Rattle.py_stream.specs.Moving.{MoveRawOutcome};
ghost use Rattle.py_stream.specs.Settling.{SettleOutcome};
ghost use Rattle.py_stream.specs.Answers.{Answers, KeepsStream};
ghost use Rattle.py_stream.specs.Buffer.{buffer_of, Prepares};
ghost use Rattle.py_stream.specs.Replies.{done_reply};
ghost use Rattle.py_window.specs.Window.{pending_of, place_of, end_of};
ghost use Rattle.py_engine.specs.Engine.{stream_of, IsBehind};
ghost use Rattle.py_engine.specs.Reading.{IsReading};
ghost use Rattle.py_engine.specs.Passing.{StandsAtOwed, DrainOutcome, FlushOutcome, OwedOutcome, MayMoveRaw, StandsHereOutcome, AlignsOutcome, PassesAll};

use super::BufferedData;
use py_raw::{IoFault, Life, RawStream};
use py_stream::Access;

/// How far a passing on came.
#[derive(Clone, Copy)]
pub(crate) enum Passed {
    /// All that was to be passed on was.
    All,
    /// The raw would have blocked.
    Waits,
}

impl<R: RawStream> BufferedData<R> {
    /// Passes on all that is owed.
    pub fn flush(&mut self) -> Result<(), IoFault>
        ensures { Answers (stream_of self.old) Flush (done_reply result) (stream_of self.new) }
    {
        let _ = &self.live;
        self.begin()?;
        self.pass_all()
    }

    /// Sees to it that the raw stands where a flush begins to write. The raw of a stream that isn't written stays where it is.
    pub fn prepare_flush(&mut self) -> Result<(), IoFault>
        ensures prepares { (taken : ℕ) → Prepares (buffer_of (stream_of self.old) taken) result (buffer_of (stream_of self.new) taken) }
        ensures keeps { KeepsStream (stream_of self.old) (stream_of self.new) }
    {
        let _ = &self.live;
        self.begin()?;
        if !self.live.writes() {
            return Ok(());
        }
        let place = self.window.pending_place();
        self.move_raw(place)
    }

    /// Passes on some of what is owed, by one transfer of a raw that stands where that begins.
    fn drain(&mut self) -> Result<Passed, IoFault>
        requires live { self.old.life ≡ Life.Live }
        requires writes { is_written self.old.access ≡ true }
        requires some { 0 < length (pending_of self.old.window) }
        requires there { self.old.raw_place ≡ (stream_of self.old).owed.place }
        ensures outcome { DrainOutcome (stream_of self.old) result (stream_of self.new) }
        ensures access { self.new.access ≡ self.old.access }
        ensures behind { IsBehind self.old → IsBehind self.new }
    {
        match self.live.write(self.window.pending(), false)? {
            Some(count) => {
                self.window.pass_on(count);
                self.raw_place += count as u64;
                Ok(Passed::All)
            }
            None => Ok(Passed::Waits),
        }
    }

    /// Passes on all that is owed, by a raw that stands where that begins, unless the raw would block.
    pub(super) fn flush_pending(&mut self) -> Result<Passed, IoFault>
        requires live { self.old.life ≡ Life.Live }
        requires writes { is_written self.old.access ≡ true }
        requires there { StandsAtOwed (stream_of self.old) }
        ensures outcome { FlushOutcome (stream_of self.old) result (stream_of self.new) }
        ensures access { self.new.access ≡ self.old.access }
        ensures behind { IsBehind self.old → IsBehind self.new }
    {
        let _ = &self.live;
        while !self.window.is_settled() {
            match self.drain()? {
                Passed::All => {}
                Passed::Waits => return Ok(Passed::Waits),
            }
        }
        Ok(Passed::All)
    }

    /// Sees to it that the raw stands at a place.
    fn move_raw(&mut self, place: u64) -> Result<(), IoFault>
        requires live { self.old.life ≡ Life.Live }
        requires within { place ≤ greatest_place }
        requires may { self.old.raw_place ≢ place → MayMoveRaw self.old place }
        ensures outcome { MoveRawOutcome (stream_of self.old) place result (stream_of self.new) }
        ensures window { self.new.window ≡ self.old.window }
        ensures access { self.new.access ≡ self.old.access }
    {
        if self.raw_place == place {
            return Ok(());
        }
        self.live.seek(place)?;
        self.raw_place = place;
        Ok(())
    }

    /// Passes on all that is owed, wherever it belongs, unless the raw would block.
    pub(super) fn pass_owed(&mut self) -> Result<Passed, IoFault>
        requires live { self.old.life ≡ Life.Live }
        requires writes { is_written self.old.access ≡ true }
        ensures outcome { OwedOutcome (stream_of self.old) result (stream_of self.new) }
        ensures access { self.new.access ≡ self.old.access }
        ensures none { (stream_of self.old).owed.bytes ≡ [] → self.new ≡ self.old }
    {
        if self.window.is_settled() {
            return Ok(Passed::All);
        }
        let place = self.window.pending_place();
        self.move_raw(place)?;
        self.flush_pending()
    }

    /// Passes on all that is owed, wherever it belongs. A wait refuses the call, and is remembered.
    pub(super) fn pass_pending(&mut self) -> Result<(), IoFault>
        requires live { self.old.life ≡ Life.Live }
        requires whole { self.old.short ≡ false }
        requires writes { is_written self.old.access ≡ true }
        ensures outcome { SettleOutcome (stream_of self.old) result (stream_of self.new) }
        ensures access { self.new.access ≡ self.old.access }
        ensures none { (stream_of self.old).owed.bytes ≡ [] → self.new ≡ self.old }
    {
        match self.pass_owed()? {
            Passed::All => Ok(()),
            Passed::Waits => {
                self.live.note_wait(true);
                Err(IoFault::WouldBlock { taken: 0 })
            }
        }
    }

    /// Sees to it that the raw stands at the place, and lets go of what is held, where nothing is owed.
    pub(super) fn stand_here(&mut self) -> Result<(), IoFault>
        requires live { self.old.life ≡ Life.Live }
        requires writes { is_written self.old.access ≡ true }
        requires none { (stream_of self.old).owed.bytes ≡ [] }
        ensures outcome { StandsHereOutcome (stream_of self.old) result (stream_of self.new) }
        ensures access { self.new.access ≡ self.old.access }
        ensures behind { IfOk result (λ done. IsBehind self.new) }
        ensures rests { IfOk result (λ done. self.new.window.held ≡ []) }
    {
        let place = self.window.place();
        self.move_raw(place)?;
        self.window.restart_at(place);
        Ok(())
    }

    /// Passes on all that is owed. A wait refuses the call, and is remembered. The raw then stands at the place, and nothing is held
    /// from there on; a stream that isn't written owes nothing, and is left as it is.
    pub(super) fn pass_all(&mut self) -> Result<(), IoFault>
        requires live { self.old.life ≡ Life.Live }
        requires whole { self.old.short ≡ false }
        ensures outcome { PassesAll self.old.access (stream_of self.old) result (stream_of self.new) }
        ensures stands { IfOk result (λ done. is_written self.old.access ≡ true → self.new.raw_place ≡ place_of self.new.window) }
        ensures behind { IfOk result (λ done. is_written self.old.access ≡ true → IsBehind self.new) }
        ensures rests { IfOk result (λ done. is_written self.old.access ≡ true → self.new.window.held ≡ []) }
        ensures access { self.new.access ≡ self.old.access }
    {
        if !self.live.writes() {
            return Ok(());
        }
        self.pass_pending()?;
        let _ = &self.window; // what holds of every engine is known from here on
        self.stand_here()
    }

    /// Passes on all that is owed, and sees to it that the raw stands after the bytes held, so that a reading goes on from these.
    pub(super) fn pass_to_read(&mut self) -> Result<(), IoFault>
        requires live { self.old.life ≡ Life.Live }
        requires whole { self.old.short ≡ false }
        requires update { self.old.access ≡ Access.Update }
        ensures outcome { SettleOutcome (stream_of self.old) result (stream_of self.new) }
        ensures reads { IfOk result (λ done. IsReading self.new) }
        ensures calm { (stream_of self.old).owed.bytes ≡ [] → WhereTransfers self.old.raw (self.new.raw.transfers ≤ self.old.raw.transfers) }
    {
        self.pass_pending()?;
        self.align()
    }

    /// Sees to it that the raw stands after the bytes held, where nothing is owed: those are let go of that lie after it, or it is moved
    /// after them, where it stands before the place.
    fn align(&mut self) -> Result<(), IoFault>
        requires live { self.old.life ≡ Life.Live }
        requires update { self.old.access ≡ Access.Update }
        requires none { (stream_of self.old).owed.bytes ≡ [] }
        ensures outcome { AlignsOutcome (stream_of self.old) result (stream_of self.new) }
        ensures reads { IfOk result (λ done. IsReading self.new) }
    {
        let _ = &self.live;
        if self.window.place() <= self.raw_place {
            self.window.end_at(self.raw_place);
            return Ok(());
        }
        let end = self.window.end_place();
        self.move_raw(end)
    }
}
