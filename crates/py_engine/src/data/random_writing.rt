//! Writes of a stream that is read and written, wherever the bytes that it owes lie.
ghost use Rattle.std.specs.Prelude.{◌≡◌, ◌+◌, ◌<◌, ◌≤◌, ◌⊎◌, true, false, length, take, IfOk};
ghost use Rattle.py_flat.specs.Limits.{greatest_place};
ghost use Rattle.py_flat.specs.BinaryStep.{payload};
ghost use Rattle.py_flat.specs.Calls.{Write, WriteLines};
ghost use Rattle.py_stream.specs.Access.{is_written};
ghost use Rattle.py_stream.specs.Answers.{Answers};
ghost use Rattle.py_stream.specs.Held.{KeepsBoth, OwesHeld};
ghost use Rattle.py_stream.specs.Replies.{count_reply, done_reply};
ghost use Rattle.py_stream.specs.Writing.{IsFull};
ghost use Rattle.py_window.specs.Window.{place_of, room_of};
ghost use Rattle.py_engine.specs.Engine.{stream_of, IsBehind};
ghost use Rattle.py_engine.specs.RandomWriting.{GoesBehind, GivesOutcome, call_of};

use super::BufferedData;
use super::given::Given;
use super::passing_on::Passed;
use py_raw::{IoFault, Life, Lines, RawStream};
use py_stream::Access;

impl<R: RawStream> BufferedData<R> {
    /// Takes bytes.
    pub fn write(&mut self, bytes: &[u8]) -> Result<usize, IoFault>
        requires writes { is_written self.old.access ≡ true }
        ensures { Answers (stream_of self.old) (Write bytes.now) (count_reply result) (stream_of self.new) }
    {
        if self.give_among(Given::Bytes(bytes))? {
            return Ok(bytes.len());
        }
        self.write_behind(bytes)
    }

    /// Takes lines, as one write of them joined.
    pub fn writelines(&mut self, lines: &Lines) -> Result<(), IoFault>
        requires writes { is_written self.old.access ≡ true }
        ensures { Answers (stream_of self.old) (WriteLines lines.now) (done_reply result) (stream_of self.new) }
    {
        if self.give_among(Given::Lines(lines))? {
            return Ok(());
        }
        self.writelines_behind(lines)
    }

    /// Whether what is owed ends at the place, where all held bytes end, and the raw stands where it begins.
    fn is_behind(&self) -> bool
        requires writes { is_written self.now.access ≡ true }
        ensures yes { result ≡ true → IsBehind self.now }
        ensures no { result ≡ false → self.now.access ≡ Access.Update }
    {
        if !self.live.reads() {
            return true;
        }
        let place = self.window.place();
        self.window.pending_end() == place
            && self.window.end_place() == place
            && self.raw_place == self.window.pending_place()
    }

    /// Takes bytes at the place, wherever those lie that are owed. False where all that is owed ends at the place, with none of them
    /// taken.
    fn give_among(&mut self, given: Given<'_>) -> Result<bool, IoFault>
        requires writes { is_written self.old.access ≡ true }
        ensures outcome { GivesOutcome self.old given.entry result self.new }
        ensures behind { IfOk result (λ taken. taken ≡ false → IsBehind self.new) }
    {
        if self.is_behind() {
            return Ok(false);
        }
        let _ = &self.live;
        self.begin()?;
        let place = self.window.place();
        match given.end_from(place) {
            Some(end) => self.give_placed(given, end - place),
            None => Err(IoFault::TooFar),
        }
    }

    /// Takes bytes that have a place, in a call that began. False where all that is owed ends at the place, with none of them taken.
    fn give_placed(&mut self, given: Given<'_>, count: u64) -> Result<bool, IoFault>
        requires live { self.old.life ≡ Life.Live }
        requires whole { self.old.short ≡ false }
        requires update { self.old.access ≡ Access.Update }
        requires count { count ≡ length (payload (call_of given)) }
        requires within { place_of self.old.window + count ≤ greatest_place }
        ensures outcome { GivesOutcome self.old given.entry result self.new }
        ensures behind { IfOk result (λ taken. taken ≡ false → IsBehind self.new) }
    {
        let _ = &self.live;
        if count == 0 {
            return Ok(true);
        }
        if self.has_room(count) {
            self.keep_over(given);
            return Ok(true);
        }
        if self.go_behind()? {
            return Ok(false);
        }
        let _ = &self.window; // what holds of every engine is known from here on
        if self.window.room() == 0 {
            self.owe_all();
            self.live.note_wait(true);
            return Err(IoFault::WouldBlock { taken: 0 });
        }
        let room = self.keep_over(given);
        if count <= room {
            return Ok(true);
        }
        self.live.note_wait(true);
        Err(IoFault::WouldBlock { taken: room })
    }

    /// Whether n bytes may be put at the place with no call of the raw: the buffer has room for them, and the raw doesn't stand before
    /// the first that is owed then.
    fn has_room(&self, count: u64) -> bool
        ensures room { result ≡ true → count ≤ room_of self.now.window }
        ensures there { result ≡ true → self.now.window.begin + self.now.window.from ≤ self.now.raw_place }
        ensures none { result ≡ false → (room_of self.now.window < count) ⊎ (self.now.raw_place < self.now.window.begin + self.now.window.from) }
    {
        count <= self.window.room() as u64 && self.window.pending_place() <= self.raw_place
    }

    /// Puts as many bytes at the place, over those held there, as there is room for; how many that is.
    fn keep_over(&mut self, given: Given<'_>) -> u64
        requires live { self.old.life ≡ Life.Live }
        requires update { self.old.access ≡ Access.Update }
        requires within { place_of self.old.window + length (payload (call_of given)) ≤ greatest_place }
        requires there { self.old.window.from ≡ self.old.window.to → self.old.window.begin + self.old.window.from ≤ self.old.raw_place }
        ensures room { result ≡ room_of self.old.window }
        ensures keeps { KeepsBoth (stream_of self.old) (take result (payload (call_of given.entry))) (stream_of self.new) }
        ensures full { result ≤ length (payload (call_of given.entry)) → 0 < result → IsFull (stream_of self.new).owed (stream_of self.new).place self.new.window.size }
    {
        let _ = &self.live;
        let room = self.window.room();
        given.push(&mut self.window, room);
        room as u64
    }

    /// Owes all that is held, where there is no room at the place: what was only held up to there is passed on with the rest.
    fn owe_all(&mut self)
        requires live { self.old.life ≡ Life.Live }
        requires update { self.old.access ≡ Access.Update }
        requires full { room_of self.old.window ≡ 0 }
        ensures fills { OwesHeld (stream_of self.old) (stream_of self.new) }
        ensures full { IsFull (stream_of self.new).owed (stream_of self.new).place self.new.window.size }
    {
        let _ = &self.live;
        self.window.own_all();
    }

    /// Passes on all that is owed, for a call that gives bytes. False where the raw would have blocked.
    fn go_behind(&mut self) -> Result<bool, IoFault>
        requires live { self.old.life ≡ Life.Live }
        requires whole { self.old.short ≡ false }
        requires update { self.old.access ≡ Access.Update }
        ensures outcome { GoesBehind self.old result self.new }
        ensures behind { IfOk result (λ done. done ≡ true → IsBehind self.new) }
        ensures access { self.new.access ≡ self.old.access }
    {
        let _ = &self.live;
        match self.pass_owed()? {
            Passed::All => {
                let _ = &self.window; // what holds of every engine is known from here on
                self.stand_here()?;
                let _ = &self.window;
                Ok(true)
            }
            Passed::Waits => Ok(false),
        }
    }
}
