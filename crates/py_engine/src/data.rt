//! The engine under the buffered streams: a raw stream, a window on its bytes, and what became of the stream.
ghost use Rattle.std.specs.Prelude.{◌≡◌, ◌≢◌, ◌<◌, ◌≤◌, true, false, length, vec_len, []};
ghost use Rattle.py_flat.specs.Limits.{greatest_place};
ghost use Rattle.py_raw.specs.RawStream.{WherePlace};
ghost use Rattle.py_stream.specs.Access.{is_read, is_written};
ghost use Rattle.py_stream.specs.Stream.{nothing_owed};
ghost use Rattle.py_window.specs.Window.{ahead_of, place_of};
ghost use Rattle.py_engine.specs.Engine.{stream_of, Stands, BeginOutcome, RawEndOutcome};
ghost use Rattle.py_engine.specs.Reading.{IsReading, FillsOutcome, PassesOutcome};
ghost use Rattle.py_engine.specs.Ahead.{LendsAhead};

mod calls;
mod ending;
mod gathering;
mod given;
mod moving;
mod passing_on;
mod random;
mod random_writing;
mod reading;
mod single;
mod taking_back;
mod writing;

use py_raw::{IoFault, Life, RawStream};
use py_stream::{Access, LiveRaw};
use py_window::{Filled, Window};
use std::marker::Model;

/// While the stream lives, `raw_place` is where its raw stands: of a stream that is read after all that the window holds, of one
/// that is written where the pending bytes belong, and of one that is both anywhere among these.
#[derive(Debug, Drop)]
pub struct BufferedData<R: RawStream> {
    live: LiveRaw<R>,
    raw_place: u64,
    window: Window,
}

// A function's proof knows the invariant where the function uses a field: so some begin with `let _ = &self.live;`.
impl<R: RawStream> Model for BufferedData<R> {
    ghost use Rattle.py_engine.specs.Engine.{EngineView, IsEngine};

    ghost Value = { EngineView };

    ghost view = { λ d. record { raw = d.live.raw; raw_place = d.raw_place; window = d.window; access = d.live.access; life = d.live.life; short = d.live.short } };

    ghost invariant = { λ d. IsEngine d.live.raw d.raw_place d.window d.live.access d.live.life };
}

impl<R: RawStream> BufferedData<R> {
    /// An engine over an open raw that stands at a place, with an empty window there.
    pub fn new(raw: R, buffer: Vec<u8>, place: u64, access: Access) -> Self
        requires open { (R.shows raw).closed ≡ false }
        requires some { 0 < vec_len buffer }
        requires within { place ≤ greatest_place }
        requires stands { WherePlace (R.shows raw) ((R.shows raw).place ≡ place) }
        ensures { result ≡ record { raw = R.shows raw; raw_place = place; window = record { size = vec_len buffer; begin = place; held = []; cursor = 0; from = 0; to = 0 }; access = access; life = Life.Live; short = false } }
    {
        BufferedData {
            live: LiveRaw::new(raw, access),
            raw_place: place,
            window: Window::new(buffer, place),
        }
    }

    /// What became of the stream.
    pub fn life(&self) -> Life
        ensures { result ≡ self.now.life }
    {
        self.live.life()
    }

    /// Whether a wait cut the last answer short.
    pub fn short(&self) -> bool
        ensures { result ≡ self.now.short }
    {
        self.live.short()
    }

    /// Forgets that a wait cut the last answer short.
    pub fn forget_wait(&mut self)
        ensures { self.new ≡ record self.old { short = false } }
    {
        self.live.note_wait(false);
    }

    /// The raw, lent.
    pub fn raw(&self) -> &R
        ensures raw { R.shows result.now ≡ self.now.raw }
        ensures attached { self.now.life ≢ Life.Detached }
    {
        self.live.raw()
    }

    /// The bytes that are held from the place on, lent.
    pub fn ahead(&self) -> &[u8]
        ensures bytes { result.now ≡ ahead_of self.now.window }
        ensures lends { is_read self.now.access ≡ true → self.now.life ≡ Life.Live → LendsAhead (stream_of self.now) result.now }
    {
        let _ = &self.live;
        self.window.ahead()
    }

    /// The stream's place, whether it can be moved or not. One that isn't written owes nothing there.
    pub fn place(&self) -> u64
        ensures place { result ≡ place_of self.now.window }
        ensures unwritten { is_written self.now.access ≡ false → (stream_of self.now).owed ≡ nothing_owed (place_of self.now.window) }
    {
        let _ = &self.live;
        self.window.place()
    }

    /// Begins a call: the life refuses it, or it may go on. No answer is short yet.
    fn begin(&mut self) -> Result<(), IoFault>
        ensures { BeginOutcome self.old result self.new }
    {
        self.live.begin()
    }

    /// Asks the raw where it ends.
    fn raw_end(&mut self) -> Result<u64, IoFault>
        requires live { self.old.life ≡ Life.Live }
        ensures { RawEndOutcome self.old result self.new }
    {
        self.live.end()
    }

    /// Fills the window anew, by one transfer, for a call that wants n bytes more. `moved` tells whether bytes had moved in this call.
    fn fill(&mut self, wanted: usize, moved: bool) -> Result<Filled, IoFault>
        requires live { self.old.life ≡ Life.Live }
        requires reads { IsReading self.old }
        requires wants { 0 < wanted }
        ensures { FillsOutcome self.old moved result self.new }
    {
        let filled = self.window.fill(&mut self.live, wanted, moved);
        self.raw_place = self.window.end_place();
        filled
    }

    /// Passes bytes straight into a caller's buffer, by one transfer. `moved` tells whether bytes had moved in this call.
    fn pass(&mut self, buffer: &mut [u8], moved: bool) -> Result<Filled, IoFault>
        requires live { self.old.life ≡ Life.Live }
        requires reads { IsReading self.old }
        requires asks { 0 < length buffer.old }
        ensures outcome { PassesOutcome self.old moved result buffer.new self.new }
        ensures length { length buffer.new ≡ length buffer.old }
    {
        let filled = self.window.pass(&mut self.live, buffer, moved);
        self.raw_place = self.window.end_place();
        filled
    }

    /// The raw, what it is owed in the buffer that held it, and the place of that, in every life.
    pub fn into_parts(self) -> (R, Vec<u8>, u64)
        ensures raw { R.shows result.0 ≡ self.raw }
        ensures unwritten { result.1.items ≡ (stream_of self).owed.bytes }
        ensures fits { length result.1.items ≤ self.window.size }
        ensures place { result.2 ≡ (stream_of self).owed.place }
        ensures attached { self.life ≢ Life.Detached }
    {
        let BufferedData {
            live,
            raw_place: _,
            window,
        } = self;
        let place = window.pending_place();
        (live.into_raw(), window.into_pending(), place)
    }
}
