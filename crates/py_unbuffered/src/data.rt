//! The engine of the streams without a buffer: a raw stream, its place, and what became of the stream.
ghost use Rattle.std.specs.Prelude.{◌≡◌, ◌≢◌, false, length};
ghost use Rattle.py_unbuffered.specs.Engine.{IsEngine, BeginOutcome, TransferOutcome, live_of};
ghost use Rattle.py_stream.specs.Access.{can_of};

mod ending;
mod gathering;
mod moving;
mod reading;
mod writing;

use py_raw::{IoFault, Life, RawStream};
use py_stream::{Access, LiveRaw};
use std::marker::Model;

/// The raw stands at the place, while the stream lives.
#[derive(Debug, Drop)]
pub(crate) struct UnbufferedData<R: RawStream> {
    live: LiveRaw<R>,
    place: u64,
}

// A function's proof knows the invariant where the function uses a field: so some begin with `let _ = &self.live;`.
impl<R: RawStream> Model for UnbufferedData<R> {
    ghost use Rattle.py_unbuffered.specs.Engine.{EngineView, IsEngine};

    ghost Value = { EngineView };

    ghost view = { λ d. record { raw = d.live.raw; place = d.place; access = d.live.access; life = d.live.life; short = d.live.short } };

    ghost invariant = { λ d. IsEngine d.live.raw d.place d.live.access d.live.life };
}

impl<R: RawStream> UnbufferedData<R> {
    /// An engine over a raw that stands at a place.
    pub fn new(raw: R, place: u64, access: Access) -> Self
        requires { IsEngine (R.shows raw) place access Life.Live }
        ensures { result ≡ record { raw = R.shows raw; place = place; access = access; life = Life.Live; short = false } }
    {
        UnbufferedData {
            live: LiveRaw::new(raw, access),
            place,
        }
    }

    /// The raw, and what became of the stream over it, lent.
    pub fn live(&self) -> &LiveRaw<R>
        ensures live { result.now ≡ live_of self.now }
        ensures attached { self.now.life ≢ Life.Detached }
    {
        &self.live
    }

    /// Notes whether a wait cut the answer short.
    pub fn note_wait(&mut self, waits: bool)
        ensures { self.new ≡ record self.old { short = waits } }
    {
        self.live.note_wait(waits);
    }

    /// Begins a call: the life refuses it, or it may go on. No answer is short yet.
    fn begin(&mut self) -> Result<(), IoFault>
        ensures { BeginOutcome self.old result self.new }
    {
        self.live.begin()
    }

    /// Whether the stream writes.
    fn writes(&self) -> bool
        ensures { result ≡ (can_of self.now.access self.now.raw.seekable).writable }
    {
        self.live.writes()
    }

    /// One transfer into a buffer, of no byte past the greatest place. `moved` tells whether bytes had moved in this call.
    fn transfer(&mut self, buffer: &mut [u8], moved: bool) -> Result<Option<usize>, IoFault>
        requires live { self.old.life ≡ Life.Live }
        ensures outcome { TransferOutcome self.old moved buffer.old result buffer.new self.new }
        ensures length { length buffer.new ≡ length buffer.old }
    {
        let came = self.live.transfer(buffer, self.place, moved)?;
        self.place += came.unwrap_or(0) as u64;
        Ok(came)
    }

    /// The raw and the place, in every life.
    pub fn into_parts(self) -> (R, u64)
        ensures raw { R.shows result.0 ≡ self.raw }
        ensures place { result.1 ≡ self.place }
        ensures attached { self.life ≢ Life.Detached }
    {
        let UnbufferedData { live, place } = self;
        (live.into_raw(), place)
    }
}
