//! Transfers from a raw stream, into the window and past it.
ghost use Rattle.std.specs.Prelude.{◌≡◌, ◌<◌, ◌≤◌, false, length};
ghost use Rattle.py_flat.specs.Limits.{greatest_place};
ghost use Rattle.py_raw.specs.RawStream.{Keeps, StaysOpen};
ghost use Rattle.py_window.specs.Window.{TransferOutcome, FillOutcome, PassOutcome};

use super::{Filled, Window};
use py_raw::{IoFault, RawStream};
use py_stream::LiveRaw;

/// One transfer of a raw that stands at a place, which asks for n bytes, into the front of a buffer. `moved` tells whether bytes had
/// moved in this call.
fn transfer<R: RawStream>(
    live: &mut LiveRaw<R>,
    buffer: &mut [u8],
    asked: usize,
    place: u64,
    moved: bool,
) -> Result<Filled, IoFault>
    requires open { live.old.raw.closed ≡ false }
    requires asks { 0 < asked }
    requires room { asked ≤ length buffer.old }
    requires within { place ≤ greatest_place }
    ensures keeps { Keeps live.old.raw live.new.raw }
    ensures open { StaysOpen live.old.raw live.new.raw }
    ensures outcome { TransferOutcome live.old moved place buffer.old result buffer.new live.new }
    ensures length { length buffer.new ≡ length buffer.old }
{
    match live.transfer(&mut buffer[..asked], place, moved) {
        Ok(Some(0)) => Ok(Filled::End),
        Ok(Some(count)) => Ok(Filled::More(count)),
        Ok(None) => Ok(Filled::Waits),
        Err(fault) => Err(fault),
    }
}

impl Window {
    /// How many bytes a transfer asks for, for a call that wants n: as many as the buffer holds, but the first after a seek no more than n.
    fn asked(&self, wanted: usize) -> usize
        requires { 0 < wanted }
        ensures some { 0 < result }
        ensures within { result ≤ self.now.size }
    {
        let size = self.buffer.len();
        if self.sought { wanted.min(size) } else { size }
    }

    /// Lets go of what is held, and fills the buffer by one transfer of a raw that stands after it, for a call that wants n bytes: the
    /// first transfer after a seek asks for no more, since the next call may go elsewhere.
    pub fn fill<R: RawStream>(
        &mut self,
        live: &mut LiveRaw<R>,
        wanted: usize,
        moved: bool,
    ) -> Result<Filled, IoFault>
        requires open { live.old.raw.closed ≡ false }
        requires wants { 0 < wanted }
        ensures keeps { Keeps live.old.raw live.new.raw }
        ensures open { StaysOpen live.old.raw live.new.raw }
        ensures outcome { FillOutcome live.old moved self.old result live.new self.new }
    {
        let place = self.end_place();
        let asked = self.asked(wanted);
        let filled = transfer(live, self.buffer.as_mut_slice(), asked, place, moved);
        match filled {
            Ok(Filled::More(count)) => {
                self.sought = false;
                self.begin = place;
                self.end = count;
                self.cursor = 0;
                self.from = 0;
                self.to = 0;
            }
            Err(IoFault::NoMemory) => {}
            _ => self.restart_at(place),
        }
        filled
    }

    /// Lets go of what is held, and passes bytes of a raw that stands after it straight into the front of a caller's
    /// buffer, by one transfer.
    pub fn pass<R: RawStream>(
        &mut self,
        live: &mut LiveRaw<R>,
        buffer: &mut [u8],
        moved: bool,
    ) -> Result<Filled, IoFault>
        requires open { live.old.raw.closed ≡ false }
        requires asks { 0 < length buffer.old }
        ensures keeps { Keeps live.old.raw live.new.raw }
        ensures open { StaysOpen live.old.raw live.new.raw }
        ensures outcome { PassOutcome live.old moved self.old result buffer.new live.new self.new }
        ensures length { length buffer.new ≡ length buffer.old }
    {
        let place = self.end_place();
        let asked = buffer.len();
        let filled = transfer(live, buffer, asked, place, moved);
        match filled {
            Ok(Filled::More(count)) => self.restart_at(place + count as u64),
            Err(IoFault::NoMemory) => {}
            _ => self.restart_at(place),
        }
        filled
    }
}
