//! Where the stream stands, moving it, and giving its bytes a size.
ghost use Rattle.py_unbuffered.specs.Engine.{stream_of};

use super::UnbufferedData;
use py_raw::{IoFault, RawStream};
use py_stream::{LiveRaw, Moves};

impl<R: RawStream> Moves for UnbufferedData<R> {
    type Raw = R;

    ghost rests = { λ engine. Unit {0} };

    ghost shows = { stream_of };

    fn begin_call(&mut self) -> Result<(), IoFault> {
        let _ = &self.live;
        self.begin()
    }

    fn stands_at(&self) -> u64 {
        self.place
    }

    fn end(&mut self) -> Result<u64, IoFault> {
        let _ = &self.live;
        self.live.end()
    }

    /// Nothing is owed.
    fn pass_on(&mut self) -> Result<(), IoFault> {
        Ok(())
    }

    /// Nothing is owed, and the raw stands at the place.
    fn settle(&mut self) -> Result<(), IoFault> {
        Ok(())
    }

    /// No byte is held: it always stays.
    fn step_to(&mut self, _target: u64) -> bool {
        false
    }

    fn go_to(&mut self, target: u64) -> Result<(), IoFault> {
        let _ = &self.live;
        self.live.seek(target)?;
        self.place = target;
        Ok(())
    }

    fn live(&self) -> &LiveRaw<R> {
        &self.live
    }

    fn resize(&mut self, size: u64) -> Result<(), IoFault> {
        let _ = &self.live;
        self.live.truncate(size)
    }
}
