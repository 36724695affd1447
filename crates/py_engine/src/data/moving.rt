//! Where the stream stands, moving it, and giving its bytes a size.
ghost use Rattle.std.specs.Prelude.{◌≡◌, true, []};
ghost use Rattle.py_stream.specs.Access.{is_written};
ghost use Rattle.py_engine.specs.Engine.{stream_of};

use super::BufferedData;
use py_raw::{IoFault, RawStream};
use py_stream::{LiveRaw, Moves};

impl<R: RawStream> Moves for BufferedData<R> {
    type Raw = R;

    ghost shows = { stream_of };

    ghost rests = { λ engine. is_written engine.access ≡ true → engine.window.held ≡ [] };

    fn begin_call(&mut self) -> Result<(), IoFault> {
        let _ = &self.live;
        self.begin()
    }

    fn live(&self) -> &LiveRaw<R> {
        &self.live
    }

    fn stands_at(&self) -> u64 {
        self.window.place()
    }

    fn end(&mut self) -> Result<u64, IoFault> {
        let _ = &self.live;
        let end = self.raw_end()?;
        if self.window.is_settled() {
            Ok(end)
        } else {
            Ok(end.max(self.window.pending_end()))
        }
    }

    fn pass_on(&mut self) -> Result<(), IoFault> {
        let _ = &self.live;
        if !self.live.writes() {
            return Ok(());
        }
        self.pass_pending()
    }

    fn settle(&mut self) -> Result<(), IoFault> {
        let _ = &self.live;
        self.pass_all()
    }

    fn step_to(&mut self, target: u64) -> bool {
        let _ = &self.live;
        if !self.live.reads() || !self.window.covers(target) {
            return false;
        }
        self.window.move_to(target);
        true
    }

    fn go_to(&mut self, target: u64) -> Result<(), IoFault> {
        self.live.seek(target)?;
        self.window.seek_to(target);
        self.raw_place = target;
        Ok(())
    }

    fn resize(&mut self, size: u64) -> Result<(), IoFault> {
        let _ = &self.live;
        self.live.truncate(size)
    }
}
