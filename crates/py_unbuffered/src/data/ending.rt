//! Flushing, and closing the raw.
ghost use Rattle.std.specs.Prelude.{◌≡◌, false};
ghost use Rattle.py_flat.specs.declared.life.Life.TheVariants.{Live};
ghost use Rattle.py_flat.specs.Calls.{Flush, Close};
ghost use Rattle.py_stream.specs.Answers.{Answers};
ghost use Rattle.py_stream.specs.Replies.{done_reply};
ghost use Rattle.py_unbuffered.specs.Engine.{stream_of};

use super::UnbufferedData;
use py_raw::{IoFault, Life, RawStream};

impl<R: RawStream> UnbufferedData<R> {
    /// Nothing is to be passed on.
    pub fn flush(&mut self) -> Result<(), IoFault>
        ensures { Answers (stream_of self.old) Flush (done_reply result) (stream_of self.new) }
    {
        let _ = &self.live;
        self.begin()
    }

    /// Closes the raw. A closed stream stays so.
    pub fn close(&mut self) -> Result<(), IoFault>
        ensures { Answers (stream_of self.old) Close (done_reply result) (stream_of self.new) }
    {
        if matches!(self.live.life(), Life::Closed) {
            self.note_wait(false);
            return Ok(());
        }
        self.begin()?;
        self.close_raw()
    }

    /// Closes the raw of a live stream. A fault leaves the stream closed too.
    fn close_raw(&mut self) -> Result<(), IoFault>
        requires live { self.old.life ≡ Live }
        requires whole { self.old.short ≡ false }
        ensures { Answers (stream_of self.old) Close (done_reply result) (stream_of self.new) }
    {
        self.live.close()
    }
}
