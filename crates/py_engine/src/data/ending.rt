//! Closing, and handing the raw back.
ghost use Rattle.std.specs.Prelude.{◌≡◌, false, []};
ghost use Rattle.py_flat.specs.Calls.{Close};
ghost use Rattle.py_stream.specs.Answers.{Answers};
ghost use Rattle.py_stream.specs.Replies.{done_reply};
ghost use Rattle.py_stream.specs.Ending.{CloseRawOutcome};
ghost use Rattle.py_window.specs.Window.{pending_of};
ghost use Rattle.py_engine.specs.Engine.{stream_of, Stands};
ghost use Rattle.py_engine.specs.Passing.{PassesToClose, BeginsDetachIn};

use super::BufferedData;
use py_raw::{IoFault, Life, RawStream};

impl<R: RawStream> BufferedData<R> {
    /// Passes on all that is owed, and closes the raw. A closed stream stays so.
    pub fn close(&mut self) -> Result<(), IoFault>
        ensures { Answers (stream_of self.old) Close (done_reply result) (stream_of self.new) }
    {
        let _ = &self.live;
        if matches!(self.live.life(), Life::Closed) {
            self.live.note_wait(false);
            return Ok(());
        }
        self.begin()?;
        self.pass_all_to_close()?;
        self.close_raw()
    }

    /// Passes on all that is owed, for a closing: a fault leaves the stream closed, and its raw open.
    fn pass_all_to_close(&mut self) -> Result<(), IoFault>
        requires live { self.old.life ≡ Life.Live }
        requires whole { self.old.short ≡ false }
        ensures { PassesToClose self.old.access (stream_of self.old) result (stream_of self.new) }
    {
        match self.pass_all() {
            Err(IoFault::RawFault) => {
                self.live.shut();
                Err(IoFault::RawFault)
            }
            result => result,
        }
    }

    /// Closes the raw of a live stream, where nothing is owed. A fault leaves the stream closed too.
    fn close_raw(&mut self) -> Result<(), IoFault>
        requires live { self.old.life ≡ Life.Live }
        ensures { CloseRawOutcome (stream_of self.old) result (stream_of self.new) }
    {
        self.live.close()
    }

    /// Whether the raw may be handed back: of a live stream once nothing is owed, and of a failed one.
    pub fn begin_detach(&mut self) -> Result<(), IoFault>
        ensures begins { BeginsDetachIn self.old.access self.old.life (stream_of (record self.old { short = false })) result (stream_of self.new) }
        ensures stands { Stands self.old }
    {
        self.live.note_wait(false);
        match self.live.life() {
            Life::Live => self.pass_all(),
            Life::Closed => Err(IoFault::Closed),
            Life::Failed | Life::Detached => Ok(()),
        }
    }
}
