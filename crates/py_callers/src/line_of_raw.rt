//! A caller of sessions: the first line of a raw stream.
ghost use Rattle.py_stream.specs.Opening.{StandsAtStart};
ghost use Rattle.py_callers.specs.FirstLine.{LineOutcome};

use py_open::{
    Call, DEFAULT_BUFFER_SIZE, EncodeMode, FileMode, Mode, OpenPlan, OpenRefused, PlanKind, Reply,
    Run, a_run_answers_each_call, run_planned,
};
use py_raw::RawStream;
use py_stream::Detached;
use std::alloc::Global;

/// The reply of a session that was asked for a line, and the raw stream under it.
#[derive(Debug, Drop)]
pub struct FirstLine<R> {
    /// `Bytes` is the line, with its LF if it has one; `NotReady` says that the raw would have blocked.
    pub reply: Reply,
    /// The raw stream, after the bytes that were read from it: the session may have read more than the line.
    pub raw: R,
}

/// Reads the first line of what a raw stream has left, through a buffer of 8192 bytes. `run_planned` says why an opening is
/// refused.
pub fn first_line<R: RawStream>(alloc: Global, raw: R) -> Result<FirstLine<R>, OpenRefused<R>>
    requires start { StandsAtStart (R.shows raw) }
    ensures { LineOutcome R.shows raw result }
{
    a_run_answers_each_call();
    let calls = [Call::ReadLine(None)];
    let plan = OpenPlan {
        mode: Mode {
            file: FileMode::Read,
            encode: EncodeMode::Bytes,
            plus: false,
        },
        kind: PlanKind::Buffered(DEFAULT_BUFFER_SIZE),
    };
    match run_planned(alloc, raw, plan, &calls) {
        Ok(run) => {
            let Run { session, replies } = run;
            let mut replies = replies;
            let reply = replies.pop().unwrap();
            let Detached {
                raw,
                unwritten: _,
                place: _,
            } = session.finish();
            Ok(FirstLine { reply, raw })
        }
        Err(refused) => Err(refused),
    }
}
