//! Runs: a session that is opened, and a list of calls that are made on it in order.
ghost use Rattle.std.specs.Prelude.{IsTrue, IfOk};
ghost use Rattle.py_raw.specs.RawStream.{tells};
ghost use Rattle.py_stream.specs.Opening.{StandsAtStart};
ghost use Rattle.py_calls.specs.Plan.{IsPlanned};
ghost use Rattle.py_open.specs.Laws.{IsReached};
ghost use Rattle.py_open.specs.Run.{OpenedOutcome, RunOutcome};

use crate::session::raw_refusal;
use crate::{Call, OpenArgs, OpenPlan, OpenRefused, Reply, Session, plan_open};
use py_flat::IoFault;
use py_raw::RawStream;
use py_registry::{CodecsRegistry, SearchFunction};
use py_stream::NewRefused;
use std::alloc::Global;

/// A session after a list of calls, and their replies in order.
#[derive(Debug, Drop)]
pub struct Run<R: RawStream> {
    /// The session, as the last call left it.
    pub session: Session<R>,
    /// One reply for each call.
    pub replies: Vec<Reply>,
}

/// Opens a session over a raw by a mode and arguments, and makes calls in order: through a buffer of the size that the
/// plan gives, or without one, and of a text with the settings of the plan, and the codec and the handler that the registry has under its
/// names.
///
/// The replies are a run of the model from the opening's flat file to the session's own: for every raw, told or not,
/// each has its cause; where the raw tells, each is the model's, whatever pieces the raw moves and whatever the sizes of
/// buffer and chunks are. There each session of the run is reached from the opening: so a seek by a cookie that a text told, in this run or in
/// another over the same bytes, answers that cookie, and what was left then is left again, if the text is live, can be moved and read, doesn't
/// append, has the encoding, handler and newline rule that the other had, and the seek neither waits nor fails, and has memory
/// (`a_text_goes_back_to_where_it_told`, `cookies_bring_back`).
///
/// Refused, the raw is handed back with nothing read or written: by the plan (`plan_open`), which leaves the registry as it was; then as
/// `run_planned` says, with the registry as the plan left it.
pub fn run_session<R: RawStream, S: SearchFunction, H: Copy>(
    alloc: Global,
    raw: R,
    registry: &mut CodecsRegistry<S, H>,
    mode: &str,
    args: OpenArgs,
    calls: &[Call],
) -> Result<Run<R>, OpenRefused<R>>
    requires { StandsAtStart (R.shows raw) }
    ensures outcome { RunOutcome S.finds registry.old R.shows raw mode.now args calls.now result registry.new }
    ensures reached { IfOk result (λ run. IsTrue (tells (R.shows raw)) → IsReached run.session) }
{
    match plan_open(registry, alloc, mode, &args) {
        Ok(plan) => run_planned(alloc, raw, plan, calls),
        Err(fault) => Err(OpenRefused { raw, fault }),
    }
}

/// Opens a session over a raw by a plan that `plan_open` accepted, and makes calls in order; `run_session` says what the replies are.
///
/// Refused, the raw is handed back with nothing read or written: `Closed`, then `Unsupported` where it can't do what the mode needs (a
/// mode with a plus moves it, through a buffer), `NoMemory`, and `RawFault` where it fails to say where it stands or ends, or to move there.
/// Space for the replies is taken once the raw is known to be open and able, before it is asked for anything: where there is
/// none it is `NoMemory` too, with the raw as it was. But for `RawFault` a raw that tells still stands where it stood.
pub fn run_planned<R: RawStream>(
    alloc: Global,
    raw: R,
    plan: OpenPlan,
    calls: &[Call],
) -> Result<Run<R>, OpenRefused<R>>
    requires planned { IsPlanned plan }
    requires start { StandsAtStart (R.shows raw) }
    ensures outcome { OpenedOutcome R.shows raw plan calls.now result }
    ensures reached { IfOk result (λ run. IsTrue (tells (R.shows raw)) → IsReached run.session) }
{
    if let Some(fault) = raw_refusal(&raw, plan) {
        return Err(OpenRefused { raw, fault });
    }
    let mut replies = Vec::new(alloc);
    if replies.reserve(calls.len()).is_err() {
        return Err(OpenRefused {
            raw,
            fault: IoFault::NoMemory,
        });
    }
    let mut session = match Session::open(alloc, raw, plan) {
        Ok(session) => session,
        Err(refused) => {
            let NewRefused { raw, fault } = refused;
            return Err(OpenRefused { raw, fault });
        }
    };
    for call in calls {
        let reply = session.call(alloc, call);
        replies.push(reply).unwrap();
    }
    Ok(Run { session, replies })
}
