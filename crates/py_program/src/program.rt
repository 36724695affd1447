//! The program: from its words to the lines that it prints and the status that it ends with.
ghost use Rattle.std.specs.Prelude.{◌≡◌, ◌≢◌, ◌⊎◌, Ok, Err, IfOk, IfErr, MatchResult};
ghost use Rattle.py_raw.specs.Source.{NoSourceFault};
ghost use Rattle.py_raw.specs.Sink.{SinkKeeps, NoSinkFault};
ghost use Rattle.py_raw.specs.Opener.{IsOpened, NoOpenerFault};
ghost use Rattle.py_stream.specs.Opening.{StandsAtStart};
ghost use Rattle.py_flat.specs.declared.fault.IoFault.TheVariants as fault;
ghost use Rattle.py_calls.specs.Plan.{built_in_plan, IsPlanned};
ghost use Rattle.py_program.specs.Outside.{texts};
ghost use Rattle.py_open.specs.Paths.{raw_mode};
ghost use Rattle.py_program.specs.Outcome.{asked_by, asked_in, outside, RawOutcome, PlannedOutcome, LacksPlan, Outcome, Ends, after_done};
ghost use Rattle.py_program.specs.Meaning.{Promises};

use crate::laws::{a_smooth_run_prints_the_exact_replies, a_smooth_run_prints_what_settles};
use crate::printing::{print_refused, print_replies, print_text};
use crate::script::read_script;
use crate::status::Status;
use py_flat::IoFault;
use py_open::{
    Call, OpenArgs, OpenPlan, OpenRefused, Run, a_smooth_run_is_complete,
    an_ended_session_calls_no_raw, an_opened_raw_suits_its_plan, cookies_bring_back, plan_open,
    run_planned, what_is_passed_on_is_in_the_raw,
};
use py_raw::{OpenError, Opener, RawStream, Sink, Source};
use py_registry::{CodecsRegistry, NoHandler, NoSearch};
use py_script::{Command, help_text, parse_words, version_text};
use std::alloc::Global;

/// Runs a script on a file and prints each reply as a line, or prints a text of the program's own.
///
/// `words` are those of the command line without the program's own name. It answers the status that the program ends
/// with (docs/PROGRAM.md); the first stop that applies decides. A raw that was opened is always put away again.
///
/// The opening is planned by a new registry, in which only what is built in has a name: the five encodings, and the seven handlers.
///
/// `ends` says all that was read, opened, printed and put away, by the status. What follows from it `promises` says, field by
/// field of `Promises`:
///
/// - `statuses`: it is 0 or one of 2 to 8;
/// - `malformed_words`, `words`: 2 comes only of malformed words, and such words end with 2 unless memory ran out;
/// - `source`, `sink`, `opener`: 5, 6 and 8 come only where a count of faults rose, of the source, the sink, the opener;
/// - `source_exact`, `sink_exact`, `opener_exact`: a source that counts exactly counted no fault, unless it is 5; such a sink none,
///   unless it is 6; and such an opener none, where it is 0: so 0 hides no fault of the three;
/// - `counts`: no count of the opener falls, neither that of its own faults nor those of its raws' faults and waits;
/// - `once`, `opened`, `none_opened`: at most one raw is opened, and it is taken back again; of a run whose opening the plan accepts exactly
///   one with 0, 4 and 6, and none with 2, 3 and 5, and with 8 of an opener that tells;
/// - `refused`: 4 comes only where the plan refuses the opening, or the raw's count of faults rose, or, of an opener that doesn't tell, where
///   the plan's stream is read and written through a buffer, which moves its raw: one that can't seek is refused as `Unsupported`;
/// - `planned`, `unopened`: an opening that the plan refuses opens nothing, and with a script that the source tells to be
///   well formed it ends with 4 unless the source or the sink failed or memory ran out;
/// - `complete`: of well-formed words, where no count rose and no plan refuses, it is 0, or 3 for a malformed script, or 7 for
///   running out of memory, or 4 for a raw that can't seek, as in `refused`;
/// - `malformed_script`, `script`: of a source that tells, 3 comes only of a malformed script, and such a script of a run ends
///   with 3 unless the source failed or memory ran out;
/// - `missing`, `found`: of an opener that tells, and an opening that the plan accepts, 8 comes only where `x` finds the path or
///   `r` misses it, and such a path, with a script that the source tells to be well formed, ends with 8 unless the source failed or
///   memory ran out;
/// - `kept`: of an opener that tells every path holds what it held with 2, 3, 5 and 8, where the plan refuses, and where the
///   path is only read;
/// - `others`: of an opener that tells, whatever the status is, every path but that of the words holds what it held;
/// - `left`: of an opener that tells, with 4 of an opening that the plan accepts, the path holds what its opening left;
/// - `smooth`: of a well-formed script that the source tells and an opener that tells, where the plan accepts the opening, no count of
///   faults or waits rose and memory never ran out, it is 0, what was printed is the lines of the model's answers to the script's calls and
///   a Close on the file that the mode opens of what the path held, and the path holds the bytes of the file that these come to;
/// - `printed`: with 0, what was printed is the lines of a run of calls, those of the whole script, where the source tells it, and
///   a Close; of an opener that tells, the path holds the raw's bytes in the end, the flat ones where a `Close` or `Detach` of a live
///   session was done; where the raw tells, a text goes back by a cookie to where it told, or to where one of another run over the same bytes
///   did, as `BringsBack` says; where no raw failed or would have blocked, each call that isn't refused is answered by an answer of its own,
///   or for running out of memory;
/// - `help`, `version`: with 0 the text that was asked for was printed.
pub fn run_program<O: Opener, I: Source, K: Sink>(
    alloc: Global,
    words: &[String],
    opener: &mut O,
    script: &mut I,
    out: &mut K,
) -> u8
    ensures ends { Ends result (texts words.now) (I.shows script.old) (I.shows script.new)
        (outside O.shows K.shows opener.old out.old) (outside O.shows K.shows opener.new out.new) }
    ensures promises { Promises result (asked_in words.now) (I.shows script.old) (I.shows script.new)
        (outside O.shows K.shows opener.old out.old) (outside O.shows K.shows opener.new out.new) }
{
    a_smooth_run_prints_what_settles();
    a_smooth_run_prints_the_exact_replies();
    a_smooth_run_is_complete();
    what_is_passed_on_is_in_the_raw();
    cookies_bring_back();
    an_ended_session_calls_no_raw();
    run_to_status(alloc, words, opener, script, out).code()
}

/// Runs the program as `run_program` does, and answers the status itself.
fn run_to_status<O: Opener, I: Source, K: Sink>(
    alloc: Global,
    words: &[String],
    opener: &mut O,
    script: &mut I,
    out: &mut K,
) -> Status
    ensures outcome { Outcome result (texts words.now) (I.shows script.old) (I.shows script.new)
        (outside O.shows K.shows opener.old out.old) (outside O.shows K.shows opener.new out.new) }
    ensures source { result ≢ Status.SourceFailed → NoSourceFault (I.shows script.old) (I.shows script.new) }
    ensures sink { result ≢ Status.SinkFailed → NoSinkFault (K.shows out.old) (K.shows out.new) }
    ensures opener { result ≡ Status.Done → NoOpenerFault (O.shows opener.old) (O.shows opener.new) }
{
    match parse_words(alloc, words) {
        Ok(Some(Command::Run { path, mode, args })) => match read_script(alloc, script) {
            Ok(calls) => run_calls(alloc, path, mode, args, calls, opener, out),
            Err(status) => status,
        },
        Ok(Some(Command::Help)) => status_of(print_text(out, help_text()), Status::Done),
        Ok(Some(Command::Version)) => status_of(print_text(out, version_text()), Status::Done),
        Ok(None) => Status::WordsMalformed,
        Err(_) => Status::NoMemory,
    }
}

/// The plan of a mode and arguments, by a new registry, in which only what is built in has a name; or `NoMemory`.
fn built_in_plan(alloc: Global, mode: &str, args: &OpenArgs) -> Result<OpenPlan, IoFault>
    ensures planned { IfOk result (λ plan. built_in_plan mode.now args.now ≡ Ok plan) }
    ensures may_open { IfOk result (λ plan. IsPlanned plan) }
    ensures refused { IfErr result (λ why. why ≢ fault.NoMemory → built_in_plan mode.now args.now ≡ Err why) }
{
    let mut registry = CodecsRegistry::<NoSearch, NoHandler>::new(alloc)?;
    plan_open(&mut registry, alloc, mode, args)
}

/// Opens the path, makes the calls and a Close, prints the replies, and puts the raw away; or prints why the plan refuses
/// the opening, and opens nothing. Where there is no memory to plan with, nothing is called.
fn run_calls<O: Opener, K: Sink>(
    alloc: Global,
    path: &str,
    mode: &str,
    args: OpenArgs,
    calls: Vec<Call>,
    opener: &mut O,
    out: &mut K,
) -> Status
    ensures sink { SinkKeeps (K.shows out.old) (K.shows out.new) }
    ensures outcome { LacksPlan result (outside O.shows K.shows opener.old out.old) (outside O.shows K.shows opener.new out.new)
        ⊎ PlannedOutcome path.now mode.now args calls.items result
        (outside O.shows K.shows opener.old out.old) (outside O.shows K.shows opener.new out.new) }
    ensures exact { result ≢ Status.SinkFailed → NoSinkFault (K.shows out.old) (K.shows out.new) }
    ensures opener { result ≡ Status.Done → NoOpenerFault (O.shows opener.old) (O.shows opener.new) }
{
    let plan = match built_in_plan(alloc, mode, &args) {
        Ok(plan) => plan,
        Err(IoFault::NoMemory) => return Status::NoMemory,
        Err(fault) => return status_of(print_refused(alloc, out, fault), Status::Refused),
    };
    match opener.open_raw(alloc, path, plan.mode.rawmode()) {
        Ok(raw) => {
            let (status, raw) = run_raw(alloc, raw, plan, calls, out);
            put_away(status, opener.done(path, raw))
        }
        Err(OpenError::Fault) => Status::OpenerFailed,
        Err(OpenError::Memory) => Status::NoMemory,
    }
}

/// The status after a raw was put away: that of the calls, unless all was done and the opener failed.
fn put_away(status: Status, done: Result<(), OpenError>) -> Status
    ensures { result ≡ after_done status done }
{
    match (status, done) {
        (Status::Done, Err(OpenError::Fault)) => Status::OpenerFailed,
        (Status::Done, Err(OpenError::Memory)) => Status::NoMemory,
        (status, _) => status,
    }
}

/// Makes the calls and a Close over a raw, and prints the replies, or why the opening was refused.
fn run_raw<R: RawStream, K: Sink>(
    alloc: Global,
    raw: R,
    plan: OpenPlan,
    calls: Vec<Call>,
    out: &mut K,
) -> (Status, R)
    requires planned { IsPlanned plan }
    requires opened { IsOpened (raw_mode plan) (R.shows raw) }
    requires start { StandsAtStart (R.shows raw) }
    ensures sink { SinkKeeps (K.shows out.old) (K.shows out.new) }
    ensures outcome { RawOutcome (R.shows raw) (asked_by plan calls.items) result.0 (R.shows result.1) (K.shows out.old) (K.shows out.new) }
    ensures exact { result.0 ≢ Status.SinkFailed → NoSinkFault (K.shows out.old) (K.shows out.new) }
{
    an_opened_raw_suits_its_plan();
    let mut calls = calls;
    if calls.push(Call::Close).is_err() {
        return (Status::NoMemory, raw);
    }
    match run_planned(alloc, raw, plan, &calls) {
        Ok(Run { session, replies }) => {
            let status = status_of(print_replies(alloc, out, &replies), Status::Done);
            (status, session.finish().raw)
        }
        Err(OpenRefused { raw, fault }) => match fault {
            IoFault::NoMemory => (Status::NoMemory, raw),
            fault => {
                let status = status_of(print_refused(alloc, out, fault), Status::Refused);
                (status, raw)
            }
        },
    }
}

/// The status of what was printed: that given, or why it couldn't be printed.
fn status_of(printed: Result<(), Status>, whole: Status) -> Status
    ensures { MatchResult printed (λ done. result ≡ whole) (λ status. result ≡ status) }
{
    match printed {
        Ok(()) => whole,
        Err(status) => status,
    }
}
