//! Opening a path: what a mode and arguments set up, over a raw stream that an opener opens for it.
ghost use Rattle.std.specs.Prelude.{◌≡◌, chars, codes, option_map, IsTrue, IfOk, Some};
ghost use Rattle.py_calls.specs.OpenArgs.{default_args};
ghost use Rattle.py_calls.specs.Plan.{IsPlanned};
ghost use Rattle.py_raw.specs.RawStream.{tells};
ghost use Rattle.py_raw.specs.Opener.{OpenKeeps};
ghost use Rattle.py_open.specs.Session.{raw_of};
ghost use Rattle.py_open.specs.Laws.{IsReached};
ghost use Rattle.py_open.specs.Paths.{mode_or_r, PathOutcome, IoOpenOutcome, FailsWhereMissed};

use crate::laws::{an_opened_raw_suits_its_plan, an_opened_session_is_the_file_of_its_path};
use crate::{OpenArgs, OpenFailed, OpenPlan, Session, plan_open};
use py_flat::IoFault;
use py_raw::{OpenError, Opener};
use py_registry::{CodecsRegistry, SearchFunction};
use py_stream::NewRefused;
use std::alloc::Global;

/// Opens a path by an accepted plan, and a session over its raw.
fn open_planned<O: Opener>(
    alloc: Global,
    opener: &mut O,
    path: &str,
    plan: OpenPlan,
) -> Result<Session<O::Raw>, OpenFailed<O::Raw>>
    requires { IsPlanned plan }
    ensures keeps { OpenKeeps (O.shows opener.old) (O.shows opener.new) }
    ensures outcome { PathOutcome O.Raw.shows (O.shows opener.old) path.now plan result (O.shows opener.new) }
    ensures reached { IfOk result (λ session. IsTrue (tells (raw_of session)) → IsReached session) }
{
    an_opened_raw_suits_its_plan();
    an_opened_session_is_the_file_of_its_path();
    let raw = match opener.open_raw(alloc, path, plan.mode.rawmode()) {
        Ok(raw) => raw,
        Err(OpenError::Fault) => return Err(OpenFailed::Opener),
        Err(OpenError::Memory) => {
            return Err(OpenFailed::Refused {
                fault: IoFault::NoMemory,
                raw: None,
            });
        }
    };
    match Session::open(alloc, raw, plan) {
        Ok(session) => Ok(session),
        Err(refused) => {
            let NewRefused { raw, fault } = refused;
            Err(OpenFailed::Refused {
                fault,
                raw: Some(raw),
            })
        }
    }
}

/// Opens a path by a mode and arguments, as Python's `io.open` does, and answers the session over the raw stream that the opener opened for
/// it: a text, or a stream of bytes with a buffer or without. `None` is the mode `r`.
///
/// Only what `plan_open` accepts is opened. The raw is handed back by `Session::finish`, for the opener to take it back (`Opener::done`);
/// after a `Close` nothing is owed, and else what is comes with it as `unwritten`.
///
/// `Refused` without a raw, where the plan refuses it (`plan_open` says why, and in which order), with the registry as it was and no
/// opener called; or where the opener is out of memory. `Opener` where that fails: of one that tells what its paths hold exactly where the
/// plan is accepted and `x` finds the path or `r` misses it, but that planning may run out of memory before, where search functions are
/// asked. `Refused` with the raw that was opened, out of memory, as `RawFault` where
/// it fails to say where it stands or ends, or to move there, and as `Unsupported` where it can't seek and is both read and
/// written through a buffer; that raw is for the opener to take back too, and `?` lets it go. A path that `w` emptied, or that was made,
/// stays so then, and a codec that a search function found is kept, as an accepted plan keeps it.
///
/// A session over a raw that tells is reached, so that `a_text_goes_back_to_where_it_told` speaks of its cookies, and of those that another
/// session over the same bytes told.
pub fn io_open<O: Opener, S: SearchFunction, H: Copy>(
    alloc: Global,
    opener: &mut O,
    path: &str,
    mode: Option<&str>,
    args: &OpenArgs,
    registry: &mut CodecsRegistry<S, H>,
) -> Result<Session<O::Raw>, OpenFailed<O::Raw>>
    ensures keeps { OpenKeeps (O.shows opener.old) (O.shows opener.new) }
    ensures outcome { IoOpenOutcome S.finds registry.old O.Raw.shows (O.shows opener.old) path.now
        (mode_or_r (option_map (λ text. text.now) mode.entry)) args.now result (O.shows opener.new) registry.new }
    ensures missed { IsTrue (O.shows opener.old).tells → FailsWhereMissed S.finds registry.old (O.shows opener.old) path.now
        (mode_or_r (option_map (λ text. text.now) mode.entry)) args.now result }
    ensures reached { IfOk result (λ session. IsTrue (tells (raw_of session)) → IsReached session) }
{
    match plan_open(registry, alloc, mode.unwrap_or("r"), args) {
        Ok(plan) => open_planned(alloc, opener, path, plan),
        Err(fault) => Err(OpenFailed::Refused { fault, raw: None }),
    }
}

/// Opens a path to read its bytes, as Python's `io.open_code` does: by the mode `rb`, with Python's defaults. What it answers is what
/// `io_open` does.
pub fn open_code<O: Opener, S: SearchFunction, H: Copy>(
    alloc: Global,
    opener: &mut O,
    path: &str,
    registry: &mut CodecsRegistry<S, H>,
) -> Result<Session<O::Raw>, OpenFailed<O::Raw>>
    ensures keeps { OpenKeeps (O.shows opener.old) (O.shows opener.new) }
    ensures outcome { IoOpenOutcome S.finds registry.old O.Raw.shows (O.shows opener.old) path.now
        (codes "rb") default_args result (O.shows opener.new) registry.new }
    ensures missed { IsTrue (O.shows opener.old).tells → FailsWhereMissed S.finds registry.old (O.shows opener.old) path.now
        (codes "rb") default_args result }
{
    io_open(
        alloc,
        opener,
        path,
        Some("rb"),
        &OpenArgs::default(),
        registry,
    )
}
