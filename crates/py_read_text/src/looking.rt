//! How far what a text has in hand reaches.
ghost use Rattle.py_read_text.specs.Reading.{Coming, Follows, IsTold, LookOutcome, StopOutcome, IsReady};
ghost use Rattle.std.specs.Prelude.{◌≡◌, true, false, IfOk};
ghost use Rattle.py_held_text.specs.Decodes.{IsDrained, RefusesNext};

use py_flat::IoFault;
use py_held_text::{HeldFront, HeldStop, HeldText, Wanted};
use std::alloc::Global;

/// How far the characters that are known reach.
#[derive(Clone, Copy)]
pub(crate) enum Gathered {
    /// A front of them is the whole answer.
    Enough(HeldFront),
    /// A refused range comes next, and a front of them is the whole answer.
    Before(HeldFront),
    /// A refused range comes next, in byte places, which the answer would pass.
    Refuses { start: u64, end: u64 },
    /// They are all that is left.
    Ends,
    /// The raw would have blocked before there were enough.
    Waits,
}

/// What the known characters come to before a refused range, which releases a held CR; `last` says that nothing comes behind what is in
/// hand.
fn stopped(
    held: &mut HeldText,
    wanted: Wanted,
    last: bool,
    start: u64,
    end: u64,
) -> Result<Gathered, IoFault>
    requires range { RefusesNext last held.old start end }
    requires ended { last ≡ true → held.old.ended ≡ true }
    ensures follows { Follows (Coming last) held.old held.new }
    ensures outcome { StopOutcome last wanted result held.new }
    ensures told { IfOk result IsTold }
{
    held.release()?;
    match held.find_before(wanted) {
        Some(front) => Ok(Gathered::Before(front)),
        None => Ok(Gathered::Refuses { start, end }),
    }
}

/// Looks at what is in hand, whatever comes behind it; `None` where more has to come. It is decoded as far as the answer may want.
pub(crate) fn look(
    held: &mut HeldText,
    alloc: Global,
    wanted: Wanted,
) -> Result<Option<Gathered>, IoFault>
    ensures follows { Follows (Coming false) held.old held.new }
    ensures outcome { LookOutcome held.old wanted result held.new }
{
    if let Some(front) = held.find(wanted) {
        return Ok(Some(Gathered::Enough(front)));
    }
    let mut all = false;
    loop {
        let before = held.undecoded();
        let stop = held.decode(alloc, wanted, all)?;
        if let Some(front) = held.find(wanted) {
            return Ok(Some(Gathered::Enough(front)));
        }
        match stop {
            // Where no item ended in what the answer might want, all is decoded.
            None => all = held.undecoded() == before,
            Some(HeldStop::Drained) => return Ok(None),
            Some(HeldStop::Refused { start, end }) => {
                let stop = stopped(held, wanted, false, start, end)?;
                return Ok(Some(stop));
            }
        }
    }
}

/// Looks at what is in hand, behind which nothing comes.
pub(crate) fn look_at_end(
    held: &mut HeldText,
    alloc: Global,
    wanted: Wanted,
) -> Result<Gathered, IoFault>
    requires drained { IsDrained false held.old }
    ensures follows { Follows (Coming true) held.old held.new }
    ensures outcome { StopOutcome true wanted result held.new }
    ensures ready { IsReady result }
{
    match held.decode_last(alloc)? {
        HeldStop::Drained => {
            held.release()?;
            Ok(Gathered::Ends)
        }
        HeldStop::Refused { start, end } => stopped(held, wanted, true, start, end),
    }
}
