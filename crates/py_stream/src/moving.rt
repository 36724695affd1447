//! What lives refuse, and where a seek goes, or lines end.
ghost use Rattle.std.specs.Prelude.{◌≡◌, ◌+◌, ◌≤◌, length};
ghost use Rattle.py_flat.specs.Limits.{greatest_place};
ghost use Rattle.py_flat.specs.Refusals.{life_fault as fault_of_life};
ghost use Rattle.py_flat.specs.Lines.{joined};
ghost use Rattle.py_stream.specs.Moving.{MovedBy, EndsWithin};

use py_raw::{GREATEST_PLACE, IoFault, Life, Lines};

/// What a life answers to a call that it doesn't let through; `None` of a live stream.
pub fn life_fault(life: Life) -> Option<IoFault>
    ensures { result ≡ fault_of_life life }
{
    match life {
        Life::Live => None,
        Life::Failed => Some(IoFault::Failed),
        Life::Closed => Some(IoFault::Closed),
        Life::Detached => Some(IoFault::Detached),
    }
}

/// The place that lies `offset` bytes from another: `NegativeSeek` below 0, `TooFar` past 9223372036854775807.
pub fn moved_by(base: u64, offset: i64) -> Result<u64, IoFault>
    requires { base ≤ greatest_place }
    ensures { MovedBy base offset result }
{
    if offset < 0 {
        match base.checked_sub(offset.unsigned_abs()) {
            Some(target) => Ok(target),
            None => Err(IoFault::NegativeSeek),
        }
    } else {
        let target = base + offset.unsigned_abs();
        if target > GREATEST_PLACE {
            Err(IoFault::TooFar)
        } else {
            Ok(target)
        }
    }
}

/// The place after all lines that are written at a place; `None` where it lies past 9223372036854775807.
pub fn end_of_lines(place: u64, lines: &Lines) -> Option<u64>
    requires { place ≤ greatest_place }
    ensures { EndsWithin (place + length (joined lines.now)) result }
{
    let mut end = place;
    for line in lines.as_slice() {
        let count = line.as_slice().len() as u64;
        if count > GREATEST_PLACE - end {
            return None;
        }
        end += count;
    }
    Some(end)
}
