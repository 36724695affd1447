ghost use Rattle.std.specs.Prelude.{◌≤◌};
ghost use Rattle.py_flat.specs.Limits.{greatest_place, greatest_count};

mod calls;
mod counts;
mod state;

use crate::Cut;
use py_raw::{RawFlags, Reads};

/// A raw stream in memory, which moves, waits and fails by a plan.
///
/// Its calls are `readinto`, `write`, `seek`, `tell`, `end`, `truncate` and `close`, counted from 0; a call that runs out of memory
/// isn't counted. A call whose number is listed fails and moves nothing, though a `close` closes; so does one that the flags don't
/// allow. Each other transfer, `readinto` or `write`, uses the next element of the plan; past the plan all is moved. A write that
/// breaks off leaves the place.
#[derive(Debug, Drop)]
pub struct MemRaw {
    bytes: Vec<u8>,
    place: u64,
    flags: RawFlags,
    plan: Vec<Cut>,
    refused: Vec<u64>,
    calls: u64,
    transfers: u64,
    written: u64,
    reads: Reads,
    faults: u64,
    waits: u64,
    closed: bool,
    ghost place_fits: { place ≤ greatest_place },
    ghost transfers_fit: { transfers ≤ greatest_count },
    ghost written_fits: { written ≤ greatest_count },
    ghost faults_fit: { faults ≤ greatest_count },
    ghost waits_fit: { waits ≤ greatest_count },
}
