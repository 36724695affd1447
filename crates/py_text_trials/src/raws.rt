//! Raw streams in memory.
ghost use Rattle.std.specs.Prelude.{IfOk};
ghost use Rattle.py_raw_memory.specs.MemRaw.{shown as raw_shown};
ghost use Rattle.py_stream.specs.Opening.{StandsAtStart};

use py_raw::RawFlags;
use py_raw_memory::{Cut, MemRaw};
use std::alloc::{AllocError, Global};

/// A raw over some bytes, at its start, which moves by a plan, and of whose calls those with these numbers fail.
pub fn raw_of(
    alloc: Global,
    bytes: &[u8],
    flags: RawFlags,
    plan: Vec<Cut>,
    faults: Vec<u64>,
) -> Result<MemRaw, AllocError>
    ensures { IfOk result (λ raw. StandsAtStart (raw_shown raw)) }
{
    Ok(MemRaw::new(bytes.to_vec(alloc)?, flags, plan, faults))
}

/// The list of the one call that fails, by its number; empty where none does.
pub fn failing(alloc: Global, call: Option<u64>) -> Result<Vec<u64>, AllocError> {
    let mut faults = Vec::new(alloc);
    if let Some(call) = call {
        faults.push(call)?;
    }
    Ok(faults)
}

/// The plan of `count` transfers of at most `step` bytes, with one more before the one of a number, where there is one.
pub fn steps(
    alloc: Global,
    count: usize,
    step: u32,
    at: Option<usize>,
    cut: Cut,
) -> Result<Vec<Cut>, AllocError> {
    let mut plan = Vec::new(alloc);
    for transfer in 0..count {
        if at == Some(transfer) {
            plan.push(cut)?;
        }
        plan.push(Cut::Take(step))?;
    }
    Ok(plan)
}
