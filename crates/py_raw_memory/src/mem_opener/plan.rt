ghost use Rattle.std.specs.Prelude.{◌≡◌, IfOk};
ghost use Rattle.py_raw_memory.specs.Plans.{shown_plan, plan_in};

use crate::Cut;
use crate::entries::{Entry, held_at};
use std::alloc::{AllocError, Global};

/// What a stream in memory follows: what each of its transfers comes to, and the numbers of its calls that fail.
#[derive(Debug, Drop)]
pub struct Plan {
    pub(super) cuts: Vec<Cut>,
    pub(super) refused: Vec<u64>,
}

impl Plan {
    /// A copy of the plan.
    fn copy_in(&self, alloc: Global) -> Result<Plan, AllocError>
        ensures { IfOk result (λ copy. shown_plan copy ≡ shown_plan self.now) }
    {
        let cuts = Vec::from_slice(alloc, self.cuts.as_slice())?;
        let refused = Vec::from_slice(alloc, self.refused.as_slice())?;
        Ok(Plan { cuts, refused })
    }
}

/// A copy of the plan of a path, or an empty one where it has none.
pub(super) fn plan_of(plans: &[Entry<Plan>], alloc: Global, path: &str) -> Result<Plan, AllocError>
    ensures { IfOk result (λ plan. shown_plan plan ≡ plan_in plans.now path.now) }
{
    match held_at(plans, path) {
        Some(plan) => plan.copy_in(alloc),
        None => Ok(Plan {
            cuts: Vec::new(alloc),
            refused: Vec::new(alloc),
        }),
    }
}
