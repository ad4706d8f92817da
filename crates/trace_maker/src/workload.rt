//! The plan of a workload.

ghost use Rattle.std.specs.Prelude.{◌≡◌, length, IfOk};
ghost use Rattle.trace_maker.specs.Plan.{plan_of};

use crate::operation::Operation;
use crate::planner::Planner;
use std::alloc::Global;
use verdict::NoMemory;

/// The operations of so many commits, by a seed. It is asked for 1 to 200 commits, and answers any number.
pub fn plan(alloc: Global, seed: u64, commits: u32) -> Result<Vec<Operation>, NoMemory>
    ensures plan { IfOk result (λ ops. ops.items ≡ plan_of seed commits) }
    ensures count { IfOk result (λ ops. length ops.items ≡ commits) }
{
    let mut planner = Planner::new(alloc, seed)?;
    let mut ops = Vec::new(alloc);
    for before in 0..commits {
        ops.push(planner.commit(before + 1)?)?;
    }
    Ok(ops)
}
