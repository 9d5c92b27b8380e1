//! The choice of places.
ghost use Rattle.std.specs.Prelude.{◌≤◌, IfOk};
ghost use Rattle.reg_alloc.specs.PlanOk.{PlanOk};
ghost use Rattle.reg_alloc.specs.Registers.{HasNoSlot};

use crate::checking::check_plan;
use crate::places::own_plan;
use crate::plan::Plan;
use crate::sharing::shared_plan;
use flat_lang::Flat;
use rup_base::NoMemory;
use std::alloc::Global;

/// A plan that serves the code, and has no slot where the code has at most 16 variables.
///
/// Variables that are never needed at once share a place. Registers that need not be kept for the caller are taken first,
/// and slots only for what is used least, where more variables are needed at once than there are registers. Where the
/// check of plans doesn't accept the choice, each variable has a place of its own.
pub fn allocate(alloc: Global, f: &Flat) -> Result<Plan, NoMemory>
    ensures serves { IfOk result (λ plan. PlanOk f.now plan) }
    ensures registers { IfOk result (λ plan. f.now.vars ≤ 16 → HasNoSlot plan) }
{
    let plan = shared_plan(alloc, f)?;
    if check_plan(alloc, f, &plan)? {
        return Ok(plan);
    }
    own_plan(alloc, f)
}
