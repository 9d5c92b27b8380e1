//! Sets of variables, with a truth for each variable.
ghost use Rattle.std.specs.Prelude.{◌≡◌, false, IfOk, replicate, slice_index_or, slice_set};
ghost use Rattle.reg_alloc.specs.Marks.{either};

use rup_base::NoMemory;
use std::alloc::Global;

/// The set of none of so many variables.
pub fn empty(alloc: Global, vars: usize) -> Result<Vec<bool>, NoMemory>
    ensures { IfOk result (λ set. set.items ≡ replicate vars false) }
{
    let mut set = Vec::new(alloc);
    for _ in 0..vars {
        set.push(false)?;
    }
    Ok(set)
}

/// Puts a variable into the set, or takes it out.
pub fn mark(set: &mut Vec<bool>, x: u32, live: bool)
    ensures { set.new.items ≡ slice_set set.old.items x live }
{
    let x = x as usize;
    if x < set.len() {
        set[x] = live;
    }
}

/// Whether a variable is in the set.
pub fn holds(set: &[bool], v: usize) -> bool
    ensures { result ≡ slice_index_or set.now v false }
{
    if v < set.len() { set[v] } else { false }
}

pub fn copy(alloc: Global, set: &[bool]) -> Result<Vec<bool>, NoMemory>
    ensures { IfOk result (λ all. all.items ≡ set.now) }
{
    let mut all = Vec::new(alloc);
    for live in set {
        all.push(*live)?;
    }
    Ok(all)
}

/// What is in the one or the other.
#[tactic(auto, using(crate::proofs::Sets::either_step, crate::proofs::Sets::either_done))]
pub fn union(alloc: Global, set: &[bool], other: &[bool]) -> Result<Vec<bool>, NoMemory>
    ensures { IfOk result (λ all. all.items ≡ either set.now other.now) }
{
    let mut all = Vec::new(alloc);
    for v in 0..set.len() {
        all.push(holds(set, v) | holds(other, v))?;
    }
    Ok(all)
}
