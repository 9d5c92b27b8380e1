//! What is kept of the statements in a walk from the end of a code to its start.
ghost use Rattle.std.specs.Prelude.{◌≡◌, false, not, ◌&&◌, ◌||◌, nat_eq, slice_index_or, OnOk, IfOk};
ghost use Rattle.reg_alloc.specs.Marks.{listed, alone, alone_from};
ghost use Rattle.reg_alloc.specs.Visit.{met, seen};

use crate::marks::{holds, union};
use rup_base::{List, NoMemory};
use std::alloc::Global;
use std::mem;

#[derive(Drop)]
pub enum Watch {
    /// The numbers of the variables' places, and whether no statement wrote over another live variable.
    Places(List<u64>, bool),
    /// The number of variables, and for each statement, the last first, those that are live after it.
    Lists(u32, List<List<u32>>),
    /// For each variable the set of those that are live after a statement that writes it.
    Conflicts(List<List<bool>>),
}

/// The variables in the set.
#[tactic(auto, using(crate::proofs::Sets::below_next))]
pub fn numbers_in(alloc: Global, vars: u32, set: &[bool]) -> Result<List<u32>, NoMemory>
    ensures { IfOk result (λ numbers. numbers ≡ listed vars set.now) }
{
    let mut numbers = List::new(alloc);
    for v in 0..vars {
        if holds(set, v as usize) {
            numbers.push(v)?;
        }
    }
    Ok(numbers)
}

fn place_of(places: &[u64], x: usize) -> u64
    ensures { result ≡ slice_index_or places.now x 0 }
{
    if x < places.len() { places[x] } else { 0 }
}

/// Whether `v` is not in the set, or has another place, or is `x`.
fn is_free(places: &[u64], place: u64, x: usize, set: &[bool], v: usize) -> bool
    ensures { result ≡ (not (slice_index_or set.now v false && nat_eq (slice_index_or places.now v 0) place) || nat_eq v x) }
{
    !(holds(set, v) && place_of(places, v) == place) || v == x
}

/// Whether no variable in the set but `x` has the place of `x`.
pub fn is_alone(places: &[u64], x: u32, set: &[bool]) -> bool
    ensures { result ≡ alone places.now x set.now }
{
    let x = x as usize;
    shares_none(places, place_of(places, x), x, set)
}

#[tactic(auto, using(crate::proofs::Sets::alone_step, crate::proofs::Sets::alone_done))]
fn shares_none(places: &[u64], place: u64, x: usize, set: &[bool]) -> bool
    ensures { result ≡ alone_from place x 0 places.now set.now }
{
    for v in 0..places.len() {
        if !is_free(places, place, x, set, v) {
            return false;
        }
    }
    true
}

/// Puts what is live after a statement that writes `x` into the set of `x`.
fn meet(
    alloc: Global,
    conflicts: List<List<bool>>,
    x: u32,
    set: &[bool],
) -> Result<List<List<bool>>, NoMemory>
    ensures { IfOk result (λ all. all ≡ met conflicts x set.now) }
{
    let x = x as usize;
    let mut conflicts = conflicts.into_vec();
    if x < conflicts.len() {
        let all = union(alloc, conflicts[x].as_slice(), set)?;
        conflicts[x] = List::from_vec(all);
    }
    Ok(List::from_vec(conflicts))
}

/// A statement is kept, by what it writes and what is live after it.
pub fn see(
    alloc: Global,
    writes: Option<u32>,
    set: &[bool],
    watch: &mut Watch,
) -> Result<(), NoMemory>
    ensures { OnOk result (watch.new ≡ seen writes set.now watch.old) }
{
    match watch {
        Watch::Places(places, fit) => {
            if let Some(x) = writes {
                *fit = *fit && is_alone(places.as_slice(), x, set);
            }
        }
        Watch::Lists(vars, lists) => lists.push(numbers_in(alloc, *vars, set)?)?,
        Watch::Conflicts(conflicts) => {
            if let Some(x) = writes {
                let before = mem::replace(conflicts, List::new(alloc));
                *conflicts = meet(alloc, before, x, set)?;
            }
        }
    }
    Ok(())
}
