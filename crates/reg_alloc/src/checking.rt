//! Liveness, and whether a plan serves a code.
ghost use Rattle.std.specs.Prelude.{◌≡◌, ◌≤◌, ◌↔◌, ℕ, suc, true, map, reverse, IfOk};
ghost use Rattle.flat_lang.specs.Paths.{flat_ways};
ghost use Rattle.rup_base.specs.Gather.{all_true};
ghost use Rattle.reg_alloc.specs.Check.{marked, at_end, at_start, front_from, arguments_fit, fits_to_start, code_fits, lists_of};
ghost use Rattle.reg_alloc.specs.Check.{live_lists, plan_fits};
ghost use Rattle.reg_alloc.specs.Kept.{number};
ghost use Rattle.reg_alloc.specs.Liveness.{IsLiveness, read_first};
ghost use Rattle.reg_alloc.specs.Marks.{listed};
ghost use Rattle.reg_alloc.specs.PlanOk.{PlanOk, is_place};

use crate::marks::{empty, holds, mark};
use crate::plan::{At, Live, Plan};
use crate::visit::{back_all, walk_all};
use crate::watch::{Watch, is_alone, numbers_in, see};
use flat_lang::Flat;
use rup_base::{List, NoMemory};
use std::alloc::Global;

/// What is live at the end.
pub fn live_at_end(alloc: Global, f: &Flat) -> Result<Vec<bool>, NoMemory>
    ensures { IfOk result (λ set. set.items ≡ at_end f.now) }
{
    let mut set = empty(alloc, f.vars as usize)?;
    mark_all(&mut set, f.rets.as_slice());
    Ok(set)
}

fn mark_all(set: &mut Vec<bool>, rets: &[u32])
    ensures { set.new.items ≡ marked rets.now set.old.items }
{
    let mut i = rets.len();
    while i > 0 {
        i -= 1;
        mark(set, rets[i], true);
    }
}

/// The variables that are live at the start, and then, for each statement in preorder (that of a loop's test before that of
/// its body), those that are live after it.
#[tactic(auto)]
pub fn live(alloc: Global, f: &Flat) -> Result<Live, NoMemory>
    ensures { IfOk result (λ lists. IsLiveness f.now lists) }
{
    walked_lists(alloc, f)
}

fn walked_lists(alloc: Global, f: &Flat) -> Result<Live, NoMemory>
    ensures { IfOk result (λ lists. lists ≡ live_lists f.now) }
{
    let mut set = live_at_end(alloc, f)?;
    let mut watch = Watch::Lists(f.vars, List::new(alloc));
    walk_all(alloc, f.body.as_slice(), &mut set, &mut watch)?;
    see(alloc, None, set.as_slice(), &mut watch)?;
    Ok(from_start(alloc, watch))
}

fn from_start(alloc: Global, watch: Watch) -> List<List<u32>>
    ensures { result ≡ reverse (lists_of watch) }
{
    match watch {
        Watch::Places(_, _) | Watch::Conflicts(_) => List::new(alloc),
        Watch::Lists(_, lists) => {
            let mut lists = lists.into_vec();
            lists.reverse();
            List::from_vec(lists)
        }
    }
}

/// The arguments that are live at the start, in their order: those that some path reads before it writes them.
#[tactic(auto)]
pub fn live_arguments(alloc: Global, f: &Flat) -> Result<List<u32>, NoMemory>
    requires { f.now.args ≤ f.now.vars }
    ensures { IfOk result (λ live. (n : ℕ) → live ≡ read_first f.now.args (flat_ways (suc n) f.now)) }
{
    marked_arguments(alloc, f)
}

fn marked_arguments(alloc: Global, f: &Flat) -> Result<List<u32>, NoMemory>
    ensures { IfOk result (λ live. live ≡ listed f.now.args (at_start f.now)) }
{
    let mut set = live_at_end(alloc, f)?;
    back_all(alloc, f.body.as_slice(), &mut set)?;
    numbers_in(alloc, f.args, set.as_slice())
}

/// Whether a plan serves a code: each variable has one place, and none is written over while it is needed.
#[tactic(auto)]
pub fn check_plan(alloc: Global, f: &Flat, p: &Plan) -> Result<bool, NoMemory>
    ensures { IfOk result (λ fits. (fits ≡ true) ↔ PlanOk f.now p.now) }
{
    is_fitting(alloc, f, p)
}

fn is_fitting(alloc: Global, f: &Flat, p: &Plan) -> Result<bool, NoMemory>
    ensures { IfOk result (λ fits. fits ≡ plan_fits f.now p.now) }
{
    if p.places.len() != f.vars as usize || !are_places(f.vars, p.places.as_slice()) {
        return Ok(false);
    }
    let places = numbers(alloc, p.places.as_slice())?;
    fits_code(alloc, f, places)
}

fn fits_code(alloc: Global, f: &Flat, places: List<u64>) -> Result<bool, NoMemory>
    ensures { IfOk result (λ fits. fits ≡ code_fits f.now places) }
{
    let mut set = live_at_end(alloc, f)?;
    let mut watch = Watch::Places(places, true);
    walk_all(alloc, f.body.as_slice(), &mut set, &mut watch)?;
    fits_at_start(alloc, f.args, set.as_slice(), &watch)
}

fn fits_at_start(alloc: Global, args: u32, set: &[bool], watch: &Watch) -> Result<bool, NoMemory>
    ensures { IfOk result (λ fits. fits ≡ fits_to_start args set.now watch.now) }
{
    match watch {
        Watch::Places(places, fit) => {
            let front = front(alloc, args, set)?;
            Ok(*fit & are_apart(args, places.as_slice(), front.as_slice()))
        }
        Watch::Lists(_, _) | Watch::Conflicts(_) => Ok(false),
    }
}

/// The variables of the set that are below a number.
pub fn front(alloc: Global, args: u32, set: &[bool]) -> Result<Vec<bool>, NoMemory>
    ensures { IfOk result (λ front. front.items ≡ front_from args 0 set.now) }
{
    let mut front = Vec::new(alloc);
    let mut v = 0;
    for live in set {
        front.push((v < args as usize) & *live)?;
        v += 1;
    }
    Ok(front)
}

#[tactic(auto, using(crate::proofs::Sets::all_below_next))]
fn are_apart(args: u32, places: &[u64], set: &[bool]) -> bool
    ensures { result ≡ arguments_fit args places.now set.now }
{
    let mut apart = true;
    for u in 0..args {
        apart = apart & (!holds(set, u as usize) | is_alone(places, u, set));
    }
    apart
}

fn are_places(vars: u32, places: &[At]) -> bool
    ensures { result ≡ all_true (map (is_place vars) places.now) }
{
    for at in places {
        if !is_place_of(vars, *at) {
            return false;
        }
    }
    true
}

fn is_place_of(vars: u32, at: At) -> bool
    ensures { result ≡ is_place vars at }
{
    match at {
        At::Reg(r) => r == 8 || r == 9 || (18 <= r && r <= 31),
        At::Slot(n) => n < vars,
    }
}

/// The numbers of places: a register's own, and the slots' from 32 on.
fn numbers(alloc: Global, places: &[At]) -> Result<List<u64>, NoMemory>
    ensures { IfOk result (λ numbers. numbers ≡ map number places.now) }
{
    let mut numbers = List::new(alloc);
    for at in places {
        numbers.push(number_of(*at))?;
    }
    Ok(numbers)
}

fn number_of(at: At) -> u64
    ensures { result ≡ number at }
{
    match at {
        At::Reg(r) => r as u64,
        At::Slot(n) => 32 + n as u64,
    }
}
