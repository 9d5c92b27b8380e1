//! A plan in which variables share places: two may have one where neither is written while the other is live. No more is
//! promised of it than where it has no slot: whether it serves the code is for the check of plans to say.
ghost use Rattle.std.specs.Prelude.{◌≡◌, ◌≤◌, map, IfOk};
ghost use Rattle.reg_alloc.specs.Registers.{place_in, HasNoSlot};

use crate::checking::{front, live_at_end};
use crate::marks::{empty, holds, mark};
use crate::places::own_place_of;
use crate::plan::{At, Plan};
use crate::uses::Uses;
use crate::visit::walk_all;
use crate::watch::{Watch, numbers_in, see};
use flat_lang::Flat;
use rup_base::{List, NoMemory};
use std::alloc::Global;

/// How many registers there are for variables.
const REGISTERS: u32 = 16;

/// A plan in which variables have registers where these are enough for all that need places of their own at once. Where they
/// aren't, what is used least has slots.
pub fn shared_plan(alloc: Global, f: &Flat) -> Result<Plan, NoMemory>
    ensures { IfOk result (λ plan. f.now.vars ≤ 16 → HasNoSlot plan) }
{
    let colouring = coloured(alloc, f)?;
    places_of(alloc, f.vars, colouring.colours.as_slice())
}

/// The colours of a code's variables, by order of first sight where the registers are enough for that, and else by use.
fn coloured(alloc: Global, f: &Flat) -> Result<Colouring, NoMemory> {
    let (conflicts, order) = conflicts_of(alloc, f)?;
    let mut uses = Uses::new(alloc, f.vars, order)?;
    uses.count_all(f.body.as_slice(), 1)?;
    uses.count_each(f.rets.as_slice())?;
    let mut colouring = Colouring::new(alloc, f.vars, conflicts)?;
    colouring.colour_in_order(alloc, uses.order.as_slice())?;
    if !colouring.is_in_registers() {
        colouring.clear();
        colouring.colour_by_use(alloc, uses.counts.as_slice())?;
    }
    Ok(colouring)
}

/// For each variable those that are live where it is written, and the variables that are live at the start. The arguments
/// among these are written there.
fn conflicts_of(alloc: Global, f: &Flat) -> Result<(List<List<bool>>, Vec<u32>), NoMemory> {
    let mut set = live_at_end(alloc, f)?;
    let mut watch = Watch::Conflicts(none_of(alloc, f.vars)?);
    walk_all(alloc, f.body.as_slice(), &mut set, &mut watch)?;
    let arguments = front(alloc, f.args, set.as_slice())?;
    let written = numbers_in(alloc, f.args, set.as_slice())?;
    for x in written.as_slice() {
        see(alloc, Some(*x), arguments.as_slice(), &mut watch)?;
    }
    let live = numbers_in(alloc, f.vars, set.as_slice())?;
    Ok((conflicts_in(alloc, watch), live.into_vec()))
}

fn conflicts_in(alloc: Global, watch: Watch) -> List<List<bool>> {
    match watch {
        Watch::Conflicts(conflicts) => conflicts,
        Watch::Places(_, _) | Watch::Lists(_, _) => List::new(alloc),
    }
}

/// For each of so many variables the set of none.
fn none_of(alloc: Global, vars: u32) -> Result<List<List<bool>>, NoMemory> {
    let mut sets = List::new(alloc);
    for _ in 0..vars {
        sets.push(List::from_vec(empty(alloc, vars as usize)?))?;
    }
    Ok(sets)
}

/// The places of colours.
fn places_of(alloc: Global, vars: u32, colours: &[Option<u32>]) -> Result<Plan, NoMemory>
    ensures { IfOk result (λ plan. plan.places ≡ map (place_in vars) colours.now) }
{
    let mut places = List::new(alloc);
    for colour in colours {
        places.push(place_of_colour(vars, *colour))?;
    }
    Ok(Plan { places })
}

/// The place of a colour, of which there are no more than variables. A variable that has none is nowhere needed.
fn place_of_colour(vars: u32, colour: Option<u32>) -> At
    ensures { result ≡ place_in vars colour }
{
    match colour {
        Some(colour) => own_place_of(colour.min(vars.saturating_sub(1))),
        None => own_place_of(0),
    }
}

/// The colours that variables have so far: where one of two is written while the other is live, they differ.
#[derive(Drop)]
struct Colouring {
    vars: u32,
    conflicts: List<List<bool>>,
    colours: Vec<Option<u32>>,
}

impl Colouring {
    fn new(alloc: Global, vars: u32, conflicts: List<List<bool>>) -> Result<Colouring, NoMemory> {
        let mut colours = Vec::new(alloc);
        for _ in 0..vars {
            colours.push(None)?;
        }
        Ok(Colouring {
            vars,
            conflicts,
            colours,
        })
    }

    /// Takes the colours away.
    fn clear(&mut self) {
        for v in 0..self.colours.len() {
            self.colours[v] = None;
        }
    }

    fn colour_of(&self, v: u32) -> Option<u32> {
        self.colours.as_slice().get(v as usize).copied().flatten()
    }

    /// Whether `v` is live where `x` is written.
    fn is_live_at(&self, x: u32, v: u32) -> bool {
        match self.conflicts.as_slice().get(x as usize) {
            Some(set) => holds(set.as_slice(), v as usize),
            None => false,
        }
    }

    /// Gives a variable that has none the least colour that none has with which it conflicts.
    fn colour(&mut self, alloc: Global, x: u32) -> Result<(), NoMemory> {
        if self.colour_of(x).is_some() {
            return Ok(());
        }
        let mut taken = empty(alloc, self.vars as usize)?;
        for v in 0..self.vars {
            if let Some(colour) = self.colour_of(v) {
                if self.is_live_at(x, v) || self.is_live_at(v, x) {
                    mark(&mut taken, colour, true);
                }
            }
        }
        let free = self.least_free(taken.as_slice());
        let x = x as usize;
        if x < self.colours.len() {
            self.colours[x] = Some(free);
        }
        Ok(())
    }

    /// The least colour that isn't in a set.
    fn least_free(&self, taken: &[bool]) -> u32 {
        for colour in 0..self.vars {
            if !holds(taken, colour as usize) {
                return colour;
            }
        }
        self.vars
    }

    fn colour_in_order(&mut self, alloc: Global, order: &[u32]) -> Result<(), NoMemory> {
        for x in order {
            self.colour(alloc, *x)?;
        }
        Ok(())
    }

    /// Colours all variables, those that are used most first.
    fn colour_by_use(&mut self, alloc: Global, counts: &[u64]) -> Result<(), NoMemory> {
        for _ in 0..self.vars {
            if let Some(x) = self.most_used(counts) {
                self.colour(alloc, x)?;
            }
        }
        Ok(())
    }

    /// Of the variables without a colour the first that is used most.
    fn most_used(&self, counts: &[u64]) -> Option<u32> {
        let mut most = 0;
        let mut found = None;
        for v in 0..self.vars {
            let count = counts.get(v as usize).copied().unwrap_or(0);
            if self.colour_of(v).is_none() && count > most {
                most = count;
                found = Some(v);
            }
        }
        found
    }

    fn is_in_registers(&self) -> bool {
        for colour in self.colours.as_slice() {
            if let Some(colour) = colour {
                if *colour >= REGISTERS {
                    return false;
                }
            }
        }
        true
    }
}
