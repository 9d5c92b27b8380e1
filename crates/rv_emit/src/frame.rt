//! What stands around the code of the body: the frame, the registers that it keeps, the arguments and the results.
ghost use Rattle.std.specs.Prelude.{◌≡◌, [], ◌∷◌, ◌++◌, ◌+◌, ◌-◌, ◌*◌, ◌<◌, ◌≤◌, All, OnOk, IfOk, length};
ghost use Rattle.rv_emit.specs.Code as spec;
ghost use Rattle.rv_emit.specs.Emission.{IsNear, IsPlan, Puts};
ghost use Rattle.rv_emit.specs.Whole as whole;

use crate::instructions::{fetch, put, save};
use crate::statements::place;
use reg_alloc::{At, Plan};
use rup_base::{List, NoMemory};
use rv_code::{Instr, Reg};
use std::alloc::Global;

/// The words of the frame that hold variables.
pub fn slots_in(plan: &Plan) -> u32
    requires { IsPlan plan.now }
    ensures slots { result ≡ whole.slots_in plan.now.places }
    ensures few { result ≤ 512 }
{
    let mut slots = 0;
    let mut x = plan.places.len();
    while x > 0 {
        x -= 1;
        slots = slots_with(place(plan, x as u32), slots);
    }
    slots
}

fn slots_with(at: At, slots: u32) -> u32
    requires near { IsNear at }
    requires few { slots ≤ 512 }
    ensures slots { result ≡ whole.slots_with at slots }
    ensures few { result ≤ 512 }
{
    match at {
        At::Reg(_) => slots,
        At::Slot(j) => { if j < slots { slots } else { j + 1 } }
    }
}

fn is_register(at: At, r: u32) -> bool
    ensures { result ≡ whole.is_register at r }
{
    match at {
        At::Reg(q) => u32::from(q) == r,
        At::Slot(_) => false,
    }
}

fn uses(places: &[At], r: u32) -> bool
    ensures { result ≡ whole.uses places.now r }
{
    let mut left = places;
    'places: while let [first, rest @ ..] = left {
        if is_register(*first, r) {
            return true;
        }
        left = rest;
    }
    false
}

/// The registers that the caller finds unchanged and that hold variables.
pub fn saved_in(alloc: Global, places: &[At]) -> Result<List<u32>, NoMemory>
    ensures saved { IfOk result (λ saved. saved ≡ whole.saved_in places.now) }
    ensures few { IfOk result (λ saved. length saved ≤ 12) }
{
    let registers = [8, 9, 18, 19, 20, 21, 22, 23, 24, 25, 26, 27];
    let mut saved = List::new(alloc);
    let mut left = registers.as_slice();
    'registers: while let [first, rest @ ..] = left {
        if uses(places, *first) {
            saved.push(*first)?;
        }
        left = rest;
    }
    Ok(saved)
}

/// Registers go into the words of the frame from a first one on.
pub fn keep(first: u32, saved: &[u32], code: &mut Vec<Instr>) -> Result<(), NoMemory>
    requires registers { All (λ r. r < 32) saved.now }
    requires near { first + length saved.now ≤ 512 }
    ensures counted { OnOk result (length code.new.items ≡ length code.old.items + length saved.now) }
    ensures words { OnOk result (Puts code.old.items code.new.items (whole.saves first saved.now)) }
{
    let mut i = saved.len();
    while i > 0 {
        i -= 1;
        put(
            code,
            save(Reg::from_bits(saved[i]), At::Slot(first + i as u32)),
        )?;
    }
    Ok(())
}

/// They come back.
pub fn bring_back(first: u32, saved: &[u32], code: &mut Vec<Instr>) -> Result<(), NoMemory>
    requires registers { All (λ r. r < 32) saved.now }
    requires near { first + length saved.now ≤ 512 }
    ensures counted { OnOk result (length code.new.items ≡ length code.old.items + length saved.now) }
    ensures words { OnOk result (Puts code.old.items code.new.items (whole.restores first saved.now)) }
{
    let mut i = saved.len();
    while i > 0 {
        i -= 1;
        put(
            code,
            fetch(Reg::from_bits(saved[i]), At::Slot(first + i as u32)),
        )?;
    }
    Ok(())
}

/// Arguments go into their places.
pub fn move_in(plan: &Plan, live: &[u32], code: &mut Vec<Instr>) -> Result<(), NoMemory>
    requires plan { IsPlan plan.now }
    requires few { All (λ x. x < 8) live.now }
    requires known { All (λ x. x < length plan.now.places) live.now }
    ensures counted { OnOk result (length code.new.items ≡ length code.old.items + length live.now) }
    ensures words { OnOk result (Puts code.old.items code.new.items (whole.moves_in (whole.place plan.now) live.now)) }
{
    let mut i = live.len();
    while i > 0 {
        i -= 1;
        let x = live[i];
        put(code, save(Reg::from_bits(10 + x), place(plan, x)))?;
    }
    Ok(())
}

/// The results go from their places into a0 and a1.
pub fn move_out(plan: &Plan, rets: &[u32], code: &mut Vec<Instr>) -> Result<(), NoMemory>
    requires plan { IsPlan plan.now }
    requires few { length rets.now ≤ 2 }
    requires known { All (λ x. x < length plan.now.places) rets.now }
    ensures counted { OnOk result (length code.new.items ≡ length code.old.items + length rets.now) }
    ensures words { OnOk result (Puts code.old.items code.new.items (whole.moves_out (whole.place plan.now) 0 rets.now)) }
{
    let mut i = rets.len();
    while i > 0 {
        i -= 1;
        put(
            code,
            fetch(Reg::from_bits(10 + i as u32), place(plan, rets[i])),
        )?;
    }
    Ok(())
}
