//! The places in the order in which they are taken, and the plan in which each variable has one of its own.
ghost use Rattle.std.specs.Prelude.{◌≡◌, IfOk};
ghost use Rattle.reg_alloc.specs.Registers.{own_place, own_places};

use crate::plan::{At, Plan};
use flat_lang::Flat;
use rup_base::{List, NoMemory};
use std::alloc::Global;

#[tactic(auto, using(crate::proofs::Own::own_next))]
pub fn own_plan(alloc: Global, f: &Flat) -> Result<Plan, NoMemory>
    ensures { IfOk result (λ plan. plan.places ≡ own_places f.now.vars) }
{
    let mut places = List::new(alloc);
    for x in 0..f.vars {
        places.push(own_place_of(x))?;
    }
    Ok(Plan { places })
}

/// The place of a number: t3 to t6, s2 to s11, s0 and s1, and then the slots.
pub fn own_place_of(x: u32) -> At
    ensures { result ≡ own_place x }
{
    if x < 4 {
        At::Reg(28 + x as u8)
    } else if x < 14 {
        At::Reg(14 + x as u8)
    } else if x < 16 {
        At::Reg(x as u8 - 6)
    } else {
        At::Slot(x - 16)
    }
}
