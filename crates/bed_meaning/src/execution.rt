//! The run of a command.
ghost use Rattle.std.specs.Prelude.{◌≡◌, ◌+◌, ◌*◌, ◌^◌, ◌<◌, ◌≤◌, OnOk, map, sum};
ghost use Rattle.bed_meaning.specs.Fuelled.{in_turn};
ghost use Rattle.bed_syntax.specs.Shape.{expr_size, cmd_size};
ghost use Rattle.bed_syntax.specs.Weight.{IsLawful};
ghost use Rattle.bed_meaning.specs.Outcome.{Came, EndsAs};
ghost use Rattle.bed_meaning.specs.State.{state_of};
ghost use Rattle.bed_meaning.specs.Meaning.{loop_of};
ghost use Rattle.bed_meaning.specs.Meaning as spec;

use crate::access::save;
use crate::evaluation::eval;
use crate::halt::{Halt, Meter, given, take_one};
use crate::locals::Locals;
use bed_syntax::{BExpr, Cmd, Weights};
use rv_memory::Memory;

/// How a command ends. After the last two nothing is said of the memory and the locals.
#[derive(Clone, Copy, Debug, PartialEq, Eq)]
pub enum BEnd {
    Done { ticks: u128 },
    Stuck,
    OutOfFuel,
}

/// Runs a command. Each command and each turn of a loop takes one from the fuel; ticks are counted by
/// `Weights::LARGE`.
pub fn exec(fuel: u64, c: &Cmd, mem: &mut Memory, locals: &mut Locals) -> BEnd
    requires { cmd_size c.now < 2 ^ 32 }
    ensures { EndsAs result mem.new locals.new (spec.exec Weights.LARGE fuel c.now mem.old locals.old) }
{
    let w = Weights::LARGE;
    let mut meter = Meter { fuel, ticks: 0 };
    match run(&w, c, mem, locals, &mut meter) {
        Ok(()) => BEnd::Done { ticks: meter.ticks },
        Err(Halt::Stuck) => BEnd::Stuck,
        Err(Halt::OutOfFuel) => BEnd::OutOfFuel,
    }
}

#[cycle(run)]
fn run(
    w: &Weights,
    c: &Cmd,
    mem: &mut Memory,
    locals: &mut Locals,
    meter: &mut Meter,
) -> Result<(), Halt>
    requires lawful { IsLawful w.now }
    requires small { cmd_size c.now < 2 ^ 32 }
    requires room { meter.old.ticks + meter.old.fuel * 2 ^ 40 + 2 ^ 40 < 2 ^ 128 }
    ensures came { Came result (state_of meter.new mem.new locals.new)
        (spec.run w.now c.now (state_of meter.old mem.old locals.old)) }
    ensures bounded { OnOk result (meter.new.ticks + meter.new.fuel * 2 ^ 40 ≤ meter.old.ticks + meter.old.fuel * 2 ^ 40) }
{
    let limit = meter.fuel;
    take_one(meter)?;
    match c {
        Cmd::Set(x, e) => {
            let value = given(eval(w, e, mem, locals, &mut meter.ticks))?;
            meter.ticks += u128::from(w.set);
            if locals.set(*x, value) {
                Ok(())
            } else {
                Err(Halt::Stuck)
            }
        }
        Cmd::Store(size, a, e) => {
            let at = given(eval(w, a, mem, locals, &mut meter.ticks))?;
            let value = given(eval(w, e, mem, locals, &mut meter.ticks))?;
            meter.ticks += u128::from(w.store);
            if save(mem, *size, at, value) {
                Ok(())
            } else {
                Err(Halt::Stuck)
            }
        }
        Cmd::Cond(e, p, q) => {
            let value = given(eval(w, e, mem, locals, &mut meter.ticks))?;
            meter.ticks += u128::from(w.test);
            if value != 0 {
                run(w, p, mem, locals, meter)
            } else {
                run(w, q, mem, locals, meter)
            }
        }
        Cmd::Seq(cs) => run_all(w, cs.as_slice(), mem, locals, meter),
        Cmd::While(e, p) => run_turns(w, limit, e, p, mem, locals, meter),
    }
}

#[cycle(run)]
fn run_all(
    w: &Weights,
    cs: &[Cmd],
    mem: &mut Memory,
    locals: &mut Locals,
    meter: &mut Meter,
) -> Result<(), Halt>
    requires lawful { IsLawful w.now }
    requires small { sum (map cmd_size cs.now) < 2 ^ 32 }
    requires room { meter.old.ticks + meter.old.fuel * 2 ^ 40 + 2 ^ 40 < 2 ^ 128 }
    ensures came { Came result (state_of meter.new mem.new locals.new)
        (in_turn (map (spec.run w.now) cs.now) (state_of meter.old mem.old locals.old)) }
    ensures bounded { OnOk result (meter.new.ticks + meter.new.fuel * 2 ^ 40 ≤ meter.old.ticks + meter.old.fuel * 2 ^ 40) }
{
    for c in cs {
        run(w, c, mem, locals, meter)?;
    }
    Ok(())
}

// At most `limit` turns of a loop. The last test takes no fuel.
#[cycle(run)]
fn run_turns(
    w: &Weights,
    limit: u64,
    e: &BExpr,
    p: &Cmd,
    mem: &mut Memory,
    locals: &mut Locals,
    meter: &mut Meter,
) -> Result<(), Halt>
    requires lawful { IsLawful w.now }
    requires small { expr_size e.now + cmd_size p.now < 2 ^ 32 }
    requires room { meter.old.ticks + meter.old.fuel * 2 ^ 40 + 2 ^ 40 < 2 ^ 128 }
    ensures came { Came result (state_of meter.new mem.new locals.new)
        (loop_of w.now limit e.now (spec.run w.now p.now) (state_of meter.old mem.old locals.old)) }
    ensures bounded { OnOk result (meter.new.ticks + meter.new.fuel * 2 ^ 40 ≤ meter.old.ticks + meter.old.fuel * 2 ^ 40 + 2 ^ 39) }
{
    for _turn in 0..limit {
        let value = given(eval(w, e, mem, locals, &mut meter.ticks))?;
        meter.ticks += u128::from(w.turn);
        if value == 0 {
            return Ok(());
        }
        take_one(meter)?;
        run(w, p, mem, locals, meter)?;
    }
    Err(Halt::OutOfFuel)
}
