//! The limits on what a derivation derives, and what is measured of its command.
ghost use Rattle.std.specs.Prelude.{◌≡◌, ◌+◌, ◌*◌, ◌≤◌, [], length, map, sum, IfOk};
ghost use Rattle.rup_base.specs.Answers.{Answers};
ghost use Rattle.bed_syntax.specs.Shape.{cmd_size};
ghost use Rattle.sym_heap.specs.Start.{length_registers, registers, registers_of};
ghost use Rattle.deriv_tree.specs.Shape.{IsWhole};
ghost use Rattle.replayer.specs.Ends.{rets_of};
ghost use Rattle.replayer.specs.Replayed as spec;

use crate::bounds::bound;
use crate::checked::Checked;
use crate::ends::rets_of;
use crate::weights::weight_of_cmd;
use bed_syntax::{Cmd, Weights, depth_of_cmd, locals_of_cmd};
use cost_poly::Poly;
use deriv_tree::Derivation;
use model_command::ModelCommand;
use model_syntax::{Len, Model, Param};
use rup_base::{Fail, NoMemory, Refusal};
use std::alloc::Global;
use stmt_rules::StmtOut;
use sym_heap::Ctx;

/// The greatest number of locals and depth together.
const MOST_SLOTS: u32 = 400;

/// The command with its measures, or the first limit that it passes: on locals and depth, on its bound, on the size of its code.
/// `ctx` is the context at the end, and `most` the most bytes of code.
pub fn limited(
    alloc: Global,
    m: &Model,
    ctx: &Ctx,
    out: StmtOut,
    d: &Derivation,
    most: u32,
) -> Result<Checked, Fail>
    requires whole { IsWhole d.now }
    requires few { registers m.now.params ≤ 8 }
    requires rets { length (rets_of ctx.now m.now.rets) ≤ 2 }
    requires small { sum (map cmd_size out.cmds) ≤ 400_000 }
    ensures { Answers result (spec.limited m.now d.now most out ctx.now) }
{
    let nodes = d.size();
    let steps = bound(d, nodes, out.cmds.as_slice(), out.trips.as_slice());
    let mut command = measured(alloc, m, ctx, out)?;
    few_slots(command.locals + command.depth)?;
    command.bound = steps?;
    sized(command.weight, most)?;
    Ok(Checked { command, nodes })
}

/// The command with all its measures but the bound.
fn measured(alloc: Global, m: &Model, ctx: &Ctx, out: StmtOut) -> Result<ModelCommand, NoMemory>
    requires few { registers m.now.params ≤ 8 }
    requires rets { length (rets_of ctx.now m.now.rets) ≤ 2 }
    requires small { sum (map cmd_size out.cmds) ≤ 400_000 }
    ensures measured { IfOk result (λ c. c ≡ spec.measured m.now out ctx.now []) }
    ensures slots { IfOk result (λ c. c.locals + c.depth ≤ 1_000_000) }
    ensures light { IfOk result (λ c. c.weight ≤ 4_000_000) }
{
    let command = whole(out);
    let args = registers(m.params.as_slice());
    let rets = rets_of(alloc, ctx, m.rets.as_slice())?;
    let locals = locals_of_cmd(alloc, &command, args, rets.as_slice())?;
    let depth = depth_of_cmd(&command);
    let weight = weight_of_cmd(&command) + Weights::LARGE.entry;
    Ok(ModelCommand {
        command,
        args,
        rets,
        bound: Poly::zero(),
        weight,
        locals: locals.len() as u32,
        depth,
    })
}

/// The commands one after another.
#[tactic(auto, using(crate::proofs::Fulfilled::whole_size))]
fn whole(out: StmtOut) -> Cmd
    ensures command { result ≡ spec.command_of out }
    ensures size { cmd_size result ≡ 1 + sum (map cmd_size out.cmds) }
{
    Cmd::Seq(out.cmds)
}

fn few_slots(slots: u32) -> Result<(), Fail>
    ensures { Answers result (spec.few_slots slots) }
{
    if slots > MOST_SLOTS {
        return Err(Fail::Refused(Refusal::OverSlots { count: slots }));
    }
    Ok(())
}

/// There are at most as many instructions as the weight, of four bytes each.
fn sized(weight: u32, most: u32) -> Result<(), Fail>
    requires { 4 * weight ≤ 4294967295 }
    ensures { Answers result (spec.sized weight most) }
{
    let bytes = 4 * weight;
    if bytes > most {
        return Err(Fail::Refused(Refusal::OverSize { bytes }));
    }
    Ok(())
}

/// The registers that the arguments take.
fn registers(params: &[Param]) -> u32
    requires { registers params.now ≤ 8 }
    ensures { result ≡ registers params.now }
{
    let mut count = 0;
    for param in params {
        count += registers_of(param);
    }
    count
}

fn registers_of(param: &Param) -> u32
    ensures { result ≡ registers_of param.now }
{
    match param {
        Param::Word(_) | Param::Byte(_) => 1,
        Param::Bytes(_, len) | Param::Words(_, len) => 1 + length_registers(len),
    }
}

fn length_registers(len: &Len) -> u32
    ensures { result ≡ length_registers len.now }
{
    match len {
        Len::Fixed(_) => 0,
        Len::Named(_) => 1,
    }
}
