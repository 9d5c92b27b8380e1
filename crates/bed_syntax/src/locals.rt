//! The list of the distinct locals of a command.
ghost use Rattle.std.specs.Prelude.{◌≡◌, ◌+◌, ◌^◌, ◌<◌, ◌≤◌, OnOk, IfOk, length, map, sum};
ghost use Rattle.bed_syntax.specs.Shape.{expr_size, cmd_size, is_known, noted, all_noted, expr_locals, cmd_locals, in_turn};
ghost use Rattle.bed_syntax.specs.Shape.{numbers, locals_of};

use crate::command::Cmd;
use crate::expression::BExpr;
use rup_base::{List, NoMemory};
use std::alloc::Global;

/// The locals of a command, each once: the arguments, which are the first, then the command's own in order of first sight,
/// then the results that are not among them.
pub fn locals_of_cmd(alloc: Global, c: &Cmd, args: u32, rets: &[u32]) -> Result<List<u32>, NoMemory>
    ensures locals { IfOk result (λ locals. locals ≡ locals_of c.now args rets.now) }
    ensures bounded { IfOk result (λ locals. length locals ≤ args + cmd_size c.now + length rets.now) }
{
    let mut locals = arguments(alloc, args)?;
    note_cmd(&mut locals, c)?;
    note_all(&mut locals, rets)?;
    Ok(locals)
}

/// The arguments, which are the first locals.
#[tactic(auto, using(crate::proofs::Numbers::numbers_next))]
fn arguments(alloc: Global, args: u32) -> Result<List<u32>, NoMemory>
    ensures names { IfOk result (λ names. names ≡ numbers args) }
    ensures counted { IfOk result (λ names. length names ≡ args) }
{
    let mut names = List::new(alloc);
    for x in 0..args {
        names.push(x)?;
    }
    Ok(names)
}

fn is_known(names: &[u32], x: u32) -> bool
    ensures { result ≡ is_known names.now x }
{
    for name in names {
        if *name == x {
            return true;
        }
    }
    false
}

/// Puts a local behind the list, unless it is there.
fn note(names: &mut List<u32>, x: u32) -> Result<(), NoMemory>
    ensures noted { OnOk result (names.new ≡ noted x names.old) }
    ensures bounded { OnOk result (length names.new ≤ length names.old + 1) }
{
    if is_known(names.as_slice(), x) {
        return Ok(());
    }
    names.push(x)
}

/// Notes each of the locals.
fn note_all(names: &mut List<u32>, xs: &[u32]) -> Result<(), NoMemory>
    ensures noted { OnOk result (names.new ≡ all_noted xs.now names.old) }
    ensures bounded { OnOk result (length names.new ≤ length names.old + length xs.now) }
{
    for x in xs {
        note(names, *x)?;
    }
    Ok(())
}

/// Notes the locals of an expression.
fn note_expr(names: &mut List<u32>, e: &BExpr) -> Result<(), NoMemory>
    ensures noted { OnOk result (names.new ≡ expr_locals e.now names.old) }
    ensures bounded { OnOk result (length names.new ≤ length names.old + expr_size e.now) }
{
    match e {
        BExpr::Lit(_) => Ok(()),
        BExpr::Var(x) => note(names, *x),
        BExpr::Bin(_, a, b) => {
            note_expr(names, a)?;
            note_expr(names, b)
        }
        BExpr::Load(_, a) => note_expr(names, a),
        BExpr::Table(_, _, i) => note_expr(names, i),
    }
}

/// Notes the locals of a command.
#[cycle(note)]
fn note_cmd(names: &mut List<u32>, c: &Cmd) -> Result<(), NoMemory>
    ensures noted { OnOk result (names.new ≡ cmd_locals c.now names.old) }
    ensures bounded { OnOk result (length names.new ≤ length names.old + cmd_size c.now) }
{
    match c {
        Cmd::Set(x, e) => {
            note_expr(names, e)?;
            note(names, *x)
        }
        Cmd::Store(_, a, e) => {
            note_expr(names, a)?;
            note_expr(names, e)
        }
        Cmd::Cond(e, p, q) => {
            note_expr(names, e)?;
            note_cmd(names, p)?;
            note_cmd(names, q)
        }
        Cmd::Seq(cs) => note_cmds(names, cs.as_slice()),
        Cmd::While(e, p) => {
            note_expr(names, e)?;
            note_cmd(names, p)
        }
    }
}

#[cycle(note)]
fn note_cmds(names: &mut List<u32>, cs: &[Cmd]) -> Result<(), NoMemory>
    ensures noted { OnOk result (names.new ≡ in_turn (map cmd_locals cs.now) names.old) }
    ensures bounded { OnOk result (length names.new ≤ length names.old + sum (map cmd_size cs.now)) }
{
    for c in cs {
        note_cmd(names, c)?;
    }
    Ok(())
}
