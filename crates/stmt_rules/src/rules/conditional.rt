//! s-if: one of two blocks runs, by the test.
ghost use Rattle.std.specs.Prelude.{◌≡◌, true, [], ◌∷◌, IfOk};
ghost use Rattle.rup_base.specs.Answers.{AnswersWith};
ghost use Rattle.bed_syntax.specs.declared.command.Cmd.{roll-Cmd};
ghost use Rattle.bed_syntax.specs.declared.command.Cmd.TheOpen as cmd;
ghost use Rattle.stmt_rules.specs.Narrow.{all_narrow};
ghost use Rattle.stmt_rules.specs.rules.If as spec;

use crate::nesting::{
    all_added, all_kept, all_renewed, all_shown, are_arrays_alike, forms_at, stand_alike,
    unlisted_kept, unlisted_reserved,
};
use crate::output::{StmtOut, all_forms, one_command};
use bed_syntax::{BExpr, Cmd};
use expr_rules::words::need;
use model_syntax::Le;
use rup_base::{Box, Fail, List, Name, NoMemory};
use side_certs::{Cert, Form};
use std::alloc::Global;
use sym_heap::{Ctx, Mark};

/// A side begins in a context of which this stood.
pub fn begins(
    ctx: &mut Ctx,
    at: u32,
    names: &[Name],
    facts: &[Form],
    before: &Mark,
) -> Result<(), Fail>
    ensures { AnswersWith result ctx.new (spec.begins at names.now facts.now before.now.scalars ctx.old) }
{
    all_added(ctx, at, facts)?;
    unlisted_reserved(ctx, names, before.scalars())?;
    Ok(())
}

/// A side ends, of which this stood before; the context goes back to it. The answer is what stood at the end. `place` is that of
/// the first of the certificates in the node's list.
pub fn ends(
    ctx: &mut Ctx,
    at: u32,
    names: &[Name],
    keep: &[Le],
    place: u32,
    certs: &[Cert],
    before: Mark,
) -> Result<Mark, Fail>
    requires { all_narrow keep.now ≡ true }
    ensures { AnswersWith result ctx.new (spec.ends at names.now keep.now place certs.now before ctx.old) }
{
    need(unlisted_kept(names, before.clauses(), ctx.clauses()), at, 6)?;
    let forms = forms_at(names, ctx.scalars(), before.scalars());
    all_shown(ctx, at, place, certs, &forms, keep)?;
    Ok(ctx.end_block(before))
}

/// The context after both sides takes over what it does of their ends.
pub fn joins(
    ctx: &mut Ctx,
    at: u32,
    names: &[Name],
    keep: &[Le],
    one: &Mark,
    two: &Mark,
) -> Result<(), Fail>
    requires { all_narrow keep.now ≡ true }
    ensures { AnswersWith result ctx.new (spec.joins at names.now keep.now one.now two.now ctx.old) }
{
    need(stand_alike(one, two, names), at, 7)?;
    need(are_arrays_alike(one, two, names), at, 8)?;
    ctx.take_over(names, one, two)?;
    all_renewed(ctx, at, names, one.scalars())?;
    all_kept(ctx, at, keep)
}

/// Both sides are done, and their ends meet: the command that takes one of them.
pub fn met(
    ctx: &mut Ctx,
    at: u32,
    names: &[Name],
    keep: &[Le],
    test: BExpr,
    one: (StmtOut, Mark),
    two: (StmtOut, Mark),
) -> Result<StmtOut, Fail>
    requires { all_narrow keep.now ≡ true }
    ensures { AnswersWith result ctx.new (spec.met at names.now keep.now test one two ctx.old) }
{
    let (one, at_one) = one;
    let (two, at_two) = two;
    let out = choosing(ctx.allocator(), test, one, two)?;
    joins(ctx, at, names, keep, &at_one, &at_two)?;
    Ok(out)
}

/// The command that takes one of two sides.
fn choosing(alloc: Global, test: BExpr, one: StmtOut, two: StmtOut) -> Result<StmtOut, NoMemory>
    ensures { IfOk result (λ out. out ≡ spec.choosing test one two) }
{
    let cmds = choice(alloc, test, one.cmds, two.cmds)?;
    Ok(StmtOut {
        cmds,
        trips: all_forms(one.trips, two.trips)?,
    })
}

/// The command that takes one of two sequences.
fn choice(alloc: Global, test: BExpr, one: List<Cmd>, two: List<Cmd>) -> Result<List<Cmd>, NoMemory>
    ensures { IfOk result (λ all. all ≡ roll-Cmd (cmd.Cond test (roll-Cmd (cmd.Seq one)) (roll-Cmd (cmd.Seq two))) ∷ []) }
{
    let first = Box::new(alloc, Cmd::Seq(one))?;
    let second = Box::new(alloc, Cmd::Seq(two))?;
    one_command(alloc, Cmd::Cond(test, first, second))
}
