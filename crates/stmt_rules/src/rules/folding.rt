//! s-fold: a scalar gets the value of an expression for each element of an array.
ghost use Rattle.std.specs.Prelude.{◌≡◌, ◌∷◌, IfOk};
ghost use Rattle.rup_base.specs.Answers.{Answers, AnswersWith};
ghost use Rattle.sym_heap.specs.Context as context;
ghost use Rattle.bed_syntax.specs.declared.expression.BExpr.TheVariants as code;
ghost use Rattle.bed_syntax.specs.declared.command.Cmd.{roll-Cmd};
ghost use Rattle.bed_syntax.specs.declared.command.Cmd.TheOpen as cmd;
ghost use Rattle.stmt_rules.specs.Loops as loops;
ghost use Rattle.stmt_rules.specs.rules.Fold as spec;

use crate::loops::{
    FoldLocals, copied, counting, has_trips, length_code, loaded, local_arg, with_length,
};
use crate::nesting::top_of;
use crate::output::{StmtOut, more, one_command};
use crate::rules::mapping;
use bed_syntax::{BExpr, Cmd};
use expr_rules::words::{fresh, need, no_instance};
use model_syntax::Scalar;
use rup_base::{Fail, List, Name, NoMemory};
use std::alloc::Global;
use sym_heap::{Clause, Ctx, Mark};

/// The four locals.
pub fn locals(ctx: &Ctx, at: u32, args: &[i64]) -> Result<FoldLocals, Fail>
    ensures { AnswersWith result ctx.now (spec.locals at args.now ctx.now) }
{
    let turn = mapping::locals(ctx, at, args)?;
    let so_far = local_arg(at, args, 3)?;
    Ok(FoldLocals { turn, so_far })
}

/// The array of a name, where the locals are free and differ.
pub fn array(ctx: &Ctx, at: u32, s: &Name, a: &Name, l: FoldLocals) -> Result<Clause, Fail>
    ensures { AnswersWith result ctx.now (spec.array at s.now a.now l ctx.now) }
{
    let Some(clause) = ctx.own(a) else {
        return Err(no_instance(at, 4));
    };
    need(are_unused(ctx, s, l), at, 5)?;
    Ok(copied(ctx.allocator(), clause)?)
}

/// The locals are free, that of the scalar for it, and differ.
pub fn are_unused(ctx: &Ctx, s: &Name, l: FoldLocals) -> bool
    ensures { result ≡ spec.are_unused s.now l ctx.now }
{
    mapping::are_unused(ctx, l.turn) && ctx.is_free(l.so_far, Some(s)) && differ(l)
}

fn differ(l: FoldLocals) -> bool
    ensures { result ≡ spec.differ l }
{
    l.turn.count != l.so_far && l.turn.last != l.so_far && l.turn.element != l.so_far
}

/// The local and the type of the scalar, which there is in every well typed model.
pub fn start(ctx: &Ctx, at: u32, s: &Name) -> Result<(u32, Scalar), Fail>
    ensures { AnswersWith result ctx.now (spec.start at s.now ctx.now) }
{
    match ctx.scalar(s) {
        Some(held) => Ok((held.local, held.kind)),
        None => Err(no_instance(at, 1)),
    }
}

/// The scalar has a fresh symbol, in its local of the fold.
fn renamed(ctx: &mut Ctx, at: u32, s: &Name, l: FoldLocals, kind: Scalar) -> Result<(), Fail>
    ensures { AnswersWith result ctx.new (spec.renamed at s.now l kind ctx.old) }
{
    let symbol = fresh(ctx, at, top_of(kind))?;
    ctx.set_scalar(s, l.so_far, symbol, kind)?;
    Ok(())
}

/// The kid begins.
pub fn begins(
    ctx: &mut Ctx,
    at: u32,
    s: &Name,
    x: &Name,
    l: FoldLocals,
    clause: &Clause,
    kind: Scalar,
) -> Result<(), Fail>
    ensures { AnswersWith result ctx.new (spec.begins at s.now x.now l clause.now kind ctx.old) }
{
    renamed(ctx, at, s, l, kind)?;
    mapping::named_element(ctx, at, x, l.turn.element, clause)
}

/// The context goes back to what stood before, and the scalar has a further symbol.
pub fn ends(
    ctx: &mut Ctx,
    at: u32,
    s: &Name,
    l: FoldLocals,
    kind: Scalar,
    before: Mark,
) -> Result<(), Fail>
    ensures { AnswersWith result ctx.new (spec.ends at s.now l kind before ctx.old) }
{
    let _ = ctx.end_block(before);
    renamed(ctx, at, s, l, kind)
}

/// A turn: the element is loaded, and the scalar set.
fn turn(alloc: Global, l: FoldLocals, clause: &Clause, value: BExpr) -> Result<List<Cmd>, NoMemory>
    ensures { IfOk result (λ cmds. cmds ≡ spec.turn l clause.now value) }
{
    let load = loaded(alloc, clause, l.turn.count, l.turn.element)?;
    let cmds = one_command(alloc, load)?;
    more(cmds, Cmd::Set(l.so_far, value))
}

/// After the kid, of which the value has this code; `first` has the local and the type that the scalar had.
pub fn after(
    ctx: &mut Ctx,
    at: u32,
    s: &Name,
    l: FoldLocals,
    clause: Clause,
    first: (u32, Scalar),
    before: Mark,
    value: BExpr,
) -> Result<StmtOut, Fail>
    ensures { AnswersWith result ctx.new (spec.after at s.now l clause first before value ctx.old) }
{
    let high = length_code(at, &clause)?;
    need(has_trips(ctx, &clause), at, 4)?;
    let out = looping(ctx.allocator(), l, clause, first.0, high, value)?;
    ends(ctx, at, s, l, first.1, before)?;
    Ok(out)
}

/// The number in the scalar's local `from` goes to that of the fold, and then there is a turn for each element, whose number has
/// the code `high`.
fn looping(
    alloc: Global,
    l: FoldLocals,
    clause: Clause,
    from: u32,
    high: BExpr,
    value: BExpr,
) -> Result<StmtOut, NoMemory>
    ensures { IfOk result (λ out. out ≡ spec.folding l clause from high value) }
{
    let cmds = commands(alloc, l, &clause, from, high, value)?;
    with_length(alloc, cmds, clause)
}

/// The commands of a fold.
fn commands(
    alloc: Global,
    l: FoldLocals,
    clause: &Clause,
    from: u32,
    high: BExpr,
    value: BExpr,
) -> Result<List<Cmd>, NoMemory>
    ensures { IfOk result (λ cmds. cmds ≡ (spec.folding l clause.now from high value).cmds) }
{
    let turn = turn(alloc, l, clause, value)?;
    counted(alloc, l, from, high, turn)
}

/// The commands around a turn.
fn counted(
    alloc: Global,
    l: FoldLocals,
    from: u32,
    high: BExpr,
    turn: List<Cmd>,
) -> Result<List<Cmd>, NoMemory>
    ensures { IfOk result (λ cmds. cmds
        ≡ roll-Cmd (cmd.Set l.so_far (code.Var from)) ∷ loops.counting l.turn.count l.turn.last (code.Lit 0) high turn) }
{
    let start = one_command(alloc, Cmd::Set(l.so_far, BExpr::Var(from)))?;
    let zero = BExpr::Lit(0);
    counting(alloc, start, l.turn.count, l.turn.last, zero, high, turn)
}
