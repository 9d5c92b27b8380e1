//! s-map: each element of an array gets the value of an expression.
ghost use Rattle.std.specs.Prelude.{◌≡◌, IfOk, OnOk};
ghost use Rattle.rup_base.specs.Answers.{Answers, AnswersWith};
ghost use Rattle.stmt_rules.specs.rules.Map as spec;

use crate::loops::{
    ElementLocals, copied, counting, element_kind, has_trips, length_code, loaded, local_arg,
    place_of, with_length,
};
use crate::output::{StmtOut, more, one_command};
use bed_syntax::{BExpr, Cmd};
use expr_rules::elements::{element_top, size_of};
use expr_rules::words::{fresh, need, no_instance};
use rup_base::{Fail, List, Name, NoMemory};
use std::alloc::Global;
use sym_heap::{Clause, Ctx, Mark};

/// The greatest number of writes.
const MOST_WRITES: u32 = 4_294_967_295;

/// The three locals.
pub fn locals(ctx: &Ctx, at: u32, args: &[i64]) -> Result<ElementLocals, Fail>
    ensures { AnswersWith result ctx.now (spec.locals at args.now ctx.now) }
{
    let _ = ctx;
    let count = local_arg(at, args, 0)?;
    let last = local_arg(at, args, 1)?;
    let element = local_arg(at, args, 2)?;
    Ok(ElementLocals {
        count,
        last,
        element,
    })
}

/// The array of a name, where the locals are free and differ.
pub fn array(ctx: &Ctx, at: u32, a: &Name, l: ElementLocals) -> Result<Clause, Fail>
    ensures { AnswersWith result ctx.now (spec.array at a.now l ctx.now) }
{
    let Some(clause) = ctx.own(a) else {
        return Err(no_instance(at, 4));
    };
    need(are_unused(ctx, l), at, 5)?;
    Ok(copied(ctx.allocator(), clause)?)
}

/// The locals are free and differ.
pub fn are_unused(ctx: &Ctx, l: ElementLocals) -> bool
    ensures { result ≡ spec.are_unused l ctx.now }
{
    ctx.is_free(l.count, None)
        && ctx.is_free(l.last, None)
        && ctx.is_free(l.element, None)
        && differ(l)
}

/// The locals differ.
pub fn differ(l: ElementLocals) -> bool
    ensures { result ≡ spec.differ l }
{
    l.count != l.last && l.count != l.element && l.last != l.element
}

/// The kid begins: the array is out, and an element has the name.
pub fn begins(
    ctx: &mut Ctx,
    at: u32,
    a: &Name,
    x: &Name,
    l: ElementLocals,
    clause: &Clause,
) -> Result<(), Fail>
    ensures { AnswersWith result ctx.new (spec.begins at a.now x.now l clause.now ctx.old) }
{
    need(ctx.own(a).is_some(), at, 4)?;
    let _ = ctx.drop_clause(a);
    named_element(ctx, at, x, l.element, clause)
}

/// An element has a fresh symbol of its type, in a local.
pub fn named_element(
    ctx: &mut Ctx,
    at: u32,
    x: &Name,
    local: u32,
    clause: &Clause,
) -> Result<(), Fail>
    ensures { AnswersWith result ctx.new (spec.named_element at x.now local clause.now ctx.old) }
{
    let symbol = fresh(ctx, at, element_top(clause.size))?;
    ctx.set_scalar(x, local, symbol, element_kind(clause))?;
    Ok(())
}

/// The context goes back to what stood before, and the write is counted.
pub fn ends(ctx: &mut Ctx, at: u32, a: &Name, before: Mark) -> Result<(), Fail>
    ensures { AnswersWith result ctx.new (spec.ends at a.now before ctx.old) }
{
    let _ = ctx.end_block(before);
    let Some(clause) = ctx.own(a) else {
        return Err(no_instance(at, 4));
    };
    need(clause.writes < MOST_WRITES, at, 3)?;
    let _ = ctx.wrote(a);
    Ok(())
}

/// A turn: the element is loaded, and the new one stored in its place.
fn turn(
    alloc: Global,
    l: ElementLocals,
    clause: &Clause,
    value: BExpr,
) -> Result<List<Cmd>, NoMemory>
    ensures { IfOk result (λ cmds. cmds ≡ spec.turn l clause.now value) }
{
    let load = loaded(alloc, clause, l.count, l.element)?;
    let cmds = one_command(alloc, load)?;
    let place = place_of(alloc, clause, l.count)?;
    more(cmds, Cmd::Store(size_of(clause.size), place, value))
}

/// After the kid, of which the value has this code.
pub fn after(
    ctx: &mut Ctx,
    at: u32,
    a: &Name,
    l: ElementLocals,
    clause: Clause,
    before: Mark,
    value: BExpr,
) -> Result<StmtOut, Fail>
    ensures { AnswersWith result ctx.new (spec.after at a.now l clause before value ctx.old) }
{
    let high = length_code(at, &clause)?;
    need(has_trips(ctx, &clause), at, 4)?;
    let out = looping(ctx.allocator(), l, clause, high, value)?;
    ends(ctx, at, a, before)?;
    Ok(out)
}

/// A turn for each element, whose number has this code.
fn looping(
    alloc: Global,
    l: ElementLocals,
    clause: Clause,
    high: BExpr,
    value: BExpr,
) -> Result<StmtOut, NoMemory>
    ensures { IfOk result (λ out. out ≡ spec.mapping l clause high value) }
{
    let turn = turn(alloc, l, &clause, value)?;
    let none = List::new(alloc);
    let cmds = counting(alloc, none, l.count, l.last, BExpr::Lit(0), high, turn)?;
    with_length(alloc, cmds, clause)
}
