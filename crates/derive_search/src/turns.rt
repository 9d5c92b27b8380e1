//! The search over s-for outside its block.
ghost use Rattle.std.specs.Prelude.{◌≡◌, true, IfOk};
ghost use Rattle.rup_base.specs.Answers.{AnswersWith};
ghost use Rattle.stmt_rules.specs.Narrow.{all_narrow};
ghost use Rattle.derive_search.specs.Elements as elements;
ghost use Rattle.derive_search.specs.Locals.{given};
ghost use Rattle.derive_search.specs.Nodes.{stuck};
ghost use Rattle.derive_search.specs.Turns as spec;

use crate::kept::certificates;
use crate::locals::{Homes, further, new_choice};
use crate::nodes::{both, one, stuck_at};
use crate::trips::{Trip, trip_for};
use deriv_tree::{Block, ExprNode, Rule, Step, StmtNode};
use model_syntax::Le;
use rup_base::{Fail, List, Name, NoMemory};
use side_certs::{Cert, Form};
use std::alloc::Global;
use stmt_rules::loops::Counter;
use stmt_rules::rules::counting::{
    all_named, begins, forms_from, forms_with, leaves, next_form, stand_still,
};
use sym_heap::{Ctx, Mark};

/// What is found of an s-for before its block: its locals and trip form, these as arguments, and the certificates of the trip
/// form and of the kept facts at the start.
#[derive(Debug, Drop)]
pub struct Plan {
    pub counter: Counter,
    pub args: List<i64>,
    pub certs: List<Cert>,
}

/// What is known when the block of an s-for begins: what was found before it, what stood before, and what stands at its start.
#[derive(Debug, Drop)]
pub struct LoopStart {
    pub plan: Plan,
    pub before: Mark,
    pub start: Mark,
}

/// The locals of the count and of the number at which it ends, where there are some left.
fn count_locals(ctx: &Ctx, homes: &Homes<'_>, x: &Name) -> Option<(u32, u32)>
    ensures { result ≡ elements.count_locals (given homes.now) x.now ctx.now }
{
    let count = new_choice(ctx, homes, x)?;
    let last = further(ctx, homes, &[count])?;
    Some((count, last))
}

/// What is found before the block, where the bounds have these forms.
fn planned(
    ctx: &Ctx,
    homes: &Homes<'_>,
    entries: u32,
    x: &Name,
    keep: &[Le],
    low: &Form,
    high: &Form,
) -> Result<Option<Plan>, NoMemory>
    requires { all_narrow keep.now ≡ true }
    ensures { IfOk result (λ plan. plan ≡ spec.planned (given homes.now) entries x.now keep.now low.now high.now ctx.now) }
{
    match count_locals(ctx, homes, x) {
        None => Ok(None),
        Some(locals) => planned_at(ctx, entries, x, keep, low, high, locals),
    }
}

/// The same with these locals.
fn planned_at(
    ctx: &Ctx,
    entries: u32,
    x: &Name,
    keep: &[Le],
    low: &Form,
    high: &Form,
    locals: (u32, u32),
) -> Result<Option<Plan>, NoMemory>
    requires { all_narrow keep.now ≡ true }
    ensures { IfOk result (λ plan. plan ≡ spec.planned_at entries x.now keep.now low.now high.now ctx.now locals) }
{
    let Some(trip) = trip_for(ctx, entries, low, high)? else {
        return Ok(None);
    };
    match start_certs(ctx, x, keep, low)? {
        None => Ok(None),
        Some(certs) => Ok(Some(plan_of(ctx.allocator(), locals, trip, certs)?)),
    }
}

/// The certificates of the kept facts at the start, where the name has this form.
fn start_certs(ctx: &Ctx, x: &Name, keep: &[Le], low: &Form) -> Result<Option<List<Cert>>, NoMemory>
    requires { all_narrow keep.now ≡ true }
    ensures { IfOk result (λ certs. certs ≡ spec.start_certs x.now keep.now low.now ctx.now) }
{
    let forms = forms_from(x, low, ctx.scalars());
    certificates(ctx, &forms, keep)
}

/// The arguments and the certificates of an s-for, but for those of the end of its block.
fn plan_of(
    alloc: Global,
    locals: (u32, u32),
    trip: Trip,
    starts: List<Cert>,
) -> Result<Plan, NoMemory>
    ensures { IfOk result (λ plan. plan ≡ spec.plan_of locals trip starts) }
{
    let Trip { args, form, cert } = trip;
    let mut first = one(alloc, i64::from(locals.0))?;
    first.push(i64::from(locals.1))?;
    let counter = Counter {
        count: locals.0,
        last: locals.1,
        trips: form,
    };
    Ok(Plan {
        counter,
        args: both(first, args)?,
        certs: both(one(alloc, cert)?, starts)?,
    })
}

/// From the bounds, which have these forms, to the start of the block; with the number of entry symbols.
pub fn begin_loop(
    ctx: &mut Ctx,
    homes: &Homes<'_>,
    entries: u32,
    at: u32,
    stmt: u32,
    x: &Name,
    names: &[Name],
    keep: &[Le],
    low: &Form,
    high: &Form,
) -> Result<LoopStart, Fail>
    requires { all_narrow keep.now ≡ true }
    ensures { AnswersWith result ctx.new
        (spec.loop_begun (given homes.now) entries at (stuck stmt) x.now names.now keep.now low.now high.now ctx.old) }
{
    let Some(plan) = planned(ctx, homes, entries, x, keep, low, high)? else {
        return Err(stuck_at(stmt));
    };
    let before = ctx.mark()?;
    match begins(ctx, at, x, names, keep, &plan.counter, low, high, &before) {
        Ok(()) => {
            let start = ctx.mark()?;
            Ok(LoopStart {
                plan,
                before,
                start,
            })
        }
        Err(Fail::NoMemory) => Err(Fail::NoMemory),
        Err(Fail::Refused(_)) => Err(stuck_at(stmt)),
    }
}

/// At the end of the block each listed scalar stands in its local of before, and each array has its name, and its writes too
/// unless it is listed.
fn stays(ctx: &Ctx, names: &[Name], before: &Mark) -> bool
    ensures { result ≡ spec.stays names.now before.now ctx.now }
{
    stand_still(names, before.scalars(), ctx.scalars())
        && all_named(names, before.clauses(), ctx.clauses())
}

/// The certificates of the kept facts at the end of the block.
fn end_certs(
    ctx: &Ctx,
    x: &Name,
    names: &[Name],
    keep: &[Le],
    start: &Mark,
) -> Result<Option<List<Cert>>, NoMemory>
    requires { all_narrow keep.now ≡ true }
    ensures { IfOk result (λ certs. certs ≡ spec.end_certs x.now names.now keep.now start.now ctx.now) }
{
    match next_form(start.scalars(), x) {
        None => Ok(None),
        Some(next) => {
            let forms = forms_with(x, &next, names, ctx.scalars(), start.scalars());
            certificates(ctx, &forms, keep)
        }
    }
}

/// The node over the bounds and the block.
fn loop_node(
    alloc: Global,
    plan: Plan,
    ends: List<Cert>,
    low: ExprNode,
    high: ExprNode,
    nodes: List<StmtNode>,
) -> Result<StmtNode, NoMemory>
    ensures { IfOk result (λ node. node ≡ spec.loop_node plan ends low high nodes) }
{
    let Plan {
        counter: _,
        args,
        certs,
    } = plan;
    let step = Step {
        rule: Rule::SFor,
        args,
        certs: both(certs, ends)?,
    };
    let mut kids = one(alloc, low)?;
    kids.push(high)?;
    Ok(StmtNode {
        step,
        kids,
        blocks: one(alloc, Block { nodes })?,
    })
}

/// After the block of these nodes: the node of the loop.
pub fn end_loop(
    ctx: &mut Ctx,
    at: u32,
    stmt: u32,
    x: &Name,
    names: &[Name],
    keep: &[Le],
    bounds: (ExprNode, ExprNode),
    opened: LoopStart,
    nodes: List<StmtNode>,
) -> Result<StmtNode, Fail>
    requires { all_narrow keep.now ≡ true }
    ensures { AnswersWith result ctx.new
        (spec.loop_ended at (stuck stmt) x.now names.now keep.now bounds.0 bounds.1 opened nodes ctx.old) }
{
    let LoopStart {
        plan,
        before,
        start,
    } = opened;
    if !stays(ctx, names, &before) {
        return Err(stuck_at(stmt));
    }
    let Some(ends) = end_certs(ctx, x, names, keep, &start)? else {
        return Err(stuck_at(stmt));
    };
    let end = ctx.end_block(before);
    match leaves(ctx, at, x, names, keep, &end) {
        Ok(()) => Ok(loop_node(ctx.allocator(), plan, ends, bounds.0, bounds.1, nodes)?),
        Err(Fail::NoMemory) => Err(Fail::NoMemory),
        Err(Fail::Refused(_)) => Err(stuck_at(stmt)),
    }
}
