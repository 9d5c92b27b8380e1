//! s-for: a block runs for each number from one bound to another.
ghost use Rattle.std.specs.Prelude.{◌≡◌, ◌≤◌, ◌+◌, [], ◌∷◌, pos, negsuc, true, length, drop, IfOk};
ghost use Rattle.std.specs.List.{list_all};
ghost use Rattle.rup_base.specs.Word.{counted};
ghost use Rattle.rup_base.specs.Answers.{AnswersWith};
ghost use Rattle.side_certs.specs.LinearForm.{within};
ghost use Rattle.sym_heap.specs.Sides.{form_in, form_of};
ghost use Rattle.stmt_rules.specs.Loops as loops;
ghost use Rattle.stmt_rules.specs.Narrow.{all_narrow};
ghost use Rattle.stmt_rules.specs.Nesting as nesting;
ghost use Rattle.stmt_rules.specs.rules.For as spec;

use crate::loops::{Counter, all_kept_but, counting, local_arg, trip_form};
use crate::nesting::{
    all_kept, all_renewed, all_shown, is_listed, of_param, scalar, unlisted_reserved,
};
use crate::output::{StmtOut, all_forms, one_form};
use bed_syntax::BExpr;
use deriv_tree::Step;
use expr_rules::words::{fact, fresh, made, need, shown};
use model_syntax::{Le, Scalar};
use rup_base::{Fail, List, Name, NoMemory};
use side_certs::{Cert, Form, Part};
use std::alloc::Global;
use sym_heap::{Clause, Ctx, Held, Mark, NameForms};

/// There are two locals and the constant of a form at least, one certificate for the trips, and two for each fact.
pub fn counts(step: &Step, keep: &[Le]) -> bool
    ensures { result ≡ spec.counts step.now (length keep.now) }
{
    let certs = step.certs.len();
    let rest = certs.saturating_sub(1);
    3 <= step.args.len() && 1 <= certs && rest % 2 == 0 && rest / 2 == keep.len()
}

/// The locals and the trip form.
pub fn counter(ctx: &Ctx, at: u32, args: &[i64]) -> Result<Counter, Fail>
    requires { 2 ≤ length args.now }
    ensures { AnswersWith result ctx.now (spec.counter at args.now ctx.now) }
{
    let count = local_arg(at, args, 0)?;
    let last = local_arg(at, args, 1)?;
    let trips = trip_form(ctx, at, &args[2..])?;
    Ok(Counter { count, last, trips })
}

/// Up to the block: what stood before it, and what stands at its start.
pub fn opens(
    ctx: &mut Ctx,
    at: u32,
    x: &Name,
    names: &[Name],
    keep: &[Le],
    certs: &[Cert],
    k: &Counter,
    low: &Form,
    high: &Form,
) -> Result<(Mark, Mark), Fail>
    requires certs { 1 ≤ length certs.now }
    requires narrow { all_narrow keep.now ≡ true }
    ensures { AnswersWith result ctx.new (spec.opens at x.now names.now keep.now certs.now k.now low.now high.now ctx.old) }
{
    starts(ctx, at, x, keep, certs, k, low, high)?;
    let before = ctx.mark()?;
    begins(ctx, at, x, names, keep, k, low, high, &before)?;
    let start = ctx.mark()?;
    Ok((before, start))
}

/// After the block.
pub fn finishes(
    ctx: &mut Ctx,
    at: u32,
    x: &Name,
    names: &[Name],
    keep: &[Le],
    certs: &[Cert],
    k: Counter,
    low: BExpr,
    high: BExpr,
    marks: (Mark, Mark),
    out: StmtOut,
) -> Result<StmtOut, Fail>
    requires certs { 1 + length keep.now ≤ length certs.now }
    requires narrow { all_narrow keep.now ≡ true }
    ensures { AnswersWith result ctx.new (spec.finishes at x.now names.now keep.now certs.now k low high marks out ctx.old) }
{
    let out = looping(ctx.allocator(), k, low, high, out)?;
    let (before, start) = marks;
    let place = second_place(keep);
    let certs = second_certs(certs, keep);
    let end = ends(ctx, at, x, names, keep, place, certs, before, &start)?;
    leaves(ctx, at, x, names, keep, &end)?;
    Ok(out)
}

/// The certificates of the facts at the end.
fn second_certs<'a>(certs: &'a [Cert], keep: &[Le]) -> &'a [Cert]
    requires { 1 + length keep.now ≤ length certs.now }
    ensures { result.now ≡ drop (1 + length keep.now) certs.now }
{
    &certs[keep.len() + 1..]
}

/// The place of the first certificate of the end.
fn second_place(keep: &[Le]) -> u32
    ensures { result ≡ counted (1 + length keep.now) }
{
    let count = keep.len().min(u32::MAX as usize) as u32;
    count.saturating_add(1)
}

/// What is shown at the start, with the forms that the scalars have after the bounds.
fn starts(
    ctx: &Ctx,
    at: u32,
    x: &Name,
    keep: &[Le],
    certs: &[Cert],
    k: &Counter,
    low: &Form,
    high: &Form,
) -> Result<(), Fail>
    requires certs { 1 ≤ length certs.now }
    requires narrow { all_narrow keep.now ≡ true }
    ensures { AnswersWith result ctx.now (spec.starts at x.now keep.now certs.now k.now low.now high.now ctx.now) }
{
    need(are_unused(ctx, k), at, 4)?;
    shown(ctx, at, certs, spare_trips(&k.trips, low, high))?;
    let forms = forms_from(x, low, ctx.scalars());
    all_shown(ctx, at, 1, &certs[1..], &forms, keep)
}

/// The locals are free and differ.
pub fn are_unused(ctx: &Ctx, k: &Counter) -> bool
    ensures { result ≡ spec.are_unused k.now ctx.now }
{
    ctx.is_free(k.count, None) && ctx.is_free(k.last, None) && k.count != k.last
}

/// The trip form less the number of turns.
pub fn spare_trips(trips: &Form, low: &Form, high: &Form) -> Option<Form>
    ensures { result ≡ within (spec.spare_trips trips.now low.now high.now) }
{
    Form::sum(
        0,
        &[
            Part {
                times: 1,
                form: trips,
            },
            Part {
                times: -1,
                form: high,
            },
            Part {
                times: 1,
                form: low,
            },
        ],
    )
}

/// The form of one name is given; the others are the scalars'.
pub fn forms_from<'a>(x: &'a Name, form: &'a Form, others: &'a [Held]) -> NameForms<'a>
    ensures { form_of result ≡ loops.given_first x.now form.now (form_in others.now) }
{
    NameForms {
        given: Some((x, form)),
        listed: &[],
        ends: &[],
        others,
    }
}

/// The form of one name is given; the others are those of an end for the listed names, and for all others these.
pub fn forms_with<'a>(
    x: &'a Name,
    form: &'a Form,
    names: &'a [Name],
    ends: &'a [Held],
    others: &'a [Held],
) -> NameForms<'a>
    ensures { form_of result ≡ loops.given_first x.now form.now (nesting.end_form names.now ends.now others.now) }
{
    NameForms {
        given: Some((x, form)),
        listed: names,
        ends,
        others,
    }
}

/// The block begins, in a context of which this stood.
pub fn begins(
    ctx: &mut Ctx,
    at: u32,
    x: &Name,
    names: &[Name],
    keep: &[Le],
    k: &Counter,
    low: &Form,
    high: &Form,
    before: &Mark,
) -> Result<(), Fail>
    requires { all_narrow keep.now ≡ true }
    ensures { AnswersWith result ctx.new
        (spec.begins at x.now names.now keep.now k.now low.now high.now before.now.scalars ctx.old) }
{
    all_renewed(ctx, at, names, before.scalars())?;
    let symbol = fresh(ctx, at, u32::MAX)?;
    ctx.set_scalar(x, k.count, symbol.copy(), Scalar::Word)?;
    loop_reserved(ctx, names, k, before.scalars())?;
    all_kept(ctx, at, keep)?;
    fact(ctx, at, from_low(&symbol, low))?;
    fact(ctx, at, below_high(&symbol, high))
}

/// The locals of the scalars that are not listed are reserved, and those of the loop.
fn loop_reserved(ctx: &mut Ctx, names: &[Name], k: &Counter, scalars: &[Held]) -> Result<(), Fail>
    ensures { AnswersWith result ctx.new (spec.loop_reserved names.now k.now scalars.now ctx.old) }
{
    unlisted_reserved(ctx, names, scalars)?;
    ctx.reserve_local(k.count)?;
    ctx.reserve_local(k.last)?;
    Ok(())
}

/// The count is at least the first number.
fn from_low(symbol: &Form, low: &Form) -> Option<Form>
    ensures { result ≡ within (spec.from_low symbol.now low.now) }
{
    Form::sum(
        0,
        &[
            Part {
                times: 1,
                form: symbol,
            },
            Part {
                times: -1,
                form: low,
            },
        ],
    )
}

/// The last number is greater.
fn below_high(symbol: &Form, high: &Form) -> Option<Form>
    ensures { result ≡ within (spec.below_high symbol.now high.now) }
{
    Form::sum(
        -1,
        &[
            Part {
                times: 1,
                form: high,
            },
            Part {
                times: -1,
                form: symbol,
            },
        ],
    )
}

/// The block ends that began with what stood at its start; the context goes back to what stood before. The answer is what stood
/// at the end. `certs` are those of the facts at the end, of which the first has this place in the node's list.
fn ends(
    ctx: &mut Ctx,
    at: u32,
    x: &Name,
    names: &[Name],
    keep: &[Le],
    place: u32,
    certs: &[Cert],
    before: Mark,
    start: &Mark,
) -> Result<Mark, Fail>
    requires { all_narrow keep.now ≡ true }
    ensures { AnswersWith result ctx.new (spec.ends at x.now names.now keep.now place certs.now before start.now ctx.old) }
{
    need(stand_still(names, before.scalars(), ctx.scalars()), at, 6)?;
    need(all_named(names, before.clauses(), ctx.clauses()), at, 7)?;
    let next = made(at, next_form(start.scalars(), x))?;
    let forms = forms_with(x, &next, names, ctx.scalars(), start.scalars());
    all_shown(ctx, at, place, certs, &forms, keep)?;
    Ok(ctx.end_block(before))
}

/// One more than the form that the name has.
pub fn next_form(scalars: &[Held], x: &Name) -> Option<Form>
    ensures { result ≡ within (loops.one_more (form_in scalars.now x.now)) }
{
    let one = Form::constant(1)?;
    match scalar(scalars, x) {
        None => Some(one),
        Some(held) => one.add(&held.form),
    }
}

/// Each listed scalar stands in its local of before.
pub fn stand_still(names: &[Name], before: &[Held], ends: &[Held]) -> bool
    ensures { result ≡ list_all (spec.stands_still before.now ends.now) names.now }
{
    names.iter().all(|y| stands_still(before, ends, y))
}

fn stands_still(before: &[Held], ends: &[Held], y: &Name) -> bool
    ensures { result ≡ spec.stands_still before.now ends.now y.now }
{
    match (scalar(before, y), scalar(ends, y)) {
        (None, None) => true,
        (Some(h), Some(l)) => h.local == l.local,
        _ => false,
    }
}

/// Each array has its name of before, and its writes too unless that is listed.
pub fn all_named(names: &[Name], before: &[Clause], ends: &[Clause]) -> bool
    ensures { result ≡ loops.all_named names.now before.now ends.now }
{
    ends.iter().all(|clause| stays_named(names, before, clause))
}

fn stays_named(names: &[Name], before: &[Clause], clause: &Clause) -> bool
    ensures { result ≡ loops.stays_named names.now before.now clause.now }
{
    match of_param(before, clause.param) {
        None => false,
        Some(was) => {
            was.name == clause.name
                && (is_listed(names, &clause.name) || was.writes == clause.writes)
        }
    }
}

/// The context after takes over the writes of the end.
pub fn leaves(
    ctx: &mut Ctx,
    at: u32,
    x: &Name,
    names: &[Name],
    keep: &[Le],
    end: &Mark,
) -> Result<(), Fail>
    requires { all_narrow keep.now ≡ true }
    ensures { AnswersWith result ctx.new (spec.leaves at x.now names.now keep.now end.now ctx.old) }
{
    let before = ctx.mark()?;
    ctx.take_over(names, end, end)?;
    all_renewed(ctx, at, names, before.scalars())?;
    all_kept_but(ctx, at, x, keep)
}

/// The sets of both locals, and the loop.
fn looping(
    alloc: Global,
    k: Counter,
    low: BExpr,
    high: BExpr,
    out: StmtOut,
) -> Result<StmtOut, NoMemory>
    ensures { IfOk result (λ loop. loop ≡ spec.looping k low high out) }
{
    let none = List::new(alloc);
    let cmds = counting(alloc, none, k.count, k.last, low, high, out.cmds)?;
    let trips = all_forms(one_form(alloc, k.trips)?, out.trips)?;
    Ok(StmtOut { cmds, trips })
}
