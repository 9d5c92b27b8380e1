//! The search over expressions.
ghost use Rattle.std.specs.Prelude.{◌≡◌, ◌≤◌, ◌∷◌, OnOk};
ghost use Rattle.rup_base.specs.Answers.{AnswersWith};
ghost use Rattle.model_syntax.specs.declared.expr.Expr.{out-Expr};
ghost use Rattle.derive_search.specs.Guide.{guided};
ghost use Rattle.derive_search.specs.Lemmas as lemmas;
ghost use Rattle.derive_search.specs.Expressions as spec;

use crate::bytes::byte_row;
use crate::elements::{element_row, entry_row, is_array};
use crate::flags::{both_flags, comparison, either_flag, other_flag, word_of};
use crate::found::Found;
use crate::guide::Guide;
use crate::leaves::{length, number, variable};
use crate::lemmas::{over_step, rewriting};
use crate::nodes::{over, stuck};
use crate::operations::operation_row;
use crate::seeker::Seeker;
use equations::Book;
use model_syntax::{Expr, Scalar};
use rup_base::{Fail, Name};

/// The greatest number of nodes.
const MOST_NODES: u32 = 20_000;

/// The greatest number of nodes of the rule of equations directly inside one another.
const MOST_STEPS: usize = 8;

/// The greatest number of entries of a table.
const MOST_ENTRIES: usize = 65_536;

/// The derivation of an expression in a statement of this number. The
/// level counts the goals and lemmas that may be taken inside one
/// another.
#[cycle(seek)]
pub fn seek<B: Book>(
    s: &mut Seeker,
    guide: &Guide<'_, '_, B>,
    deep: u32,
    stmt: u32,
    e: &Expr,
) -> Result<Found, Fail>
    requires { s.old.stmts ≤ s.old.entered }
    ensures found { AnswersWith result s.new (spec.seek (guided B.turn guide.now) deep stmt e.now s.old) }
    ensures fewer { OnOk result (s.new.stmts ≤ s.new.entered) }
{
    goal(s, guide, deep, stmt, 0, e)
}

/// The goal of an expression directly inside `above` nodes of the rule of equations: a lemma rewrites it, or it has a row.
#[cycle(seek)]
fn goal<B: Book>(
    s: &mut Seeker,
    guide: &Guide<'_, '_, B>,
    deep: u32,
    stmt: u32,
    above: usize,
    e: &Expr,
) -> Result<Found, Fail>
    requires counted { s.old.stmts ≤ s.old.entered }
    requires few { above ≤ 8 }
    ensures found { AnswersWith result s.new (spec.goal_of (guided B.turn guide.now) deep stmt above e.now s.old) }
    ensures fewer { OnOk result (s.new.stmts ≤ s.new.entered) }
{
    if deep == 0 {
        return Err(over());
    }
    let room = MOST_STEPS - above;
    match rewriting(s.ctx.allocator(), guide.lemmas, guide.book, room, e)? {
        None => with_row(s, guide, deep - 1, stmt, e),
        Some(steps) => {
            let steps = steps.as_slice();
            by_steps(s, guide, deep - 1, stmt, above + steps.len(), steps, e)
        }
    }
}

/// The goal of an expression that no lemma rewrites.
#[cycle(seek)]
fn with_row<B: Book>(
    s: &mut Seeker,
    guide: &Guide<'_, '_, B>,
    deep: u32,
    stmt: u32,
    e: &Expr,
) -> Result<Found, Fail>
    requires { s.old.stmts ≤ s.old.entered }
    ensures found { AnswersWith result s.new (spec.with_row (spec.seek (guided B.turn guide.now) deep stmt) stmt e.now s.old) }
    ensures fewer { OnOk result (s.new.stmts ≤ s.new.entered) }
{
    let at = s.entered;
    if at >= MOST_NODES {
        return Err(over());
    }
    s.entered += 1;
    parts(s, guide, deep, at, stmt, e)
}

/// The goals that steps lead to one after the other, and then the last
/// one, directly inside `above` nodes of the rule of equations.
#[cycle(seek)]
fn by_steps<B: Book>(
    s: &mut Seeker,
    guide: &Guide<'_, '_, B>,
    deep: u32,
    stmt: u32,
    above: usize,
    steps: &[u32],
    e: &Expr,
) -> Result<Found, Fail>
    requires counted { s.old.stmts ≤ s.old.entered }
    requires few { above ≤ 8 }
    ensures found { AnswersWith result s.new
        (lemmas.by_steps (B.turn guide.now.book.now) (spec.stuck stmt) (spec.goal_of (guided B.turn guide.now) deep stmt above)
        steps.now e.now s.old) }
    ensures fewer { OnOk result (s.new.stmts ≤ s.new.entered) }
{
    match steps {
        [] => goal(s, guide, deep, stmt, above, e),
        [step, rest @ ..] => by_step(s, guide, deep, stmt, above, *step, rest, e),
    }
}

/// The goal that is rewritten by a step, which is entered, and those that further steps lead to.
#[cycle(seek)]
fn by_step<B: Book>(
    s: &mut Seeker,
    guide: &Guide<'_, '_, B>,
    deep: u32,
    stmt: u32,
    above: usize,
    step: u32,
    rest: &[u32],
    e: &Expr,
) -> Result<Found, Fail>
    requires counted { s.old.stmts ≤ s.old.entered }
    requires few { above ≤ 8 }
    ensures found { AnswersWith result s.new
        (lemmas.by_steps (B.turn guide.now.book.now) (spec.stuck stmt) (spec.goal_of (guided B.turn guide.now) deep stmt above)
        (step ∷ rest.now) e.now s.old) }
    ensures fewer { OnOk result (s.new.stmts ≤ s.new.entered) }
{
    if s.entered >= MOST_NODES {
        return Err(over());
    }
    s.entered += 1;
    let Some(other) = guide.book.apply(s.ctx.allocator(), step, e)? else {
        return Err(Fail::Refused(stuck(s.ctx.allocator(), stmt, e)?));
    };
    let f = by_steps(s, guide, deep, stmt, above, rest, &other)?;
    Ok(over_step(s.ctx.allocator(), step, f)?)
}

/// The goals of the expression's kids, and then its own row, whose node has the number `at`.
#[cycle(seek)]
fn parts<B: Book>(
    s: &mut Seeker,
    guide: &Guide<'_, '_, B>,
    deep: u32,
    at: u32,
    stmt: u32,
    e: &Expr,
) -> Result<Found, Fail>
    requires { s.old.stmts ≤ s.old.entered }
    ensures found { AnswersWith result s.new
        (spec.parts (spec.seek (guided B.turn guide.now) deep stmt) (spec.stuck stmt e.now) at (out-Expr e.now) s.old) }
    ensures fewer { OnOk result (s.new.stmts ≤ s.new.entered) }
{
    match e {
        Expr::Lit(n) => number(&s.ctx, at, stmt, e, *n),
        Expr::Var(x) => variable(&s.ctx, at, stmt, e, x),
        Expr::Length(a) => length(&s.ctx, at, stmt, e, a),
        Expr::Bin(op, x, y) => {
            let a = seek(s, guide, deep, stmt, x)?;
            let b = seek(s, guide, deep, stmt, y)?;
            operation_row(&mut s.ctx, at, stmt, e, *op, a, b)
        }
        Expr::Test(cmp, x, y) => {
            let a = seek(s, guide, deep, stmt, x)?;
            let b = seek(s, guide, deep, stmt, y)?;
            comparison(&mut s.ctx, at, stmt, e, *cmp, a, b)
        }
        Expr::Both(x, y) => {
            let a = seek(s, guide, deep, stmt, x)?;
            let b = seek(s, guide, deep, stmt, y)?;
            both_flags(&mut s.ctx, at, stmt, e, a, b)
        }
        Expr::Either(x, y) => {
            let a = seek(s, guide, deep, stmt, x)?;
            let b = seek(s, guide, deep, stmt, y)?;
            either_flag(&mut s.ctx, at, stmt, e, a, b)
        }
        Expr::Not(x) => {
            let a = seek(s, guide, deep, stmt, x)?;
            other_flag(&s.ctx, at, stmt, e, a)
        }
        Expr::ToWord(x) => {
            let a = seek(s, guide, deep, stmt, x)?;
            word_of(&s.ctx, at, stmt, e, a)
        }
        Expr::ToByte(x) => {
            let a = seek(s, guide, deep, stmt, x)?;
            byte_row(&mut s.ctx, at, stmt, e, a)
        }
        Expr::Get(a, x) => element(s, guide, deep, at, stmt, e, a, x),
        Expr::Tab(scalar, entries, x) => {
            entry(s, guide, deep, at, stmt, e, *scalar, entries.as_slice(), x)
        }
    }
}

/// The goal of an element, where the name is an array's.
#[cycle(seek)]
fn element<B: Book>(
    s: &mut Seeker,
    guide: &Guide<'_, '_, B>,
    deep: u32,
    at: u32,
    stmt: u32,
    e: &Expr,
    a: &Name,
    index: &Expr,
) -> Result<Found, Fail>
    requires { s.old.stmts ≤ s.old.entered }
    ensures found { AnswersWith result s.new
        (spec.in_array (spec.seek (guided B.turn guide.now) deep stmt) (spec.stuck stmt e.now) at a.now index.now s.old) }
    ensures fewer { OnOk result (s.new.stmts ≤ s.new.entered) }
{
    if !is_array(&s.ctx, a) {
        return Err(Fail::Refused(stuck(s.ctx.allocator(), stmt, e)?));
    }
    let p = seek(s, guide, deep, stmt, index)?;
    element_row(&mut s.ctx, at, stmt, e, a, p)
}

/// The goal of an entry, where the table is within its limit.
#[cycle(seek)]
fn entry<B: Book>(
    s: &mut Seeker,
    guide: &Guide<'_, '_, B>,
    deep: u32,
    at: u32,
    stmt: u32,
    e: &Expr,
    scalar: Scalar,
    entries: &[u32],
    index: &Expr,
) -> Result<Found, Fail>
    requires { s.old.stmts ≤ s.old.entered }
    ensures found { AnswersWith result s.new
        (spec.in_table (spec.seek (guided B.turn guide.now) deep stmt) (spec.stuck stmt e.now) at scalar entries.now index.now
        s.old) }
    ensures fewer { OnOk result (s.new.stmts ≤ s.new.entered) }
{
    if entries.len() > MOST_ENTRIES {
        return Err(Fail::Refused(stuck(s.ctx.allocator(), stmt, e)?));
    }
    let p = seek(s, guide, deep, stmt, index)?;
    entry_row(&mut s.ctx, at, stmt, e, scalar, entries, p)
}
