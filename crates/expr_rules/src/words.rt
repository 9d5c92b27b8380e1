//! The words that rules are made of.
ghost use Rattle.std.specs.Prelude.{◌≡◌, ◌≤◌, ◌++◌, neg_ℤ, true, IfOk, IfSome};
ghost use Rattle.rup_base.specs.Answers.{Answers, AnswersWith};
ghost use Rattle.rup_base.specs.declared.fail.Fail.TheVariants as fail;
ghost use Rattle.rup_base.specs.declared.refusal.Refusal.TheVariants as refusal;
ghost use Rattle.bed_syntax.specs.declared.expression.BExpr.TheVariants as b;
ghost use Rattle.side_certs.specs.LinearForm.{is_small};
ghost use Rattle.expr_rules.specs.Words as spec;

use crate::output::ExprOut;
use bed_syntax::{BExpr, BOp};
use deriv_tree::Step;
use rup_base::{Box, Fail, List, NoMemory, Refusal};
use side_certs::{Cert, Form, closes};
use std::alloc::Global;
use sym_heap::Ctx;

/// The refusal of a node at which a condition fails.
pub fn no_instance(node: u32, cond: u32) -> Fail
    ensures { result ≡ fail.Refused (refusal.NoInstance node cond) }
{
    Fail::Refused(Refusal::NoInstance { node, cond })
}

/// A condition that holds, or fails at the node.
pub fn need(holds: bool, at: u32, cond: u32) -> Result<(), Fail>
    ensures { Answers result (spec.asked holds at cond) }
{
    if holds {
        Ok(())
    } else {
        Err(no_instance(at, cond))
    }
}

/// There are so many arguments and certificates.
pub fn counted(step: &Step, args: usize, certs: usize, at: u32) -> Result<(), Fail>
    ensures { Answers result (spec.asked (spec.has_counts step.now args certs) at 2) }
{
    need(step.args.len() == args && step.certs.len() == certs, at, 2)
}

/// A form that is within the limits.
pub fn made(at: u32, form: Option<Form>) -> Result<Form, Fail>
    ensures { Answers result (spec.there form at 3) }
{
    match form {
        Some(form) => Ok(form),
        None => Err(no_instance(at, 3)),
    }
}

/// The first certificate closes the goal.
pub fn cert(ctx: &Ctx, at: u32, certs: &[Cert], goal: &Form) -> Result<(), Fail>
    ensures { Answers result (spec.certified at (spec.closed ctx.now goal.now certs.now)) }
{
    if is_closed(ctx, certs, goal) {
        Ok(())
    } else {
        Err(Fail::Refused(Refusal::BadCertificate { node: at, cert: 0 }))
    }
}

fn is_closed(ctx: &Ctx, certs: &[Cert], goal: &Form) -> bool
    ensures { result ≡ spec.closed ctx.now goal.now certs.now }
{
    match certs {
        [] => false,
        [cert, ..] => closes(ctx.facts(), ctx.tops(), goal, cert),
    }
}

/// A further symbol with this top.
pub fn fresh(ctx: &mut Ctx, at: u32, top: u32) -> Result<Form, Fail>
    ensures { AnswersWith result ctx.new (spec.fresh at top ctx.old) }
{
    match ctx.fresh(top)? {
        Some(symbol) => Ok(Form::symbol(symbol)),
        None => Err(no_instance(at, 3)),
    }
}

/// A further fact.
pub fn fact(ctx: &mut Ctx, at: u32, form: Option<Form>) -> Result<(), Fail>
    ensures { AnswersWith result ctx.new (spec.fact_there at form ctx.old) }
{
    let form = made(at, form)?;
    if ctx.add_fact(form)? {
        Ok(())
    } else {
        Err(no_instance(at, 3))
    }
}

/// An operation of two parts.
pub fn operation(alloc: Global, op: BOp, one: BExpr, two: BExpr) -> Result<BExpr, NoMemory>
    ensures { IfOk result (λ code. code ≡ b.Bin op one two) }
{
    Ok(BExpr::Bin(op, Box::new(alloc, one)?, Box::new(alloc, two)?))
}

/// Code and form of an expression that is no flag.
pub fn plain(alloc: Global, code: BExpr, form: Form) -> ExprOut
    ensures { result ≡ spec.plain code form }
{
    ExprOut {
        code,
        form,
        yes: List::new(alloc),
        no: List::new(alloc),
    }
}

/// Code whose value is a further symbol with this top.
pub fn fresh_result(ctx: &mut Ctx, at: u32, top: u32, code: BExpr) -> Result<ExprOut, Fail>
    ensures { AnswersWith result ctx.new (spec.fresh_result at top code ctx.old) }
{
    let symbol = fresh(ctx, at, top)?;
    Ok(plain(ctx.allocator(), code, symbol))
}

/// The next certificate of the node shows that the form is at least 0.
pub fn shown(ctx: &Ctx, at: u32, certs: &[Cert], goal: Option<Form>) -> Result<(), Fail>
    ensures { AnswersWith result ctx.now (spec.shown_there at certs.now goal ctx.now) }
{
    let goal = made(at, goal)?;
    cert(ctx, at, certs, &goal)
}

/// The number that a form is, where it is one from `low` to `high`.
pub fn number_in(low: u32, high: u32, form: &Form) -> Option<u32>
    ensures number { result ≡ spec.number_in low high form.now }
    ensures range { IfSome result (λ n. (low ≤ n) × (n ≤ high)) }
{
    match number_of(form) {
        None => None,
        Some(k) => in_range(low, high, k),
    }
}

/// The number `k`, where it is one from `low` to `high`.
pub fn in_range(low: u32, high: u32, k: i64) -> Option<u32>
    ensures number { result ≡ spec.in_range low high k }
    ensures range { IfSome result (λ n. (low ≤ n) × (n ≤ high)) }
{
    if i64::from(low) <= k && k <= i64::from(high) {
        Some(k.unsigned_abs() as u32)
    } else {
        None
    }
}

/// The number that a form is.
pub fn number_of(form: &Form) -> Option<i64>
    ensures number { result ≡ spec.number_of form.now }
    ensures small { IfSome result (λ k. is_small k ≡ true) }
{
    if form.terms() == 0 {
        Some(form.constant_part())
    } else {
        None
    }
}

/// The number with the other sign.
pub fn opposite(k: i64) -> i64
    requires { is_small k ≡ true }
    ensures { result ≡ neg_ℤ k }
{
    -k
}

/// The forms of both lists.
pub fn joined(first: List<Form>, second: &[Form]) -> Result<List<Form>, NoMemory>
    ensures { IfOk result (λ all. all ≡ first ++ second.now) }
{
    let mut all = first;
    for form in second {
        all.push(form.copy())?;
    }
    Ok(all)
}
