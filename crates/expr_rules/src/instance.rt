//! What a derivation gives for an expression.
ghost use Rattle.std.specs.Prelude.{◌≡◌, [], ◌+◌, ◌≤◌, map, OnOk, if◌then◌else◌};
ghost use Rattle.rup_base.specs.Answers.{Answers, AnswersWith};
ghost use Rattle.model_syntax.specs.declared.expr.Expr.{out-Expr};
ghost use Rattle.deriv_tree.specs.Measure.{expr_size};
ghost use Rattle.expr_rules.specs.Words as words;
ghost use Rattle.expr_rules.specs.Row as spec;

use crate::output::ExprOut;
use crate::rules::{
    add, both, byte, cmp, cut, divk, either, get, len, lit, mask, mulk, not, op, remk, rw, shift,
    sub, tab, var, word,
};
use crate::words::{counted, need, no_instance};
use deriv_tree::{ExprNode, Rule, Step};
use equations::Book;
use model_syntax::{Expr, Op};
use rup_base::{Box, Fail, Name};
use side_certs::Cert;
use sym_heap::Ctx;

/// The rule is for the expression.
fn fits(rule: Rule, e: &Expr) -> bool
    ensures { result ≡ spec.fits rule (out-Expr e.now) }
{
    match (rule, e) {
        (Rule::ELit, Expr::Lit(_)) => true,
        (Rule::EVar, Expr::Var(_)) => true,
        (Rule::ELen, Expr::Length(_)) => true,
        (Rule::EOp, Expr::Bin(_, _, _)) => true,
        (Rule::EAdd, Expr::Bin(op, _, _)) => matches!(op, Op::Add),
        (Rule::ESub, Expr::Bin(op, _, _)) => matches!(op, Op::Sub),
        (Rule::EMulk, Expr::Bin(op, _, _)) => matches!(op, Op::Mul),
        (Rule::EMask, Expr::Bin(op, _, _)) => matches!(op, Op::And),
        (Rule::EShift, Expr::Bin(op, _, _)) => matches!(op, Op::Shl),
        (Rule::ERemk, Expr::Bin(op, _, _)) => matches!(op, Op::Remu),
        (Rule::EDivk, Expr::Bin(op, _, _)) => matches!(op, Op::Divu | Op::Shr),
        (Rule::ECmp, Expr::Test(_, _, _)) => true,
        (Rule::ENot, Expr::Not(_)) => true,
        (Rule::EBoth, Expr::Both(_, _)) => true,
        (Rule::EEither, Expr::Either(_, _)) => true,
        (Rule::EWord, Expr::ToWord(_)) => true,
        (Rule::EByte | Rule::ECut, Expr::ToByte(_)) => true,
        (Rule::EGet, Expr::Get(_, _)) => true,
        (Rule::ETab, Expr::Tab(_, _, _)) => true,
        (Rule::ERw, _) => true,
        _ => false,
    }
}

/// The number of arguments of a rule.
fn args_of(rule: Rule) -> usize
    ensures { result ≡ spec.args_of rule }
{
    match rule {
        Rule::ERw => 1,
        _ => 0,
    }
}

/// The rule is that of equations.
fn is_rewrite(rule: Rule) -> bool
    ensures { result ≡ spec.is_rewrite rule }
{
    matches!(rule, Rule::ERw)
}

/// The number of certificates of a rule.
fn certs_of(rule: Rule) -> usize
    ensures { result ≡ spec.certs_of rule }
{
    match rule {
        Rule::EAdd
        | Rule::ESub
        | Rule::EMulk
        | Rule::EShift
        | Rule::EByte
        | Rule::EGet
        | Rule::ETab => 1,
        _ => 0,
    }
}

/// A rule of operations, after its kids.
fn binary(
    ctx: &mut Ctx,
    at: u32,
    rule: Rule,
    op: Op,
    certs: &[Cert],
    p: ExprOut,
    q: ExprOut,
) -> Result<ExprOut, Fail>
    ensures { AnswersWith result ctx.new (spec.binary rule op certs.now at p q ctx.old) }
{
    match rule {
        Rule::EOp => op::after(ctx, at, op, p, q),
        Rule::EAdd => add::after(ctx, at, certs, p, q),
        Rule::ESub => sub::after(ctx, at, certs, p, q),
        Rule::EMulk => mulk::after(ctx, at, certs, p, q),
        Rule::EMask => mask::after(ctx, at, p, q),
        Rule::EShift => shift::after(ctx, at, certs, p, q),
        Rule::ERemk => remk::after(ctx, at, p, q),
        Rule::EDivk => divk::after(ctx, at, op, p, q),
        _ => Err(no_instance(at, 1)),
    }
}

/// A rule of the bytes of words, after its kid.
fn low(ctx: &mut Ctx, at: u32, rule: Rule, certs: &[Cert], p: ExprOut) -> Result<ExprOut, Fail>
    ensures { AnswersWith result ctx.new (spec.low rule certs.now at p ctx.old) }
{
    match rule {
        Rule::EByte => byte::after(ctx, at, certs, p),
        Rule::ECut => cut::after(ctx, at, p),
        _ => Err(no_instance(at, 1)),
    }
}

/// There are no kids.
fn no_kid(kids: &[Box<ExprNode>], at: u32) -> Result<(), Fail>
    ensures { Answers result (words.asked (words.are_none kids.now) at 1) }
{
    need(matches!(kids, []), at, 1)
}

/// The length of an array, whose name is looked for before the kids.
fn array_length(ctx: &Ctx, at: u32, a: &Name, kids: &[Box<ExprNode>]) -> Result<ExprOut, Fail>
    ensures row { AnswersWith result ctx.now (spec.array_length at a.now (words.are_none kids.now) ctx.now) }
    ensures none { OnOk result (kids.now ≡ []) }
{
    match ctx.own(a) {
        None => Err(no_instance(at, 4)),
        Some(clause) => {
            no_kid(kids, at)?;
            len::after(ctx, at, clause)
        }
    }
}

/// The code of an expression by its derivation, its form and the facts of a flag. `at` is the number of the node. A refusal
/// has the node and the condition of the first fault, or the node and the place of the first certificate that closes nothing.
pub fn expr_instance<B: Book>(
    ctx: &mut Ctx,
    at: u32,
    e: &Expr,
    node: &ExprNode,
    book: &B,
) -> Result<ExprOut, Fail>
    requires { at + expr_size node.now ≤ 20_000 }
    ensures { AnswersWith result ctx.new (spec.row (B.turn book.now) node.now at e.now ctx.old) }
{
    let mut next = at;
    judge(ctx, &mut next, node, e, book)
}

/// The same, where `next` is the number of the node, and afterwards of the one that follows its last.
#[cycle(judge)]
fn judge<B: Book>(
    ctx: &mut Ctx,
    next: &mut u32,
    node: &ExprNode,
    e: &Expr,
    book: &B,
) -> Result<ExprOut, Fail>
    requires { next.old + (spec.judged (B.turn book.now) node.now).size ≤ 20_000 }
    ensures row { AnswersWith result ctx.new ((spec.judged (B.turn book.now) node.now).row next.old e.now ctx.old) }
    ensures counted { OnOk result (next.new ≡ next.old + (spec.judged (B.turn book.now) node.now).size) }
{
    let at = *next;
    *next += 1;
    let step = &node.step;
    let kids = node.kids.as_slice();
    need(fits(step.rule, e), at, 1)?;
    counted(step, args_of(step.rule), certs_of(step.rule), at)?;
    by_rule(ctx, next, at, kids, step, e, book)
}

/// What a rule that is for the expression gives, of the node with the number `at`.
#[cycle(judge)]
fn by_rule<B: Book>(
    ctx: &mut Ctx,
    next: &mut u32,
    at: u32,
    kids: &[Box<ExprNode>],
    step: &Step,
    e: &Expr,
    book: &B,
) -> Result<ExprOut, Fail>
    requires numbered { next.old ≡ at + 1 }
    requires small { next.old + words.sizes (map (spec.judged (B.turn book.now)) kids.now) ≤ 20_000 }
    ensures row { AnswersWith result ctx.new
        ((if spec.is_rewrite step.now.rule
        then spec.rewritten (B.turn book.now) step.now (map (spec.judged (B.turn book.now)) kids.now) at e.now
        else spec.parts step.now (map (spec.judged (B.turn book.now)) kids.now) at (out-Expr e.now)) ctx.old) }
    ensures counted { OnOk result (next.new ≡ next.old + words.sizes (map (spec.judged (B.turn book.now)) kids.now)) }
{
    if is_rewrite(step.rule) {
        rewritten(ctx, next, at, kids, step, e, book)
    } else {
        parts(ctx, next, at, kids, step, e, book)
    }
}

/// What the rule of equations gives: its kid is for what the book makes of the expression.
#[cycle(judge)]
fn rewritten<B: Book>(
    ctx: &mut Ctx,
    next: &mut u32,
    at: u32,
    kids: &[Box<ExprNode>],
    step: &Step,
    e: &Expr,
    book: &B,
) -> Result<ExprOut, Fail>
    requires numbered { next.old ≡ at + 1 }
    requires small { next.old + words.sizes (map (spec.judged (B.turn book.now)) kids.now) ≤ 20_000 }
    ensures row { AnswersWith result ctx.new
        (spec.rewritten (B.turn book.now) step.now (map (spec.judged (B.turn book.now)) kids.now) at e.now ctx.old) }
    ensures counted { OnOk result (next.new ≡ next.old + words.sizes (map (spec.judged (B.turn book.now)) kids.now)) }
{
    let Some(number) = rw::step_of(step.args.as_slice()) else {
        return Err(no_instance(at, 3));
    };
    match book.apply(ctx.allocator(), number, e)? {
        Some(other) => one_kid(ctx, next, at, kids, &other, book),
        None => Err(no_instance(at, 4)),
    }
}

/// What a rule gives by the shape of the expression, of the node with the number `at`.
#[cycle(judge)]
fn parts<B: Book>(
    ctx: &mut Ctx,
    next: &mut u32,
    at: u32,
    kids: &[Box<ExprNode>],
    step: &Step,
    e: &Expr,
    book: &B,
) -> Result<ExprOut, Fail>
    requires numbered { next.old ≡ at + 1 }
    requires small { next.old + words.sizes (map (spec.judged (B.turn book.now)) kids.now) ≤ 20_000 }
    ensures row { AnswersWith result ctx.new
        (spec.parts step.now (map (spec.judged (B.turn book.now)) kids.now) at (out-Expr e.now) ctx.old) }
    ensures counted { OnOk result (next.new ≡ next.old + words.sizes (map (spec.judged (B.turn book.now)) kids.now)) }
{
    match e {
        Expr::Lit(n) => {
            no_kid(kids, at)?;
            lit::after(ctx, at, *n)
        }
        Expr::Var(x) => {
            no_kid(kids, at)?;
            var::after(ctx, at, x)
        }
        Expr::Length(a) => array_length(ctx, at, a, kids),
        Expr::Test(cmp, x, y) => {
            let (p, q) = two_kids(ctx, next, at, kids, x, y, book)?;
            cmp::after(ctx, at, *cmp, p, q)
        }
        Expr::Both(x, y) => {
            let (p, q) = two_kids(ctx, next, at, kids, x, y, book)?;
            both::after(ctx, at, p, q)
        }
        Expr::Either(x, y) => {
            let (p, q) = two_kids(ctx, next, at, kids, x, y, book)?;
            either::after(ctx, at, p, q)
        }
        Expr::Not(x) => {
            let p = one_kid(ctx, next, at, kids, x, book)?;
            not::after(ctx, at, p)
        }
        Expr::ToWord(x) => {
            let p = one_kid(ctx, next, at, kids, x, book)?;
            word::after(ctx, p)
        }
        Expr::ToByte(x) => {
            let p = one_kid(ctx, next, at, kids, x, book)?;
            low(ctx, at, step.rule, step.certs.as_slice(), p)
        }
        Expr::Bin(op, x, y) => {
            let (p, q) = two_kids(ctx, next, at, kids, x, y, book)?;
            binary(ctx, at, step.rule, *op, step.certs.as_slice(), p, q)
        }
        Expr::Get(a, x) => {
            get::before(ctx, at, a)?;
            let p = one_kid(ctx, next, at, kids, x, book)?;
            get::after(ctx, at, step.certs.as_slice(), a, p)
        }
        Expr::Tab(scalar, entries, x) => {
            tab::before(at, entries.as_slice())?;
            let p = one_kid(ctx, next, at, kids, x, book)?;
            tab::after(
                ctx,
                at,
                step.certs.as_slice(),
                *scalar,
                entries.as_slice(),
                p,
            )
        }
    }
}

/// What one kid gives, of the node with the number `at`.
#[cycle(judge)]
fn one_kid<B: Book>(
    ctx: &mut Ctx,
    next: &mut u32,
    at: u32,
    kids: &[Box<ExprNode>],
    x: &Expr,
    book: &B,
) -> Result<ExprOut, Fail>
    requires numbered { next.old ≡ at + 1 }
    requires small { next.old + words.sizes (map (spec.judged (B.turn book.now)) kids.now) ≤ 20_000 }
    ensures row { AnswersWith result ctx.new (words.one_kid (map (spec.judged (B.turn book.now)) kids.now) at x.now ctx.old) }
    ensures counted { OnOk result (next.new ≡ next.old + words.sizes (map (spec.judged (B.turn book.now)) kids.now)) }
{
    match kids {
        [a] => judge(ctx, next, a, x, book),
        _ => Err(no_instance(at, 1)),
    }
}

/// What two kids give, of the node with the number `at`.
#[cycle(judge)]
fn two_kids<B: Book>(
    ctx: &mut Ctx,
    next: &mut u32,
    at: u32,
    kids: &[Box<ExprNode>],
    x: &Expr,
    y: &Expr,
    book: &B,
) -> Result<(ExprOut, ExprOut), Fail>
    requires numbered { next.old ≡ at + 1 }
    requires small { next.old + words.sizes (map (spec.judged (B.turn book.now)) kids.now) ≤ 20_000 }
    ensures row { AnswersWith result ctx.new
        (words.two_kids (map (spec.judged (B.turn book.now)) kids.now) at x.now y.now ctx.old) }
    ensures counted { OnOk result (next.new ≡ next.old + words.sizes (map (spec.judged (B.turn book.now)) kids.now)) }
{
    match kids {
        [a, b] => {
            let p = judge(ctx, next, a, x, book)?;
            let q = judge(ctx, next, b, y, book)?;
            Ok((p, q))
        }
        _ => Err(no_instance(at, 1)),
    }
}
