//! What the kids of a node give, and the type of an expression.
ghost use Rattle.std.specs.Prelude.{◌≡◌, ◌+◌, ◌≤◌, nat_eq, if◌then◌else◌, map, OnOk};
ghost use Rattle.rup_base.specs.Answers.{AnswersWith};
ghost use Rattle.model_syntax.specs.declared.expr.Scalar.TheVariants as scalar;
ghost use Rattle.model_syntax.specs.declared.expr.Expr.{out-Expr};
ghost use Rattle.expr_rules.specs.Words as words;
ghost use Rattle.expr_rules.specs.Row as expr;
ghost use Rattle.stmt_rules.specs.Words.{kind_of};

use crate::measure::expr_size;
use deriv_tree::ExprNode;
use equations::Book;
use expr_rules::words::no_instance;
use expr_rules::{ExprOut, expr_instance};
use model_syntax::{Expr, Scalar};
use rup_base::Fail;
use sym_heap::Ctx;

/// What two kids give, of the node with the number `at`.
pub fn two_kids<B: Book>(
    ctx: &mut Ctx,
    next: &mut u32,
    at: u32,
    kids: &[ExprNode],
    x: &Expr,
    y: &Expr,
    book: &B,
) -> Result<(ExprOut, ExprOut), Fail>
    requires numbered { next.old ≡ at + 1 }
    requires small { next.old + words.sizes (map (expr.judged (B.turn book.now)) kids.now) ≤ 20_000 }
    ensures row { AnswersWith result ctx.new
        (words.two_kids (map (expr.judged (B.turn book.now)) kids.now) at x.now y.now ctx.old) }
    ensures counted { OnOk result (next.new ≡ next.old + words.sizes (map (expr.judged (B.turn book.now)) kids.now)) }
{
    match kids {
        [a, b] => pair(ctx, next, a, b, x, y, book),
        _ => Err(no_instance(at, 1)),
    }
}

/// What two derivations give, one after the other, where `next` is the number of the first node.
fn pair<B: Book>(
    ctx: &mut Ctx,
    next: &mut u32,
    a: &ExprNode,
    b: &ExprNode,
    x: &Expr,
    y: &Expr,
    book: &B,
) -> Result<(ExprOut, ExprOut), Fail>
    requires { next.old + (expr.judged (B.turn book.now) a.now).size + (expr.judged (B.turn book.now) b.now).size ≤ 20_000 }
    ensures row { AnswersWith result ctx.new
        (words.pair (expr.judged (B.turn book.now) a.now) (expr.judged (B.turn book.now) b.now) next.old x.now y.now ctx.old) }
    ensures counted { OnOk result (next.new
        ≡ next.old + (expr.judged (B.turn book.now) a.now).size + (expr.judged (B.turn book.now) b.now).size) }
{
    let p = derived(ctx, next, a, x, book)?;
    let q = derived(ctx, next, b, y, book)?;
    Ok((p, q))
}

/// What one kid gives, of the node with the number `at`.
pub fn one_kid<B: Book>(
    ctx: &mut Ctx,
    next: &mut u32,
    at: u32,
    kids: &[ExprNode],
    x: &Expr,
    book: &B,
) -> Result<ExprOut, Fail>
    requires numbered { next.old ≡ at + 1 }
    requires small { next.old + words.sizes (map (expr.judged (B.turn book.now)) kids.now) ≤ 20_000 }
    ensures row { AnswersWith result ctx.new (words.one_kid (map (expr.judged (B.turn book.now)) kids.now) at x.now ctx.old) }
    ensures counted { OnOk result (next.new ≡ next.old + words.sizes (map (expr.judged (B.turn book.now)) kids.now)) }
{
    match kids {
        [a] => derived(ctx, next, a, x, book),
        _ => Err(no_instance(at, 1)),
    }
}

/// What the derivation of an expression gives, where `next` is the number of its first node, and afterwards of the one that
/// follows its last.
fn derived<B: Book>(
    ctx: &mut Ctx,
    next: &mut u32,
    node: &ExprNode,
    x: &Expr,
    book: &B,
) -> Result<ExprOut, Fail>
    requires { next.old + (expr.judged (B.turn book.now) node.now).size ≤ 20_000 }
    ensures row { AnswersWith result ctx.new ((expr.judged (B.turn book.now) node.now).row next.old x.now ctx.old) }
    ensures counted { OnOk result (next.new ≡ next.old + (expr.judged (B.turn book.now) node.now).size) }
{
    let p = expr_instance(ctx, *next, x, node, book)?;
    *next += expr_size(node);
    Ok(p)
}

/// The type of an expression that is well typed, by the context.
pub fn kind_of(ctx: &Ctx, e: &Expr) -> Option<Scalar>
    ensures { result ≡ kind_of ctx.now (out-Expr e.now) }
{
    match e {
        Expr::Var(x) => match ctx.scalar(x) {
            Some(held) => Some(held.kind),
            None => None,
        },
        Expr::Lit(_) | Expr::Length(_) | Expr::Bin(_, _, _) | Expr::ToWord(_) => Some(Scalar::Word),
        Expr::Test(_, _, _) | Expr::Not(_) | Expr::Both(_, _) | Expr::Either(_, _) => {
            Some(Scalar::Flag)
        }
        Expr::ToByte(_) => Some(Scalar::Byte),
        Expr::Get(a, _) => match ctx.own(a) {
            Some(clause) => Some(element_kind(clause.size)),
            None => None,
        },
        Expr::Tab(kind, _, _) => Some(*kind),
    }
}

/// The type of the elements of an array, which have one byte or four.
fn element_kind(bytes: u32) -> Scalar
    ensures { result ≡ if nat_eq bytes 1 then scalar.Byte else scalar.Word }
{
    if bytes == 1 {
        Scalar::Byte
    } else {
        Scalar::Word
    }
}
