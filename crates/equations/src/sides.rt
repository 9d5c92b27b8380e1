//! What the left side of an equation asks of an expression, and how the right side is made.
ghost use Rattle.std.specs.Prelude.{◌≡◌, ◌<◌, Some, IfOk, IfSome};
ghost use Rattle.model_syntax.specs.declared.expr.Expr.TheVariants.{Lit, Bin};
ghost use Rattle.equations.specs.Equations as spec;

use model_syntax::{Expr, Op, copy_expr};
use rup_base::{Box, NoMemory};
use std::alloc::Global;

/// Whether two operations are one.
pub(crate) fn same_op(a: Op, b: Op) -> bool
    ensures { result ≡ spec.same_op a b }
{
    a == b
}

/// Whether the number changes nothing on the right of the operation.
pub(crate) fn is_neutral(op: Op, n: u32) -> bool
    ensures { result ≡ spec.is_neutral op n }
{
    match op {
        Op::Add | Op::Sub | Op::Or | Op::Xor | Op::Shl | Op::Shr => n == 0,
        Op::Mul | Op::Divu => n == 1,
        Op::And => n == u32::MAX,
        Op::Mulhuu | Op::Remu | Op::Sar => false,
    }
}

/// The number of a literal.
pub(crate) fn literal(x: &Expr) -> Option<u32>
    ensures { result ≡ spec.literal x.now }
{
    match x {
        Expr::Lit(n) => Some(*n),
        _ => None,
    }
}

/// Whether the expression is the literal of a number.
pub(crate) fn is_literal(n: u32, x: &Expr) -> bool
    ensures { result ≡ spec.is_literal n x.now }
{
    match x {
        Expr::Lit(k) => *k == n,
        _ => false,
    }
}

/// K, where the expression is the literal of 2^K.
pub(crate) fn power(x: &Expr) -> Option<u32>
    ensures exponent { result ≡ spec.power x.now }
    ensures small { IfSome result (λ k. k < 32) }
{
    match x {
        Expr::Lit(n) => exponent(*n),
        _ => None,
    }
}

/// K, where the number is 2^K.
fn exponent(n: u32) -> Option<u32>
    ensures exponent { result ≡ spec.exponent n }
    ensures small { IfSome result (λ k. k < 32) }
{
    for k in 0..32 {
        if 1 << k == n {
            return Some(k);
        }
    }
    None
}

/// An operation on copies of two expressions.
pub(crate) fn operation(alloc: Global, op: Op, left: &Expr, right: &Expr) -> Result<Expr, NoMemory>
    ensures { IfOk result (λ made. made ≡ Bin op left.now right.now) }
{
    let left = copied(alloc, left)?;
    let right = copied(alloc, right)?;
    Ok(Expr::Bin(op, left, right))
}

/// An operation on a copy of an expression and a number.
pub(crate) fn operation_by(alloc: Global, op: Op, left: &Expr, n: u32) -> Result<Expr, NoMemory>
    ensures { IfOk result (λ made. made ≡ Bin op left.now (Lit n)) }
{
    let left = copied(alloc, left)?;
    Ok(Expr::Bin(op, left, Box::new(alloc, Expr::Lit(n))?))
}

/// A copy on the heap.
pub(crate) fn copied(alloc: Global, x: &Expr) -> Result<Box<Expr>, NoMemory>
    ensures { IfOk result (λ copy. copy ≡ x.now) }
{
    let copy = copy_expr(alloc, x)?;
    Box::new(alloc, copy)
}
