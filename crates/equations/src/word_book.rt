//! The eighteen equations of words, in the order of their steps.
ghost use Rattle.std.specs.Prelude.{◌≡◌, ◌-◌, ◌^◌, Some, IfOk};
ghost use Rattle.model_syntax.specs.declared.expr.Op.TheVariants as op;
ghost use Rattle.model_syntax.specs.declared.expr.Expr.TheVariants.{Bin, Lit};
ghost use Rattle.equations.specs.Equations as spec;
ghost use Rattle.equations.specs.laws.Kept as kept;
ghost use Rattle.equations.specs.laws.Kept.{◌and◌};
ghost use Rattle.equations.specs.laws.Words as words;

use crate::book::Book;
use crate::sides::{
    copied, is_literal, is_neutral, literal, operation, operation_by, power, same_op,
};
use model_syntax::{Expr, Op, apply, copy_expr};
use rup_base::{Box, NoMemory};
use std::alloc::Global;

/// The equations of words. A step that is none of 0 to 17 applies nowhere.
#[derive(Clone, Copy, Debug)]
pub struct WordBook;

/// What the step makes of the expression.
fn turn(alloc: Global, step: u32, e: &Expr) -> Result<Option<Expr>, NoMemory>
    ensures { IfOk result (λ answer. answer ≡ spec.turn step e.now) }
{
    match step {
        0 => exchanged(alloc, Op::Add, e),
        1 => exchanged(alloc, Op::Mul, e),
        2 => exchanged(alloc, Op::And, e),
        3 => exchanged(alloc, Op::Or, e),
        4 => exchanged(alloc, Op::Xor, e),
        5 => grouped_right(alloc, Op::Add, e),
        6 => grouped_left(alloc, Op::Add, e),
        7 => grouped_right(alloc, Op::Mul, e),
        8 => grouped_right(alloc, Op::Xor, e),
        9 => shifted(alloc, Op::Mul, Op::Shl, e),
        10 => shifted(alloc, Op::Divu, Op::Shr, e),
        11 => masked(alloc, e),
        12 => left_alone(alloc, 0, e),
        13 => left_alone(alloc, 1, e),
        14 => left_alone(alloc, u32::MAX, e),
        15 => Ok(computed(e)),
        16 => byte_of_masked(alloc, e),
        17 => word_of_byte(alloc, e),
        _ => Ok(None),
    }
}

/// `(OP e f)` = `(OP f e)`
fn exchanged(alloc: Global, wanted: Op, x: &Expr) -> Result<Option<Expr>, NoMemory>
    ensures { IfOk result (λ answer. answer ≡ spec.exchanged wanted x.now) }
{
    match x {
        Expr::Bin(op, e, f) if same_op(wanted, *op) => Ok(Some(operation(alloc, wanted, f, e)?)),
        _ => Ok(None),
    }
}

/// `(OP (OP e f) g)` = `(OP e (OP f g))`
fn grouped_right(alloc: Global, wanted: Op, x: &Expr) -> Result<Option<Expr>, NoMemory>
    ensures { IfOk result (λ answer. answer ≡ spec.grouped_right wanted x.now) }
{
    match x {
        Expr::Bin(op, ef, g) if same_op(wanted, *op) => opened_left(alloc, wanted, ef, g),
        _ => Ok(None),
    }
}

/// `(OP e (OP f g))`, where the left side is `(OP e f)`.
fn opened_left(alloc: Global, wanted: Op, ef: &Expr, g: &Expr) -> Result<Option<Expr>, NoMemory>
    ensures { IfOk result (λ answer.
        answer ≡ spec.sides wanted (λ e f. Some (Bin wanted e (Bin wanted f g.now))) ef.now) }
{
    match ef {
        Expr::Bin(op, e, f) if same_op(wanted, *op) => {
            let fg = operation(alloc, wanted, f, g)?;
            let e = copied(alloc, e)?;
            Ok(Some(Expr::Bin(wanted, e, Box::new(alloc, fg)?)))
        }
        _ => Ok(None),
    }
}

/// `(OP e (OP f g))` = `(OP (OP e f) g)`
fn grouped_left(alloc: Global, wanted: Op, x: &Expr) -> Result<Option<Expr>, NoMemory>
    ensures { IfOk result (λ answer. answer ≡ spec.grouped_left wanted x.now) }
{
    match x {
        Expr::Bin(op, e, fg) if same_op(wanted, *op) => opened_right(alloc, wanted, e, fg),
        _ => Ok(None),
    }
}

/// `(OP (OP e f) g)`, where the right side is `(OP f g)`.
fn opened_right(alloc: Global, wanted: Op, e: &Expr, fg: &Expr) -> Result<Option<Expr>, NoMemory>
    ensures { IfOk result (λ answer.
        answer ≡ spec.sides wanted (λ f g. Some (Bin wanted (Bin wanted e.now f) g)) fg.now) }
{
    match fg {
        Expr::Bin(op, f, g) if same_op(wanted, *op) => {
            let ef = operation(alloc, wanted, e, f)?;
            let g = copied(alloc, g)?;
            Ok(Some(Expr::Bin(wanted, Box::new(alloc, ef)?, g)))
        }
        _ => Ok(None),
    }
}

/// `(OP e N)` = `(SHIFT e K)`, where N = 2^K
fn shifted(alloc: Global, wanted: Op, shift: Op, x: &Expr) -> Result<Option<Expr>, NoMemory>
    ensures { IfOk result (λ answer. answer ≡ spec.shifted wanted shift x.now) }
{
    match x {
        Expr::Bin(op, e, n) if same_op(wanted, *op) => match power(n) {
            Some(k) => Ok(Some(operation_by(alloc, shift, e, k)?)),
            None => Ok(None),
        },
        _ => Ok(None),
    }
}

/// `(remu e N)` = `(and e N-1)`, where N = 2^K
fn masked(alloc: Global, x: &Expr) -> Result<Option<Expr>, NoMemory>
    ensures { IfOk result (λ answer. answer ≡ spec.masked x.now) }
{
    match x {
        Expr::Bin(op, e, n) if same_op(Op::Remu, *op) => match power(n) {
            Some(k) => Ok(Some(operation_by(alloc, Op::And, e, (1 << k) - 1)?)),
            None => Ok(None),
        },
        _ => Ok(None),
    }
}

/// `(OP e N)` = `e`, where N changes nothing on the right of OP
fn left_alone(alloc: Global, n: u32, x: &Expr) -> Result<Option<Expr>, NoMemory>
    ensures { IfOk result (λ answer. answer ≡ spec.left_alone n x.now) }
{
    match x {
        Expr::Bin(op, e, m) if is_neutral(*op, n) && is_literal(n, m) => {
            Ok(Some(copy_expr(alloc, e)?))
        }
        _ => Ok(None),
    }
}

/// `(OP N K)` = the literal of the value
fn computed(x: &Expr) -> Option<Expr>
    ensures { result ≡ spec.computed x.now }
{
    match x {
        Expr::Bin(op, a, b) => match (literal(a), literal(b)) {
            (Some(n), Some(k)) => Some(Expr::Lit(apply(*op, n, k))),
            _ => None,
        },
        _ => None,
    }
}

/// `(byte (and e 255))` = `(byte e)`
fn byte_of_masked(alloc: Global, x: &Expr) -> Result<Option<Expr>, NoMemory>
    ensures { IfOk result (λ answer. answer ≡ spec.byte_of_masked x.now) }
{
    match x {
        Expr::ToByte(inner) => unmasked(alloc, inner),
        _ => Ok(None),
    }
}

/// `(byte e)`, where the expression is `(and e 255)`.
fn unmasked(alloc: Global, x: &Expr) -> Result<Option<Expr>, NoMemory>
    ensures { IfOk result (λ answer. answer ≡ spec.unmasked x.now) }
{
    match x {
        Expr::Bin(op, e, n) if same_op(Op::And, *op) && is_literal(255, n) => {
            Ok(Some(Expr::ToByte(copied(alloc, e)?)))
        }
        _ => Ok(None),
    }
}

/// `(word (byte e))` = `(and e 255)`
fn word_of_byte(alloc: Global, x: &Expr) -> Result<Option<Expr>, NoMemory>
    ensures { IfOk result (λ answer. answer ≡ spec.word_of_byte x.now) }
{
    match x {
        Expr::ToWord(inner) => with_mask(alloc, inner),
        _ => Ok(None),
    }
}

/// `(and e 255)`, where the expression is `(byte e)`.
fn with_mask(alloc: Global, x: &Expr) -> Result<Option<Expr>, NoMemory>
    ensures { IfOk result (λ answer. answer ≡ spec.with_mask x.now) }
{
    match x {
        Expr::ToByte(e) => Ok(Some(operation_by(alloc, Op::And, e, 255)?)),
        _ => Ok(None),
    }
}

impl Book for WordBook {
    ghost turn = { λ _. spec.turn };

    fn apply(&self, alloc: Global, step: u32, e: &Expr) -> Result<Option<Expr>, NoMemory> {
        turn(alloc, step, e)
    }

    // equation by equation
    ghost laws = { λ _. kept.book_lawful spec.equations (
        kept.exchanged_lawful op.Add words.add_commutes
        and kept.exchanged_lawful op.Mul words.mul_commutes
        and kept.exchanged_lawful op.And words.and_commutes
        and kept.exchanged_lawful op.Or words.or_commutes
        and kept.exchanged_lawful op.Xor words.xor_commutes
        and kept.right_lawful op.Add words.add_associates
        and kept.left_lawful op.Add words.add_associates
        and kept.right_lawful op.Mul words.mul_associates
        and kept.right_lawful op.Xor words.xor_associates
        and kept.power_lawful op.Mul op.Shl (λ k. k) words.shift_word words.product_shifts
        and kept.power_lawful op.Divu op.Shr (λ k. k) words.shift_word words.quotient_shifts
        and kept.power_lawful op.Remu op.And (λ k. 2 ^ k - 1) words.mask_word words.remainder_masks
        and kept.alone_lawful 0
        and kept.alone_lawful 1
        and kept.alone_lawful 4294967295
        and kept.computed_lawful
        and kept.byte_lawful
        and kept.word_lawful
        and kept.no_more) };
}
