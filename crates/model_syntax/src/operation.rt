//! Operations and comparisons on words.
ghost use Rattle.std.specs.Prelude.{◌≡◌, ◌<◌};
ghost use Rattle.model_syntax.specs.Operation.{apply, holds};

use crate::expr::{Cmp, Op};
use rup_base::{high_product, shift_signed, signed_less};

/// The result of an operation.
pub fn apply(op: Op, a: u32, b: u32) -> u32
    ensures { result ≡ apply op a b }
{
    match op {
        Op::Add => a.wrapping_add(b),
        Op::Sub => a.wrapping_sub(b),
        Op::Mul => a.wrapping_mul(b),
        Op::Mulhuu => high_product(a, b),
        Op::Divu => if b == 0 { u32::MAX } else { a / b },
        Op::Remu => if b == 0 { a } else { a % b },
        Op::And => a & b,
        Op::Or => a | b,
        Op::Xor => a ^ b,
        Op::Shl => a << (b & 31),
        Op::Shr => a >> (b & 31),
        Op::Sar => shift_signed(a, b & 31),
    }
}

/// Whether a comparison holds.
pub fn holds(cmp: Cmp, a: u32, b: u32) -> bool
    ensures { result ≡ holds cmp a b }
{
    match cmp {
        Cmp::Eq => a == b,
        Cmp::Lt => a < b,
        Cmp::Slt => signed_less(a, b),
    }
}
