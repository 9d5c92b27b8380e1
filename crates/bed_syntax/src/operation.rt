//! Operations on words, and the sizes of what lies in memory and tables.
ghost use Rattle.std.specs.Prelude.{◌≡◌, ◌<◌};
ghost use Rattle.bed_syntax.specs.Operation.{apply};

use rup_base::{high_product, shift_signed, signed_less};

/// How many bytes are loaded, stored or looked up.
#[derive(Clone, Copy, Debug, PartialEq, Eq)]
pub enum Size {
    One,
    Two,
    Four,
}

/// An operation on two words of 32 bits.
#[derive(Clone, Copy, Debug, PartialEq, Eq)]
pub enum BOp {
    Add,
    Sub,
    Mul,
    /// The upper 32 bits of the unsigned product.
    Mulhuu,
    /// The unsigned quotient, 4294967295 by zero.
    Divu,
    /// The unsigned remainder, the first operand by zero.
    Remu,
    And,
    Or,
    Xor,
    /// The shift to the right by the second operand modulo 32.
    Sru,
    /// The shift to the left by the second operand modulo 32.
    Slu,
    /// The shift to the right, modulo 32, that copies the sign bit.
    Srs,
    /// 1 where the first is less with sign, else 0.
    Lts,
    /// 1 where the first is less without sign, else 0.
    Ltu,
    /// 1 where the two are equal, else 0.
    Eq,
}

impl BOp {
    /// The result at two operands.
    pub fn apply(self, a: u32, b: u32) -> u32
        ensures { result ≡ apply self a b }
    {
        match self {
            BOp::Add => a.wrapping_add(b),
            BOp::Sub => a.wrapping_sub(b),
            BOp::Mul => a.wrapping_mul(b),
            BOp::Mulhuu => high_product(a, b),
            BOp::Divu => if b == 0 { u32::MAX } else { a / b },
            BOp::Remu => if b == 0 { a } else { a % b },
            BOp::And => a & b,
            BOp::Or => a | b,
            BOp::Xor => a ^ b,
            BOp::Sru => a >> (b & 31),
            BOp::Slu => a << (b & 31),
            BOp::Srs => shift_signed(a, b & 31),
            BOp::Lts => u32::from(signed_less(a, b)),
            BOp::Ltu => u32::from(a < b),
            BOp::Eq => u32::from(a == b),
        }
    }
}
