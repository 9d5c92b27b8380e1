//! Expressions of models.
use rup_base::{Box, List, Name};

/// The type of a scalar. A flag is true or false.
#[derive(Clone, Copy, Debug, PartialEq, Eq)]
pub enum Scalar {
    Word,
    Byte,
    Flag,
}

/// An operation on two words that gives a word.
#[derive(Clone, Copy, Debug, PartialEq, Eq)]
pub enum Op {
    Add,
    Sub,
    Mul,
    /// The upper 32 bits of the unsigned product.
    Mulhuu,
    /// The unsigned quotient, 4294967295 by zero.
    Divu,
    /// The unsigned remainder, the first operand by zero.
    Remu,
    And,
    Or,
    Xor,
    Shl,
    Shr,
    /// The shift to the right that copies the sign bit.
    Sar,
}

/// A comparison of two words that gives a flag.
#[derive(Clone, Copy, Debug, PartialEq, Eq)]
pub enum Cmp {
    Eq,
    /// Less, without sign.
    Lt,
    /// Less, with sign.
    Slt,
}

/// An expression. It reads names and changes none.
#[derive(Debug, Drop)]
pub enum Expr {
    Lit(u32),
    Var(Name),
    /// The number of elements of an array.
    Length(Name),
    Bin(Op, Box<Expr>, Box<Expr>),
    Test(Cmp, Box<Expr>, Box<Expr>),
    Not(Box<Expr>),
    /// Both flags are true.
    Both(Box<Expr>, Box<Expr>),
    /// One of the flags is true, or both.
    Either(Box<Expr>, Box<Expr>),
    /// The number of a byte or a flag as a word.
    ToWord(Box<Expr>),
    /// The lowest byte of a word.
    ToByte(Box<Expr>),
    /// The element of an array at an index.
    Get(Name, Box<Expr>),
    /// The entry of a table at an index. The table names the type of its entries.
    Tab(Scalar, List<u32>, Box<Expr>),
}
