//! Expressions.
use crate::operation::{BOp, Size};
use rup_base::{Box, Text};

/// An expression over numbered locals and the memory. It changes neither.
#[derive(Debug, Drop)]
pub enum BExpr {
    Lit(u32),
    Var(u32),
    Bin(BOp, Box<BExpr>, Box<BExpr>),
    /// What lies in memory at an address, the lowest byte first.
    Load(Size, Box<BExpr>),
    /// What lies in the bytes of a table at an offset, the lowest byte first.
    Table(Size, Text, Box<BExpr>),
}
