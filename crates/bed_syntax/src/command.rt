//! Commands.
use crate::expression::BExpr;
use crate::operation::Size;
use rup_base::{Box, List};

/// A command over numbered locals and the memory. The empty `Seq` does nothing.
#[derive(Debug, Drop)]
pub enum Cmd {
    Set(u32, BExpr),
    /// The value of the second expression goes to the address that is the value of the first.
    Store(Size, BExpr, BExpr),
    /// The first command where the test is not 0, else the second.
    Cond(BExpr, Box<Cmd>, Box<Cmd>),
    Seq(List<Cmd>),
    /// The command again and again, as long as the test before it is not 0.
    While(BExpr, Box<Cmd>),
}
