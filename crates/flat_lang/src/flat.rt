//! Statements and whole codes.
use bed_syntax::{BOp, Size};
use rup_base::{List, Text};

/// A statement. Each number but a literal and the place of a table is a variable.
#[derive(Debug, Drop)]
pub enum FStmt {
    /// The variable that is set, and its value.
    Lit(u32, u32),
    /// The variable that is set, and the one that it is set to.
    Copy(u32, u32),
    /// The variable that is set, and the two operands.
    Bin(BOp, u32, u32, u32),
    /// The variable that is set, and the address.
    Load(Size, u32, u32),
    /// The variable that is set, the place of the table among the tables, and the offset in it.
    Table(Size, u32, u32, u32),
    /// The address, and the value.
    Store(Size, u32, u32),
    /// The test, and what is done where it is not 0, and where it is 0.
    If(u32, List<FStmt>, List<FStmt>),
    /// What is done before each test, the test, and the body of a turn.
    While(List<FStmt>, u32, List<FStmt>),
}

/// A code with its variables, which are the numbers below `vars`.
#[derive(Debug, Drop)]
pub struct Flat {
    pub body: List<FStmt>,
    pub vars: u32,
    /// The variables below this number hold the arguments at the start.
    pub args: u32,
    /// The variables that hold the results at the end.
    pub rets: List<u32>,
    pub tables: List<Text>,
}
