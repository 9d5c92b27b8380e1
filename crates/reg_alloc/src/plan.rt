//! Places for variables.
use rup_base::List;

/// Where a variable lives.
#[derive(Clone, Copy, Debug, PartialEq, Eq)]
pub enum At {
    /// A register by its number: 8, 9 or from 18 to 31, which are s0 to s11 and t3 to t6.
    Reg(u8),
    /// A word of the stack frame by its number, counted from the stack pointer up.
    Slot(u32),
}

/// One place for each variable, by the variables' numbers.
#[derive(Debug, Drop)]
pub struct Plan {
    pub places: List<At>,
}

/// Lists of variables: first those that are live at the start, then for each statement in preorder, a loop's test before
/// its body, those that are live after it.
pub type Live = List<List<u32>>;
