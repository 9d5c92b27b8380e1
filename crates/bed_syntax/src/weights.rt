//! What the nodes of a command weigh.

/// A table of weights: what each node of a command adds to the ticks and to the size of its code.
#[derive(Clone, Copy, Debug, PartialEq, Eq)]
pub struct Weights {
    pub literal: u32,
    pub variable: u32,
    pub operation: u32,
    pub load: u32,
    pub table: u32,
    pub set: u32,
    pub store: u32,
    /// Of a conditional.
    pub test: u32,
    /// Of a loop, at each test.
    pub turn: u32,
    /// Of the code around the command, once.
    pub entry: u32,
}

impl Weights {
    /// The weights where every variable has a slot of the stack.
    pub const LARGE: Weights = Weights {
        literal: 3,
        variable: 2,
        operation: 5,
        load: 3,
        table: 6,
        set: 2,
        store: 3,
        test: 4,
        turn: 4,
        entry: 48,
    };
}
