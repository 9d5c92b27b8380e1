//! The certificate of a side condition: how a goal follows from what is known.
use rup_base::List;

/// The proof that a form, the goal, is at least 0: `d` times the goal is the sum of the entries' forms, each times
/// its multiplier, and a constant of at least `-(d - 1)`.
#[derive(Debug, Drop)]
pub struct Cert {
    /// From 1 to 2^32.
    pub d: u64,
    /// At most 32 of them close a goal.
    pub entries: List<Entry>,
}

/// A form that is at least 0, and how many times it is taken.
#[derive(Clone, Copy, Debug)]
pub struct Entry {
    /// What `number` is of: 0 of a fact, whose form is taken; 1 of a symbol, which is taken itself; 2 of a symbol whose
    /// form is its top less the symbol.
    pub kind: u8,
    pub number: u32,
    /// From 0 to 2^32.
    pub mult: u64,
}
