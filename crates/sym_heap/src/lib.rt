//! Contexts of derivations: what is known at a point of a model. That is, which local has which scalar and the form of
//! its number, where each array stands, which forms are at least 0 and how great each symbol is at most.
#![tactic(auto)]

mod context;
pub mod laws;
mod parts;
mod places;
mod sides;

pub use context::{Ctx, Mark};
pub use laws::{
    calls_are_scoped, calls_move, ends_are_scoped, loops_rehearsed, start_fits, start_is_scoped,
    turns_fit, writes_fit,
};
pub use parts::{Clause, Held};
pub use sides::{NameForms, difference};

#[cfg(test)]
mod tests;
