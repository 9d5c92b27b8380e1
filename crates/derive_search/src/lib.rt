//! The search of derivations: for a model the derivation that a fixed order finds first. Nothing rests on it being right, since
//! `replayer` judges every derivation; it is exact all the same. `specs/` has the order.
#![tactic(auto)]

mod branching;
mod bytes;
mod certificate;
mod derivation;
mod elements;
mod flags;
mod folding;
mod found;
mod fresh;
mod guide;
mod kept;
pub mod laws;
mod leaves;
mod lemmas;
mod locals;
mod mapping;
mod nodes;
mod notes;
mod operations;
mod seek;
mod seeker;
mod special;
mod statements;
mod trips;
mod turns;
mod writes;

pub use derivation::derive;
pub use found::Found;
pub use laws::{derivations_are_instances, expressions_derive};
pub use seeker::Seeker;

#[cfg(test)]
mod tests;
