//! The whole check of derivations: whether each node is an instance of its rule and the limits hold, and the command that
//! computes the model. Nothing rests on where a derivation comes from.
#![tactic(auto)]

mod bounds;
mod checked;
pub mod ends;
mod instance;
mod limits;
mod replaying;
mod sizes;
mod weights;

pub use checked::Checked;
pub use replaying::replay;

#[cfg(test)]
mod tests;
