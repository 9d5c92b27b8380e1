//! The rules of expressions: which nodes are instances, and the code, the form and the facts that they give. `specs/rules/`
//! has a file for each rule, `src/rules/` its code and `proofs/sound/` that it is sound.
#![tactic(auto)]

pub mod elements;
mod instance;
pub mod laws;
mod output;
pub mod rules;
pub mod words;

pub use instance::expr_instance;
pub use laws::{codes_are_small, instances_are_sound};
pub use output::ExprOut;
