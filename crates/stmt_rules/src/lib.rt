//! The rules of statements: which nodes are instances, and the commands and trip forms that they give. `specs/rules/` has a
//! file for each rule, `src/rules/` its code and `proofs/sound/` that it is sound.
#![tactic(auto)]

pub mod args;
mod instance;
mod kids;
pub mod laws;
pub mod loops;
mod measure;
pub mod nesting;
mod output;
pub mod rules;
mod shape;
mod simple;

pub use instance::{block_instance, stmt_instance};
pub use kids::kind_of;
pub use laws::{blocks_are_sound, commands_are_small, statements_are_sound};
pub use output::StmtOut;

#[cfg(test)]
mod tests;
