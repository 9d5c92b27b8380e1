//! Commands that compute models: what a checker of derivations hands over to the passes below it, and what it promises of it.
#![tactic(auto)]

mod command;

pub use command::ModelCommand;
