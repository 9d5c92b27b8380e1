//! The top call: the words of a command line, the files that they name, and two sinks.
#![tactic(auto)]

mod answer;
mod answers;
mod bounds;
mod commands;
mod frame;
mod inputs;
mod laws;
mod top_call;
mod words;

pub use laws::run_is_eval;
pub use top_call::{Status, top};
