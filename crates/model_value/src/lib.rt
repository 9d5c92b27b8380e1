//! The value of a model: what every image of it is held to. `value` evaluates a well typed model on arguments.
#![tactic(auto)]

mod arguments;
mod blocks;
mod environment;
mod evaluation;
mod execution;
mod model_value;
mod requirements;

pub use model_value::value;

#[cfg(test)]
mod tests;
