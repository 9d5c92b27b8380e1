//! The model and the arguments that a benchmark makes of a number: a linear congruential generator draws the statements.
#![tactic(auto)]

mod arguments;
mod draws;
mod generated;
mod terms;
mod validity;

pub use arguments::args_from;
pub use generated::model_from;
pub use validity::generated_models_are_valid;

#[cfg(test)]
mod tests;
