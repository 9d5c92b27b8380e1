//! The passes in a row: from a command that computes a model to the bytes of an image that serves the model's calls.
#![tactic(auto)]

mod around;
mod passes;

pub use around::image;
pub use passes::machine_code;
