//! Bedrock2 commands: their types, their text, what each of their nodes weighs, and what is counted of them.
//! `specs/` has what the crates above say of commands: the operations on words, weights, named instructions,
//! depth and locals.
#![tactic(auto)]

mod command;
mod depth;
mod expression;
mod locals;
mod operation;
mod paths;
mod printer;
mod weights;

pub use command::Cmd;
pub use depth::depth_of_cmd;
pub use expression::BExpr;
pub use locals::locals_of_cmd;
pub use operation::{BOp, Size};
pub use paths::early_is_some_path;
pub use printer::print_cmd;
pub use weights::Weights;

#[cfg(test)]
mod tests;
