//! The terms of the model language. Their limits, types and value are definitions of `specs/`.
#![tactic(auto)]

mod copy;
mod expr;
mod kinds;
mod limits;
mod names;
mod operation;
mod program;
mod scope;
mod soundness;
mod stmt;

pub use copy::copy_expr;
pub use expr::{Cmp, Expr, Op, Scalar};
pub use kinds::is_of_kind;
pub use limits::{block_depth, expression_depth, over_limit, statements, table_bytes};
pub use names::{first_names, is_declared};
pub use operation::{apply, holds};
pub use program::{Len, Model, Param, Ret};
pub use scope::{Binding, Entry, Linear, NameType, Term};
pub use soundness::{
    expressions_are_sound, models_are_sound, nothing_is_cut, statements_are_sound,
};
pub use stmt::{Le, Lin, Stmt};

#[cfg(test)]
mod tests;
