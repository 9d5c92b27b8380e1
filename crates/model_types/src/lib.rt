//! Well typed models. `check_types` says of a model that each rule of types holds, or where the first fails.
#![tactic(auto)]

mod carried;
mod checking;
mod expr_type;
mod facts;
mod in_scope;
mod linear;
mod params;
mod place;
mod ret_type;
mod scope;
mod shapes;
mod stmt_type;
mod typed;

pub use checking::check_types;
pub use facts::is_narrow;
pub use typed::Typed;

#[cfg(test)]
mod tests;
