//! Lemma files: what a user adds to the search. A lemma says how an expression of a shape is rewritten, by steps of a
//! book of equations, or which facts are noted before statements of a kind. Nothing has to trust a lemma.
//!
//! The grammar of the files stands in `specs/`, as that of models does in its crate: each rule is the list of its parts,
//! in the order of the text.
#![tactic(auto)]

mod exactness;
mod lemmas;
mod matching;
mod parts;
mod patterns;
mod reader;
mod same;
mod shapes;
mod steps;
mod terms;
mod words;

pub use exactness::{matches_are_instances, same_expressions_are_equal};
pub use matching::matches;
pub use reader::read_lemmas;
pub use same::same_expr;
pub use shapes::fits;
pub use steps::expand;
pub use terms::{Lemma, Pattern, Shape};

#[cfg(test)]
mod tests;
