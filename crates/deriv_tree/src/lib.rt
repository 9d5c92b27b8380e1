//! Derivation trees: a node names the rule by which a statement or an expression of a model is compiled, with the
//! rule's arguments and the certificates of its side conditions. `specs/` says when a tree is whole, what its size and
//! its depth are, and in which order its nodes are listed.
#![tactic(auto)]

mod listed;
mod measure;
mod names;
mod rule;
mod tree;

pub use listed::Listed;
pub use names::name_is_read;
pub use rule::Rule;
pub use tree::{Block, Derivation, ExprNode, Step, StmtNode};
