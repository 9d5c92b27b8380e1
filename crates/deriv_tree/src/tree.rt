//! The trees.
use crate::rule::Rule;
use rup_base::{Box, List, Name};
use side_certs::Cert;

/// An instance of a rule: what a node has besides its kids and blocks.
#[derive(Debug, Drop)]
pub struct Step {
    pub rule: Rule,
    /// Whole numbers of magnitude at most 2^40: locals, a step of an equation, the numbers of a form.
    pub args: List<i64>,
    /// In the order in which the rule asks for them.
    pub certs: List<Cert>,
}

/// The derivation of an expression.
#[derive(Debug, Drop)]
pub struct ExprNode {
    pub step: Step,
    pub kids: List<Box<ExprNode>>,
}

/// The derivation of a statement, or a note before one.
#[cycle(tree)]
#[derive(Debug, Drop)]
pub struct StmtNode {
    pub step: Step,
    pub kids: List<ExprNode>,
    pub blocks: List<Block>,
}

/// The derivations of the statements of a block, in order, with the notes among them.
#[cycle(tree)]
#[derive(Debug, Drop)]
pub struct Block {
    pub nodes: List<StmtNode>,
}

/// The derivation of a model: the name of the model, and its outer block.
#[derive(Debug, Drop)]
pub struct Derivation {
    pub model: Name,
    pub body: Block,
}
