//! A node in the preorder list of a tree.
use crate::tree::Step;
use rup_base::List;

/// A node as it stands in the list of all nodes: what it has itself, and how many nodes stand in each of its blocks.
#[derive(Debug, Drop)]
pub struct Listed {
    pub step: Step,
    pub counts: List<u32>,
}
