//! From the list of a tree's nodes to the tree. No call here holds a call of its own kind, so the stack does not grow with the
//! depth.
ghost use Rattle.std.specs.Prelude.{◌≡◌, take, drop, reverse, sum, IfOk, OnOk};
ghost use Rattle.deriv_file.specs.Forest as spec;

use deriv_tree::{Block, ExprNode, Listed, StmtNode};
use rup_base::{Box, List, NoMemory};
use std::alloc::Global;

/// The trees that no node has taken yet. Those of each kind stand in the order opposite to the list's.
#[derive(Debug, Drop)]
pub struct Forest {
    pub exprs: Vec<ExprNode>,
    pub stmts: Vec<StmtNode>,
}

/// The block of `block` nodes whose list is `nodes`.
pub fn body_of(alloc: Global, block: usize, nodes: List<Listed>) -> Result<Block, NoMemory>
    ensures { IfOk result (λ body. body ≡ spec.body_of block nodes) }
{
    let mut forest = grown(alloc, nodes.into_vec())?;
    let nodes = take_last(alloc, &mut forest.stmts, block)?;
    Ok(Block { nodes })
}

#[tactic(auto, using(crate::proofs::Stacks::grown_snoc))]
fn grown(alloc: Global, listed: Vec<Listed>) -> Result<Forest, NoMemory>
    ensures { IfOk result (λ forest. spec.trees_of forest ≡ spec.grown listed.items spec.no_trees) }
{
    let mut forest = Forest {
        exprs: Vec::new(alloc),
        stmts: Vec::new(alloc),
    };
    let mut left = listed;
    'nodes: while let Some(node) = left.pop() {
        forest = with_node(alloc, forest, node)?;
    }
    Ok(forest)
}

/// The forest with the node in front of its trees.
fn with_node(alloc: Global, forest: Forest, node: Listed) -> Result<Forest, NoMemory>
    ensures { IfOk result (λ after. spec.trees_of after ≡ spec.grow node (spec.trees_of forest)) }
{
    let mut after = forest;
    let Listed { step, counts } = node;
    let rule = step.rule;
    if rule.is_expression() {
        let kids = take_boxed(alloc, &mut after.exprs, rule.kids())?;
        after.exprs.push(ExprNode { step, kids })?;
    } else {
        let kids = take_last(alloc, &mut after.exprs, rule.kids())?;
        let blocks = cut(alloc, counts.as_slice(), &mut after.stmts)?;
        after.stmts.push(StmtNode { step, kids, blocks })?;
    }
    Ok(after)
}

/// The last trees of a stack, the very last one first.
fn take_last<T: Drop>(alloc: Global, stack: &mut Vec<T>, count: usize) -> Result<List<T>, NoMemory>
    ensures taken { IfOk result (λ taken. taken ≡ take count (reverse stack.old.items)) }
    ensures left { OnOk result (reverse stack.new.items ≡ drop count (reverse stack.old.items)) }
{
    let mut taken = List::new(alloc);
    'trees: while taken.len() < count {
        match stack.pop() {
            Some(tree) => taken.push(tree)?,
            None => return Ok(taken),
        }
    }
    Ok(taken)
}

/// The same, each tree in a box of its own.
fn take_boxed(
    alloc: Global,
    stack: &mut Vec<ExprNode>,
    count: usize,
) -> Result<List<Box<ExprNode>>, NoMemory>
    ensures taken { IfOk result (λ taken. taken ≡ take count (reverse stack.old.items)) }
    ensures left { OnOk result (reverse stack.new.items ≡ drop count (reverse stack.old.items)) }
{
    let mut taken = List::new(alloc);
    'trees: while taken.len() < count {
        match stack.pop() {
            Some(tree) => taken.push(Box::new(alloc, tree)?)?,
            None => return Ok(taken),
        }
    }
    Ok(taken)
}

/// The blocks of so many statements each.
fn cut(alloc: Global, counts: &[u32], stmts: &mut Vec<StmtNode>) -> Result<List<Block>, NoMemory>
    ensures blocks { IfOk result (λ blocks. blocks ≡ spec.cut counts.now (reverse stmts.old.items)) }
    ensures left { OnOk result (reverse stmts.new.items ≡ drop (sum counts.now) (reverse stmts.old.items)) }
{
    let mut blocks = List::new(alloc);
    let mut left = counts;
    while let [first, rest @ ..] = left {
        let nodes = take_last(alloc, stmts, *first as usize)?;
        blocks.push(Block { nodes })?;
        left = rest;
    }
    Ok(blocks)
}
