//! How large a tree is. These counts take no memory, and stay at 4294967295 where they are greater.
ghost use Rattle.std.specs.Prelude.{◌≡◌, max, map, sum};
ghost use Rattle.rup_base.specs.Word as words;
ghost use Rattle.rup_base.specs.Gather.{greatest};
ghost use Rattle.deriv_tree.specs.Measure as spec;
ghost use Rattle.deriv_tree.specs.Shape.{IsWhole};

use crate::tree::{Block, Derivation, ExprNode, StmtNode};

impl Derivation {
    /// The number of nodes.
    pub fn size(&self) -> u32
        requires { IsWhole self.now }
        ensures { result ≡ spec.size self.now }
    {
        block_size(&self.body)
    }

    /// The greatest depth of a node, 0 where there is none. A node of the outer block has depth 1, and any other node
    /// one more than the node that holds it.
    pub fn depth(&self) -> u32
        requires { IsWhole self.now }
        ensures { result ≡ spec.depth self.now }
    {
        block_depth(&self.body)
    }
}

fn expr_size(node: &ExprNode) -> u32
    ensures { result ≡ words.counted (spec.expr_size node.now) }
{
    let mut size: u32 = 1;
    for kid in node.kids.as_slice() {
        size = size.saturating_add(expr_size(kid));
    }
    size
}

fn exprs_size(nodes: &[ExprNode]) -> u32
    ensures { result ≡ words.counted (sum (map spec.expr_size nodes.now)) }
{
    let mut size: u32 = 0;
    for node in nodes {
        size = size.saturating_add(expr_size(node));
    }
    size
}

#[cycle(size)]
fn stmt_size(node: &StmtNode) -> u32
    ensures { result ≡ words.counted (spec.stmt_size node.now) }
{
    let mut size: u32 = exprs_size(node.kids.as_slice()).saturating_add(1);
    for block in node.blocks.as_slice() {
        size = size.saturating_add(block_size(block));
    }
    size
}

#[cycle(size)]
fn block_size(block: &Block) -> u32
    ensures { result ≡ words.counted (spec.block_size block.now) }
{
    let mut size: u32 = 0;
    for node in block.nodes.as_slice() {
        size = size.saturating_add(stmt_size(node));
    }
    size
}

fn expr_depth(node: &ExprNode) -> u32
    ensures { result ≡ words.counted (spec.expr_depth node.now) }
{
    let mut deepest: u32 = 0;
    for kid in node.kids.as_slice() {
        deepest = deepest.max(expr_depth(kid));
    }
    deepest.saturating_add(1)
}

fn exprs_depth(nodes: &[ExprNode]) -> u32
    ensures { result ≡ words.counted (greatest (map spec.expr_depth nodes.now)) }
{
    let mut deepest: u32 = 0;
    for node in nodes {
        deepest = deepest.max(expr_depth(node));
    }
    deepest
}

#[cycle(depth)]
fn stmt_depth(node: &StmtNode) -> u32
    ensures { result ≡ words.counted (spec.stmt_depth node.now) }
{
    let mut deepest: u32 = exprs_depth(node.kids.as_slice());
    for block in node.blocks.as_slice() {
        deepest = deepest.max(block_depth(block));
    }
    deepest.saturating_add(1)
}

#[cycle(depth)]
fn block_depth(block: &Block) -> u32
    ensures { result ≡ words.counted (spec.block_depth block.now) }
{
    let mut deepest: u32 = 0;
    for node in block.nodes.as_slice() {
        deepest = deepest.max(stmt_depth(node));
    }
    deepest
}
