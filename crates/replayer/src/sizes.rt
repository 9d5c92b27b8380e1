//! How many nodes trees have.
ghost use Rattle.std.specs.Prelude.{◌≡◌, ◌≤◌, map, sum};
ghost use Rattle.deriv_tree.specs.Measure as spec;

use deriv_tree::{Block, ExprNode, StmtNode};

fn expr_size(node: &ExprNode) -> u32
    requires { spec.expr_size node.now ≤ 20_000 }
    ensures { result ≡ spec.expr_size node.now }
{
    let mut size = 1;
    for kid in node.kids.as_slice() {
        size += expr_size(kid);
    }
    size
}

/// The nodes of expressions.
pub fn kids_size(nodes: &[ExprNode]) -> u32
    requires { sum (map spec.expr_size nodes.now) ≤ 20_000 }
    ensures { result ≡ sum (map spec.expr_size nodes.now) }
{
    let mut size = 0;
    for node in nodes {
        size += expr_size(node);
    }
    size
}

/// The nodes of a statement.
#[cycle(size)]
pub fn size_of_stmt(node: &StmtNode) -> u32
    requires { spec.stmt_size node.now ≤ 20_000 }
    ensures { result ≡ spec.stmt_size node.now }
{
    let mut size = kids_size(node.kids.as_slice()) + 1;
    for block in node.blocks.as_slice() {
        size += size_of_block(block);
    }
    size
}

/// The nodes of a block.
#[cycle(size)]
pub fn size_of_block(block: &Block) -> u32
    requires { spec.block_size block.now ≤ 20_000 }
    ensures { result ≡ spec.block_size block.now }
{
    let mut size = 0;
    for node in block.nodes.as_slice() {
        size += size_of_stmt(node);
    }
    size
}
