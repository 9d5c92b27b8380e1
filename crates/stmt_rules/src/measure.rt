//! How many nodes the derivation of an expression has.
ghost use Rattle.std.specs.Prelude.{◌≡◌, ◌≤◌};
ghost use Rattle.deriv_tree.specs.Measure as spec;

use deriv_tree::ExprNode;

/// The number of nodes, which is not over that of all nodes of a tree.
pub fn expr_size(node: &ExprNode) -> u32
    requires { spec.expr_size node.now ≤ 20_000 }
    ensures { result ≡ spec.expr_size node.now }
{
    let mut size = 1;
    for kid in node.kids.as_slice() {
        size += expr_size(kid);
    }
    size
}
