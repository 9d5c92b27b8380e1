//! What the search finds.
use deriv_tree::{ExprNode, Rule};
use expr_rules::ExprOut;
use rup_base::List;
use side_certs::{Cert, Form};

/// The derivation of an expression, and what it gives.
#[derive(Debug, Drop)]
pub struct Found {
    pub node: ExprNode,
    pub out: ExprOut,
}

/// A row that fits an operation of words, and the form that it gives. The code is the operation's.
#[derive(Debug, Drop)]
pub struct Special {
    pub rule: Rule,
    pub certs: List<Cert>,
    pub form: Form,
}
