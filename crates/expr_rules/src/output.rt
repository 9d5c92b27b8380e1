//! What the derivation of an expression gives.
use bed_syntax::BExpr;
use rup_base::List;
use side_certs::Form;

/// The code of an expression, and what is known of its value.
#[derive(Debug, Drop)]
pub struct ExprOut {
    pub code: BExpr,
    /// A form with the same value. A flag is 1 where it is true, and else 0.
    pub form: Form,
    /// Forms that are at least 0 where the expression is a flag that is true.
    pub yes: List<Form>,
    /// The same where it is false.
    pub no: List<Form>,
}
