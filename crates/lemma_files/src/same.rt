//! Whether expressions are equal.
ghost use Rattle.std.specs.Prelude.{◌≡◌};
ghost use Rattle.lemma_files.specs.Same as spec;

use model_syntax::{Cmp, Expr, Op, Scalar};

/// Whether two operations are one.
pub(crate) fn same_op(a: Op, b: Op) -> bool
    ensures { result ≡ spec.same_op a b }
{
    a == b
}

/// Whether two comparisons are one.
pub(crate) fn same_cmp(a: Cmp, b: Cmp) -> bool
    ensures { result ≡ spec.same_cmp a b }
{
    a == b
}

/// Whether two types are one.
pub(crate) fn same_scalar(a: Scalar, b: Scalar) -> bool
    ensures { result ≡ spec.same_scalar a b }
{
    a == b
}

/// Whether two tables have equal entries.
pub(crate) fn same_entries(a: &[u32], b: &[u32]) -> bool
    ensures { result ≡ spec.same_entries a.now b.now }
{
    a == b
}

/// Whether the expressions are equal.
pub fn same_expr(a: &Expr, b: &Expr) -> bool
    ensures { result ≡ spec.same_expr a.now b.now }
{
    match (a, b) {
        (Expr::Lit(m), Expr::Lit(n)) => m == n,
        (Expr::Var(x), Expr::Var(y)) => x == y,
        (Expr::Length(x), Expr::Length(y)) => x == y,
        (Expr::Bin(op, a, b), Expr::Bin(other, c, d)) => {
            same_op(*op, *other) && same_expr(a, c) && same_expr(b, d)
        }
        (Expr::Test(cmp, a, b), Expr::Test(other, c, d)) => {
            same_cmp(*cmp, *other) && same_expr(a, c) && same_expr(b, d)
        }
        (Expr::Not(a), Expr::Not(c)) => same_expr(a, c),
        (Expr::Both(a, b), Expr::Both(c, d)) => same_expr(a, c) && same_expr(b, d),
        (Expr::Either(a, b), Expr::Either(c, d)) => same_expr(a, c) && same_expr(b, d),
        (Expr::ToWord(a), Expr::ToWord(c)) => same_expr(a, c),
        (Expr::ToByte(a), Expr::ToByte(c)) => same_expr(a, c),
        (Expr::Get(x, a), Expr::Get(y, c)) => x == y && same_expr(a, c),
        (Expr::Tab(scalar, entries, a), Expr::Tab(other, numbers, c)) => {
            same_scalar(*scalar, *other)
                && same_entries(entries.as_slice(), numbers.as_slice())
                && same_expr(a, c)
        }
        _ => false,
    }
}
