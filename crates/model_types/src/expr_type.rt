//! The types of expressions.
ghost use Rattle.std.specs.Prelude.{◌≡◌};
ghost use Rattle.model_syntax.specs.ExprType as spec;

use crate::in_scope::{element_in, scalar_in};
use crate::scope::Scope;
use crate::shapes::same_scalar;
use model_syntax::{Expr, Scalar};
use rup_base::TypeWhy;

/// The type of an expression in a scope, or its first fault in text order.
pub fn type_of(scope: &Scope, e: &Expr) -> Result<Scalar, TypeWhy>
    ensures { result ≡ spec.type_of e.now scope.now }
{
    match e {
        Expr::Lit(_) => Ok(Scalar::Word),
        Expr::Var(x) => scalar_in(scope, x),
        Expr::Length(a) => {
            element_in(scope, a)?;
            Ok(Scalar::Word)
        }
        Expr::Bin(_, p, q) => both_wanted(Scalar::Word, type_of(scope, p), type_of(scope, q)),
        Expr::Test(_, p, q) => {
            both_wanted(Scalar::Word, type_of(scope, p), type_of(scope, q))?;
            Ok(Scalar::Flag)
        }
        Expr::Not(p) => wanted(Scalar::Flag, type_of(scope, p)),
        Expr::Both(p, q) => both_wanted(Scalar::Flag, type_of(scope, p), type_of(scope, q)),
        Expr::Either(p, q) => both_wanted(Scalar::Flag, type_of(scope, p), type_of(scope, q)),
        Expr::ToWord(p) => {
            no_word(type_of(scope, p))?;
            Ok(Scalar::Word)
        }
        Expr::ToByte(p) => {
            wanted(Scalar::Word, type_of(scope, p))?;
            Ok(Scalar::Byte)
        }
        Expr::Get(a, index) => {
            let t = element_in(scope, a)?;
            wanted(Scalar::Word, type_of(scope, index))?;
            Ok(t)
        }
        Expr::Tab(t, _, index) => {
            wanted(Scalar::Word, type_of(scope, index))?;
            Ok(*t)
        }
    }
}

/// An expression of the wanted type. Another type is a fault after those inside it.
pub fn wanted(t: Scalar, found: Result<Scalar, TypeWhy>) -> Result<Scalar, TypeWhy>
    ensures { result ≡ spec.wanted t found }
{
    let u = found?;
    if same_scalar(t, u) {
        Ok(u)
    } else {
        Err(TypeWhy::WrongType)
    }
}

fn both_wanted(
    t: Scalar,
    one: Result<Scalar, TypeWhy>,
    two: Result<Scalar, TypeWhy>,
) -> Result<Scalar, TypeWhy>
    ensures { result ≡ spec.both_wanted t one two }
{
    wanted(t, one)?;
    wanted(t, two)
}

/// A byte or a flag.
fn no_word(found: Result<Scalar, TypeWhy>) -> Result<Scalar, TypeWhy>
    ensures { result ≡ spec.no_word found }
{
    let t = found?;
    if same_scalar(Scalar::Word, t) {
        Err(TypeWhy::WrongType)
    } else {
        Ok(t)
    }
}
