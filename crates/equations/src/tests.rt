//! What no clause says: that the book answers where memory is left.
use crate::{Book, WordBook};
use model_syntax::{Expr, Op};
use rup_base::{Box, NoMemory};
use std::alloc::Global;
use std::test::Fail as Failed;

/// `(mul 5 8)`
fn product(alloc: Global) -> Result<Expr, NoMemory> {
    let left = Box::new(alloc, Expr::Lit(5))?;
    Ok(Expr::Bin(Op::Mul, left, Box::new(alloc, Expr::Lit(8))?))
}

#[test]
fn a_product_by_a_power_of_two_is_a_shift(rt: HostRuntime) -> Result<(), Failed> {
    let Some(Expr::Bin(Op::Shl, left, right)) = WordBook.apply(
        rt.alloc(),
        9,
        &product(rt.alloc())?,
    )?
    else {
        return Err("a shift to the left".into());
    };
    assert_eq!(rt; matches!(*left, Expr::Lit(5)), true);
    assert_eq!(rt; matches!(*right, Expr::Lit(3)), true);
    Ok(())
}
