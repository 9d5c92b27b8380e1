//! A code with ample memory: how many statements, variables and tables it has.
ghost use Rattle.std.specs.Prelude.{◌≡◌, ◌+◌, IfOk};
ghost use Rattle.bed_syntax.specs.Shape.{expr_size};

use crate::*;
use bed_syntax::{BExpr, BOp, Cmd};
use rup_base::{Box, NoMemory};
use std::alloc::Global;
use std::test::Fail;

fn sum(alloc: Global, a: BExpr, b: BExpr) -> Result<BExpr, NoMemory>
    ensures { IfOk result (λ e. expr_size e ≡ 1 + (expr_size a + expr_size b)) }
{
    let left = Box::new(alloc, a)?;
    let right = Box::new(alloc, b)?;
    Ok(BExpr::Bin(BOp::Add, left, right))
}

#[test]
fn a_sum_of_the_arguments(rt: HostRuntime) -> Result<(), Fail> {
    let c = Cmd::Set(2, sum(rt.alloc(), BExpr::Var(0), BExpr::Var(1))?);
    let flat = flatten(rt.alloc(), &c, 2, &[2])?;
    assert_eq!(rt; flat.body.len(), 4, "a statement for each node");
    assert_eq!(rt; flat.vars, 5, "three locals and a depth of two");
    assert_eq!(rt; flat.args, 2);
    assert_eq!(rt; flat.rets.as_slice(), [2].as_slice());
    assert_eq!(rt; flat.tables.len(), 0);
    Ok(())
}
