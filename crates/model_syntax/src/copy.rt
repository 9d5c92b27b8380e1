//! Copies of expressions.
ghost use Rattle.std.specs.Prelude.{◌≡◌, IfOk};

use crate::expr::Expr;
use rup_base::{Box, List, Name, NoMemory};
use std::alloc::Global;

/// An equal expression.
#[cycle(expr)]
pub fn copy_expr(alloc: Global, e: &Expr) -> Result<Expr, NoMemory>
    ensures { IfOk result (λ copy. copy ≡ e.now) }
{
    match e {
        Expr::Lit(number) => Ok(Expr::Lit(*number)),
        Expr::Var(x) => Ok(Expr::Var(x.copy(alloc)?)),
        Expr::Length(a) => Ok(Expr::Length(a.copy(alloc)?)),
        Expr::Bin(op, left, right) => {
            let left = copy_boxed(alloc, left)?;
            let right = copy_boxed(alloc, right)?;
            Ok(Expr::Bin(*op, left, right))
        }
        Expr::Test(cmp, left, right) => {
            let left = copy_boxed(alloc, left)?;
            let right = copy_boxed(alloc, right)?;
            Ok(Expr::Test(*cmp, left, right))
        }
        Expr::Not(flag) => Ok(Expr::Not(copy_boxed(alloc, flag)?)),
        Expr::Both(left, right) => {
            let left = copy_boxed(alloc, left)?;
            let right = copy_boxed(alloc, right)?;
            Ok(Expr::Both(left, right))
        }
        Expr::Either(left, right) => {
            let left = copy_boxed(alloc, left)?;
            let right = copy_boxed(alloc, right)?;
            Ok(Expr::Either(left, right))
        }
        Expr::ToWord(scalar) => Ok(Expr::ToWord(copy_boxed(alloc, scalar)?)),
        Expr::ToByte(word) => Ok(Expr::ToByte(copy_boxed(alloc, word)?)),
        Expr::Get(a, index) => {
            let index = copy_boxed(alloc, index)?;
            Ok(Expr::Get(a.copy(alloc)?, index))
        }
        Expr::Tab(scalar, entries, index) => {
            let index = copy_boxed(alloc, index)?;
            Ok(Expr::Tab(*scalar, copy_entries(alloc, entries)?, index))
        }
    }
}

#[cycle(expr)]
fn copy_boxed(alloc: Global, e: &Expr) -> Result<Box<Expr>, NoMemory>
    ensures { IfOk result (λ copy. copy ≡ e.now) }
{
    let copy = copy_expr(alloc, e)?;
    Box::new(alloc, copy)
}

fn copy_entries(alloc: Global, entries: &List<u32>) -> Result<List<u32>, NoMemory>
    ensures { IfOk result (λ copy. copy ≡ entries.now) }
{
    let mut copy = List::new(alloc);
    for entry in entries.as_slice() {
        copy.push(*entry)?;
    }
    Ok(copy)
}
