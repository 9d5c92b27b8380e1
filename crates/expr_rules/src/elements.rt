//! Elements of arrays and entries of tables, which have one byte or four: their size, and where they stand.
ghost use Rattle.std.specs.Prelude.{◌≡◌, IfOk};
ghost use Rattle.sym_heap.specs.Elements.{element_top};
ghost use Rattle.expr_rules.specs.Elements as spec;

use crate::words::operation;
use bed_syntax::{BExpr, BOp, Size};
use rup_base::NoMemory;
use std::alloc::Global;
use sym_heap::Clause;

/// What is loaded or looked up of so many bytes.
pub fn size_of(bytes: u32) -> Size
    ensures { result ≡ spec.size_of bytes }
{
    if bytes == 1 { Size::One } else { Size::Four }
}

/// The greatest element of so many bytes.
pub fn element_top(bytes: u32) -> u32
    ensures { result ≡ element_top bytes }
{
    if bytes == 1 { 255 } else { u32::MAX }
}

/// The bytes that stand before the element of an index.
pub fn offset(alloc: Global, bytes: u32, index: BExpr) -> Result<BExpr, NoMemory>
    ensures { IfOk result (λ code. code ≡ spec.offset bytes index) }
{
    if bytes == 1 {
        Ok(index)
    } else {
        operation(alloc, BOp::Slu, index, BExpr::Lit(2))
    }
}

/// The address of the element of an index.
pub fn address(alloc: Global, clause: &Clause, index: BExpr) -> Result<BExpr, NoMemory>
    ensures { IfOk result (λ code. code ≡ spec.address clause.now index) }
{
    let before = offset(alloc, clause.size, index)?;
    operation(alloc, BOp::Add, BExpr::Var(clause.pointer), before)
}
