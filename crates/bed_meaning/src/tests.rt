//! That a memory and locals are made where memory is left, and what a run on them gives.

use crate::*;
use bed_syntax::{BExpr, BOp, Cmd};
use rup_base::{Box, List, Text};
use std::test::Fail;

#[test]
fn a_sum_wraps(rt: HostRuntime) -> Result<(), Fail> {
    let alloc = rt.alloc();
    let mut regions = List::new(alloc);
    regions.push((8, Text::from_slice(alloc, &[1, 2])?))?;
    let mut mem = BMem::new(alloc, regions)?;
    assert_eq!(rt; mem.get(9), Some(2));
    let mut locals = Locals::new(alloc, 3)?;
    locals.set(0, 4294967295);
    locals.set(1, 1);
    let left = Box::new(alloc, BExpr::Var(0))?;
    let right = Box::new(alloc, BExpr::Var(1))?;
    let c = Cmd::Set(2, BExpr::Bin(BOp::Add, left, right));
    let end = exec(2, &c, &mut mem, &mut locals);
    assert_eq!(rt; end, BEnd::Done { ticks: 11 });
    assert_eq!(rt; locals.get(2), Some(0));
    Ok(())
}
