//! That a text is made where memory is left, and what it looks like. No clause shows either.
use crate::*;
use rup_base::{Box, List};
use std::test::Fail;

#[test]
fn a_conditional_prints(rt: HostRuntime) -> Result<(), Fail> {
    let alloc = rt.alloc();
    let first = Box::new(alloc, Cmd::Seq(List::new(alloc)))?;
    let second = Box::new(alloc, Cmd::Set(12, BExpr::Var(3)))?;
    let cond = Cmd::Cond(BExpr::Lit(4294967295), first, second);
    let text = print_cmd(alloc, &cond)?;
    let want: &[u8] = b"(if 4294967295 (seq) (set v12 v3))";
    assert_eq!(rt; text.as_slice(), want, "the text of a conditional");
    Ok(())
}
