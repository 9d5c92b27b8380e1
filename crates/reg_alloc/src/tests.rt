// The plan of a small code, and its arguments that are live, with ample memory.

use crate::{At, allocate, live_arguments};
use flat_lang::{FStmt, Flat};
use rup_base::List;
use std::process::Abort;
use std::test::Fail;

#[test]
fn variables_that_are_never_needed_at_once_share_a_register(rt: HostRuntime) -> Result<(), Fail> {
    let mut body = List::new(rt.alloc());
    body.push(FStmt::Copy(1, 0))?;
    body.push(FStmt::Copy(2, 1))?;
    let mut rets = List::new(rt.alloc());
    rets.push(0)?;
    rets.push(2)?;
    let flat = Flat {
        body,
        vars: 3,
        args: 1,
        rets,
        tables: List::new(rt.alloc()),
    };
    let plan = allocate(rt.alloc(), &flat)?;
    let wanted = [At::Reg(28), At::Reg(29), At::Reg(29)];
    assert_eq!(&rt; plan.places.as_slice(), wanted.as_slice());
    Ok(())
}

#[test]
fn an_argument_that_is_written_first_is_not_live(rt: HostRuntime) -> Result<(), Fail> {
    let mut body = List::new(rt.alloc());
    body.push(FStmt::Lit(0, 7))?;
    body.push(FStmt::Copy(2, 1))?;
    let mut rets = List::new(rt.alloc());
    rets.push(0)?;
    rets.push(2)?;
    let flat = Flat {
        body,
        vars: 3,
        args: 2,
        rets,
        tables: List::new(rt.alloc()),
    };
    let live = live_arguments(rt.alloc(), &flat)?;
    assert_eq!(&rt; live.as_slice(), [1].as_slice());
    Ok(())
}
