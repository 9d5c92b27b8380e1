//! That code is emitted where memory is left, and what it is for one operation.
ghost use Rattle.std.specs.Prelude.{◌≡◌, ◌≤◌, IfOk};
ghost use Rattle.flat_lang.specs.Count.{code_weight};
ghost use Rattle.flat_lang.specs.Whole.{IsWhole};

use crate::*;
use bed_syntax::{BOp, Weights};
use flat_lang::{FStmt, Flat};
use reg_alloc::allocate;
use rup_base::{List, NoMemory};
use rv_code::encode;
use std::alloc::Global;
use std::test::Fail;

/// Variable 2 becomes the sum of the two arguments.
fn sum(alloc: Global) -> Result<Flat, NoMemory>
    ensures whole { IfOk result (λ f. IsWhole f) }
    ensures few { IfOk result (λ f. f.vars ≡ 3) }
    ensures light { IfOk result (λ f. code_weight Weights.LARGE f.body ≤ 100) }
{
    let mut body = List::new(alloc);
    body.push(FStmt::Bin(BOp::Add, 2, 0, 1))?;
    let mut rets = List::new(alloc);
    rets.push(2)?;
    Ok(Flat {
        body,
        vars: 3,
        args: 2,
        rets,
        tables: List::new(alloc),
    })
}

#[test]
fn a_sum_is_emitted(rt: HostRuntime) -> Result<(), Fail> {
    let f = sum(rt.alloc())?;
    let plan = allocate(rt.alloc(), &f)?;
    let emitted = emit(rt.alloc(), &f, &plan)?;
    // take the frame, two arguments into t3 and t4, add into t3, the result, give the frame back, return
    assert_eq!(rt; emitted.code.len(), 7);
    let sum = emitted.code.as_slice().get(3).ok_or("an addition")?;
    assert_eq!(rt; encode(*sum), 0x01de_0e33, "add t3, t3, t4");
    assert_eq!(rt; emitted.stack, 0);
    Ok(())
}
