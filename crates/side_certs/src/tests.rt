//! A certificate that was worked out by hand.
use crate::*;
use rup_base::List;
use std::test::*;

/// 2*s0 - 1 is a fact, so s0 - 1 is at least 0: twice it and 1 are the fact.
#[test]
fn half_of_a_fact_closes(rt: HostRuntime) -> Result<(), Fail> {
    let less = Form::constant(-1).ok_or("the constant")?;
    let twice = Form::symbol(0).scale(2).ok_or("the multiple")?;
    let facts = [twice.add(&less).ok_or("the fact")?];
    let goal = Form::symbol(0).add(&less).ok_or("the goal")?;
    let mut entries = List::new(rt.alloc());
    entries.push(Entry {
        kind: 0,
        number: 0,
        mult: 1,
    })?;
    assert!(rt; closes(&facts, &[], &goal, &Cert { d: 2, entries }));
    Ok(())
}
