//! What no clause says: that the calls of a context succeed where memory is left. The answers are compared.
use crate::*;
use model_syntax::{Model, Scalar};
use rup_base::{List, Name};
use side_certs::Form;
use std::alloc::Global;
use std::test::Fail as Failed;

fn name(alloc: Global, text: &[u8]) -> Result<Name, Failed> {
    Ok(Name::read(alloc, text)?.ok_or("a name")?)
}

#[test]
fn a_context_grows(rt: HostRuntime) -> Result<(), Failed> {
    let model = Model {
        name: name(rt.alloc(), b"empty")?,
        params: List::new(rt.alloc()),
        requires_: List::new(rt.alloc()),
        body: List::new(rt.alloc()),
        rets: List::new(rt.alloc()),
    };
    let mut context = Ctx::start(rt.alloc(), &model)?;
    let x = name(rt.alloc(), b"x")?;
    assert_eq!(rt; context.fresh(9)?, Some(0), "a symbol");
    assert!(rt;
        context.bind(&x, 2, Form::symbol(0), Scalar::Byte)?,
        "a scalar"
    );
    context.set_scalar(&x, 3, Form::symbol(0), Scalar::Byte)?;
    assert!(rt; context.add_fact(Form::symbol(0))?, "a fact");
    assert!(rt; !context.move_clause(&x, &x)?, "no clause");
    context.reserve_local(7)?;
    let copy = context.copy()?;
    assert_eq!(rt;
        (copy.scalars().len(), copy.facts().len(), copy.tops()),
        (1, 1, [9].as_slice())
    );
    Ok(())
}
