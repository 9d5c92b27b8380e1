//! What no clause says: that the calls succeed where memory is left, and what the counts are of a model
//! whose counts were taken by hand.
use crate::*;
use rup_base::{Box, List, Name, NoMemory};
use std::alloc::Global;
use std::test::Fail as Failed;

/// `(tab word (7) 0)`, which has 4 bytes of tables and depth 2.
fn table(alloc: Global) -> Result<Expr, NoMemory> {
    let mut entries = List::new(alloc);
    entries.push(7)?;
    Ok(Expr::Tab(Scalar::Word, entries, Box::new(alloc, Expr::Lit(0))?))
}

/// `(let x e)`, as a block.
fn block(alloc: Global, x: Name, e: Expr) -> Result<List<Stmt>, NoMemory> {
    let mut block = List::new(alloc);
    block.push(Stmt::Let(x, e))?;
    Ok(block)
}

/// `(model m (params) (require) (do BODY) (ret))`
fn model(alloc: Global, name: Name, body: List<Stmt>) -> Model {
    Model {
        name,
        params: List::new(alloc),
        requires_: List::new(alloc),
        body,
        rets: List::new(alloc),
    }
}

fn counts(model: &Model) -> [u32; 4] {
    [
        statements(model),
        expression_depth(model),
        block_depth(model),
        table_bytes(model),
    ]
}

#[test]
fn copies_are_made(rt: HostRuntime) -> Result<(), Failed> {
    let original = table(rt.alloc())?;
    let Expr::Tab(Scalar::Word, entries, at) = copy_expr(rt.alloc(), &original)? else {
        return Err("a table of words".into());
    };
    assert_eq!(rt; entries.as_slice(), [7].as_slice());
    assert!(rt; matches!(*at, Expr::Lit(0)), "the place 0");
    Ok(())
}

#[test]
fn a_model_is_counted(rt: HostRuntime) -> Result<(), Failed> {
    let name = Name::read(rt.alloc(), b"m")?.ok_or("a name")?;
    let bound = name.copy(rt.alloc())?;
    let body = block(rt.alloc(), bound, table(rt.alloc())?)?;
    let model = model(rt.alloc(), name, body);
    assert_eq!(rt; counts(&model), [1, 2, 1, 4]);
    assert_eq!(rt; over_limit(&model).is_none(), true);
    let names = first_names(rt.alloc(), &model)?;
    let [only] = names.as_slice() else {
        return Err("one name".into());
    };
    assert_eq!(rt; only.text(), b"m".as_slice());
    Ok(())
}
