//! What no clause says: that the calls answer where memory is left.
use crate::{Lemma, expand, read_lemmas};
use equations::WordBook;
use model_syntax::{Expr, Op};
use rup_base::{Box, List, NoMemory};
use std::alloc::Global;
use std::test::Fail as Failed;

/// `(mul 5 8)`
fn product(alloc: Global) -> Result<Expr, NoMemory> {
    let left = Box::new(alloc, Expr::Lit(5))?;
    Ok(Expr::Bin(Op::Mul, left, Box::new(alloc, Expr::Lit(8))?))
}

/// The only lemma expands the expression to step 9 alone.
fn expands_to_nine(alloc: Global, lemmas: &[Lemma], e: &Expr) -> Result<bool, NoMemory> {
    match lemmas {
        [lemma] => Ok(is_nine(expand(alloc, lemma, e, &WordBook)?)),
        _ => Ok(false),
    }
}

fn is_nine(steps: Option<List<u32>>) -> bool {
    match steps {
        Some(steps) => steps.as_slice() == [9].as_slice(),
        None => false,
    }
}

#[test]
fn a_rewriting_is_read_and_expands(rt: HostRuntime) -> Result<(), Failed> {
    let text = b"(lemmas (rewrite r (mul ?x 8) (steps 9)))".as_slice();
    let lemmas = read_lemmas(rt.alloc(), 1, text)?;
    let product = product(rt.alloc())?;
    let nine = expands_to_nine(rt.alloc(), lemmas.as_slice(), &product)?;
    assert!(rt; nine, "the product by 8 is a shift");
    Ok(())
}
