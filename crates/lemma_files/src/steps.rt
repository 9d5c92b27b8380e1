//! What a lemma makes of an expression.
ghost use Rattle.std.specs.Prelude.{◌≡◌, Ok, IfOk};
ghost use Rattle.lemma_files.specs.Steps as spec;

use crate::matching::matches;
use crate::terms::Lemma;
use equations::Book;
use model_syntax::{Expr, copy_expr};
use rup_base::{List, NoMemory};
use std::alloc::Global;

/// Whether each of the steps applies when they are applied in turn.
fn applies<B: Book>(alloc: Global, steps: &[u32], e: &Expr, book: &B) -> Result<bool, NoMemory>
    ensures { IfOk result (λ applies. applies ≡ spec.applies (B.turn book.now) steps.now e.now) }
{
    let mut x = copy_expr(alloc, e)?;
    for step in steps {
        match book.apply(alloc, *step, &x)? {
            Some(next) => x = next,
            None => return Ok(false),
        }
    }
    Ok(true)
}

fn copy_steps(alloc: Global, steps: &[u32]) -> Result<List<u32>, NoMemory>
    ensures { IfOk result (λ copy. copy ≡ steps.now) }
{
    let mut copy = List::new(alloc);
    for step in steps {
        copy.push(*step)?;
    }
    Ok(copy)
}

/// The steps by which the lemma rewrites the expression. `None` exactly where the lemma is a note, its pattern does not
/// match, or one of its steps does not apply when they are applied in turn.
pub fn expand<B: Book>(
    alloc: Global,
    l: &Lemma,
    e: &Expr,
    book: &B,
) -> Result<Option<List<u32>>, NoMemory>
    ensures { IfOk result (λ answer. answer ≡ spec.expand (B.turn book.now) l.now e.now) }
{
    match l {
        Lemma::Note(_, _, _) => Ok(None),
        Lemma::Rewrite(_, pattern, steps) => {
            if matches(alloc, pattern, e)? && applies(alloc, steps.as_slice(), e, book)? {
                Ok(Some(copy_steps(alloc, steps.as_slice())?))
            } else {
                Ok(None)
            }
        }
    }
}
