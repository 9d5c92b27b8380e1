//! Which lemma rewrites an expression, and the nodes of its steps.
ghost use Rattle.std.specs.Prelude.{◌≡◌, ◌≤◌, length, IfOk};
ghost use Rattle.std.specs.Option.{ForSome};
ghost use Rattle.derive_search.specs.Lemmas as spec;

use crate::found::Found;
use crate::nodes::one;
use deriv_tree::{ExprNode, Rule, Step};
use equations::Book;
use lemma_files::{Lemma, expand};
use model_syntax::Expr;
use rup_base::{Box, List, NoMemory};
use std::alloc::Global;

/// The steps of the first lemma that rewrites the expression in at most `room` steps. A lemma that has more is passed over.
pub fn rewriting<B: Book>(
    alloc: Global,
    lemmas: &[Lemma],
    book: &B,
    room: usize,
    e: &Expr,
) -> Result<Option<List<u32>>, NoMemory>
    ensures found { IfOk result (λ steps. steps ≡ spec.rewriting (B.turn book.now) room e.now lemmas.now) }
    ensures few { IfOk result (λ found. ForSome found (λ steps. length steps ≤ room)) }
{
    for lemma in lemmas {
        if let Some(steps) = expand(alloc, lemma, e, book)? {
            if steps.len() <= room {
                return Ok(Some(steps));
            }
        }
    }
    Ok(None)
}

/// What was found for an expression that a step rewrites, from what was found for what it makes of it.
pub fn over_step(alloc: Global, step: u32, f: Found) -> Result<Found, NoMemory>
    ensures { IfOk result (λ found. found ≡ spec.over_step step f) }
{
    let Found { node: kid, out } = f;
    let node = ExprNode {
        step: Step {
            rule: Rule::ERw,
            args: one(alloc, i64::from(step))?,
            certs: List::new(alloc),
        },
        kids: one(alloc, Box::new(alloc, kid)?)?,
    };
    Ok(Found { node, out })
}
