//! The search of a derivation of a model.
ghost use Rattle.std.specs.Prelude.{◌≡◌, ◌≤◌, true, length, IfOk};
ghost use Rattle.rup_base.specs.Answers.{Answers};
ghost use Rattle.stmt_rules.specs.Narrow.{are_narrow};
ghost use Rattle.derive_search.specs.Derive as spec;
ghost use Rattle.derive_search.specs.Instance.{IsInstance};
ghost use Rattle.derive_search.specs.Guide.{guided};

use crate::guide::Guide;
use crate::locals::Homes;
use crate::seeker::Seeker;
use crate::statements::seek_block;
use deriv_tree::{Block, Derivation};
use equations::Book;
use lemma_files::Lemma;
use model_syntax::{Model, first_names};
use model_types::Typed;
use replayer::ends::{are_kept, are_named};
use rup_base::{Fail, Goal, Refusal};
use std::alloc::Global;
use sym_heap::Ctx;

/// The greatest number of nodes, and so of goals inside one another.
const MOST_NODES: u32 = 20_000;

/// The derivation of a model that the stated order finds with these
/// lemmas, whose steps are the book's, or `Stuck` with the first goal
/// without a row that fits, or `OverNodes` at the first node too many,
/// whichever comes first. What it finds is whole and an instance
/// of the rules.
pub fn derive<B: Book>(
    alloc: Global,
    m: &Typed,
    lemmas: &[Lemma],
    book: &B,
) -> Result<Derivation, Fail>
    requires steps { spec.have_steps lemmas.now ≡ true }
    ensures found { Answers result (spec.derived lemmas.now (B.turn book.now) m.now.inner) }
    ensures instance { IfOk result (λ d. IsInstance lemmas.now (B.turn book.now) m.now.inner d) }
{
    derived(alloc, m, lemmas, book)
}

/// The search from the context at the start.
#[tactic(auto, using(model_syntax::proofs::laws::Parameters::few_params, stmt_rules::proofs::laws::Narrow::model_narrow))]
fn derived<'a, B: Book>(
    alloc: Global,
    m: &Typed,
    lemmas: &'a [Lemma],
    book: &'a B,
) -> Result<Derivation, Fail>
    ensures { Answers result (spec.derived lemmas.now (B.turn book.now) m.now.inner) }
{
    let model = m.model();
    let ctx = Ctx::start(alloc, model)?;
    let names = first_names(alloc, model)?;
    let start = ctx.mark()?;
    let homes = Homes {
        params: start.scalars(),
        names: names.as_slice(),
        args: ctx.scalars().len() + ctx.clauses().len(),
    };
    let s = Seeker {
        ctx,
        entered: 0,
        stmts: 0,
    };
    let guide = Guide {
        homes,
        lemmas,
        book,
    };
    search(alloc, s, &guide, MOST_NODES, model)
}

/// The statements in order, and then the end.
fn search<B: Book>(
    alloc: Global,
    s: Seeker,
    guide: &Guide<'_, '_, B>,
    deep: u32,
    m: &Model,
) -> Result<Derivation, Fail>
    requires few { length m.now.params ≤ 8 }
    requires counted { s.stmts ≤ s.entered }
    requires narrow { are_narrow m.now.body ≡ true }
    ensures { Answers result (spec.searched (guided B.turn guide.now) deep m.now s) }
{
    let mut s = s;
    let nodes = seek_block(&mut s, guide, deep, m.body.as_slice())?;
    if !is_end(&s.ctx, m) {
        return Err(Fail::Refused(Refusal::Stuck {
            stmt: s.stmts,
            goal: Goal::End,
        }));
    }
    Ok(Derivation {
        model: m.name.copy(alloc)?,
        body: Block { nodes },
    })
}

/// Returned arrays have their names, and no other array was written.
fn is_end(ctx: &Ctx, m: &Model) -> bool
    requires { length m.now.params ≤ 8 }
    ensures { result ≡ spec.is_end m.now ctx.now }
{
    are_named(ctx, m.params.as_slice(), m.rets.as_slice())
        && are_kept(ctx, m.params.as_slice(), m.rets.as_slice())
}
