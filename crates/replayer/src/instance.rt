//! Whether a derivation is an instance: each node of its rule, and the conditions of the end.
ghost use Rattle.std.specs.Prelude.{◌≡◌, ◌≤◌, true, length};
ghost use Rattle.rup_base.specs.Answers.{AnswersWith};
ghost use Rattle.deriv_tree.specs.Shape.{IsWhole};
ghost use Rattle.stmt_rules.specs.Narrow.{are_narrow};
ghost use Rattle.replayer.specs.Replayed as spec;

use crate::ends::{are_kept, are_named};
use deriv_tree::Derivation;
use equations::Book;
use expr_rules::words::need;
use model_syntax::Model;
use rup_base::Fail;
use stmt_rules::{StmtOut, block_instance};
use sym_heap::Ctx;

/// The condition of a statement of the outer block that has no node.
const MISSING: u32 = 4;

/// The condition of a returned array.
const NAMED: u32 = 5;

/// The condition of an array that is not returned.
const KEPT: u32 = 6;

/// The commands that a derivation derives from the context at the start, or the first fault. Conditions of the end fail at the
/// number of nodes.
pub fn instance<B: Book>(
    ctx: &mut Ctx,
    m: &Model,
    d: &Derivation,
    book: &B,
) -> Result<StmtOut, Fail>
    requires whole { IsWhole d.now }
    requires few { length m.now.params ≤ 8 }
    requires narrow { are_narrow m.now.body ≡ true }
    ensures { AnswersWith result ctx.new (spec.instance (B.turn book.now) m.now d.now ctx.old) }
{
    need(d.model == m.name, 0, 0)?;
    let nodes = d.size();
    let out = block_instance(ctx, 0, nodes, MISSING, m.body.as_slice(), &d.body, book)?;
    need(
        are_named(ctx, m.params.as_slice(), m.rets.as_slice()),
        nodes,
        NAMED,
    )?;
    need(
        are_kept(ctx, m.params.as_slice(), m.rets.as_slice()),
        nodes,
        KEPT,
    )?;
    Ok(out)
}
