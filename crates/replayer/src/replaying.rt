//! `replay`: the check of a derivation against a model.
ghost use Rattle.std.specs.Prelude.{◌≤◌, IfOk};
ghost use Rattle.rup_base.specs.Answers.{Answers};
ghost use Rattle.model_syntax.specs.Spelling.{Spellable};
ghost use Rattle.model_syntax.specs.Types.{Well};
ghost use Rattle.deriv_tree.specs.Shape.{IsWhole};
ghost use Rattle.model_command.specs.Computes.{Computes};
ghost use Rattle.model_command.specs.Measures.{IsMeasured, IsSmall};
ghost use Rattle.replayer.specs.Replayed as spec;

use crate::checked::Checked;
use crate::instance::instance;
use crate::limits::limited;
use bed_syntax::Weights;
use deriv_tree::Derivation;
use equations::Book;
use model_syntax::Model;
use model_types::Typed;
use rup_base::Fail;
use std::alloc::Global;
use stmt_rules::{blocks_are_sound, commands_are_small};
use sym_heap::{Ctx, start_fits, start_is_scoped};

/// What a derivation of a model comes to, or else the first refusal: `NoInstance` or `BadCertificate` with the first fault of a
/// node or of the end, then `OverSlots`, `OverBound` and `OverSize`. `most` is the most bytes of code.
pub fn replay<B: Book>(
    alloc: Global,
    m: &Typed,
    d: &Derivation,
    most: u32,
    book: &B,
) -> Result<Checked, Fail>
    requires whole { IsWhole d.now }
    requires size { most ≤ 1_000_000 }
    ensures accepted { Answers result (spec.replayed (B.turn book.now) m.now.inner d.now most) }

    // The command computes the model: from every start with arguments that meet it.
    ensures computes { IfOk result (λ c. Computes Weights.LARGE m.now.inner c.command) }
    ensures measured { IfOk result (λ c. IsMeasured Weights.LARGE m.now.inner c.command) }
    ensures small { IfOk result (λ c. IsSmall c.command) }
{
    // for the proof alone: what holds of contexts at the start, and of what nodes give
    start_fits();
    start_is_scoped();
    blocks_are_sound();
    commands_are_small();
    check(alloc, m.model(), d, most, book)
}

/// The check itself.
#[tactic(auto, using(crate::proofs::Taken::few_registers, crate::proofs::Taken::few_rets, model_syntax::proofs::laws::Parameters::few_params, stmt_rules::proofs::laws::Narrow::model_narrow))]
fn check<B: Book>(
    alloc: Global,
    m: &Model,
    d: &Derivation,
    most: u32,
    book: &B,
) -> Result<Checked, Fail>
    requires whole { IsWhole d.now }
    requires well { Well m.now }
    requires spellable { Spellable m.now }
    ensures { Answers result (spec.replayed (B.turn book.now) m.now d.now most) }
{
    // for the proof alone: how large the commands are at most
    commands_are_small();
    let mut ctx = Ctx::start(alloc, m)?;
    let out = instance(&mut ctx, m, d, book)?;
    limited(alloc, m, &ctx, out, d, most)
}
