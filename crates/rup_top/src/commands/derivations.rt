//! What the commands that take a model and a derivation have in common.
ghost use Rattle.std.specs.Prelude.{◌≡◌, ◌≤◌, length, IfOk, IfErr};
ghost use Rattle.equations.specs.Equations.{turn};
ghost use Rattle.model_command.specs.Computes.{Computes};
ghost use Rattle.model_command.specs.Measures.{IsMeasured, IsSmall};
ghost use Rattle.rup_base.specs.Answers.{Answers};
ghost use Rattle.rup_top.specs.Inputs.{model_limit, tree_limit};
ghost use Rattle.rup_top.specs.Steps.{EndsOnDerivation};
ghost use Rattle.rup_top.specs.Words.{most_size};
ghost use Rattle.rup_top.specs.commands.Derivations as spec;

use crate::inputs::typed_model;
use bed_syntax::Weights;
use deriv_file::read_derivation;
use equations::WordBook;
use model_types::Typed;
use replayer::{Checked, replay};
use rup_base::Fail;
use std::alloc::Global;

/// A model and what its derivation derives.
#[derive(Debug, Drop)]
pub struct Accepted {
    pub typed: Typed,
    pub checked: Checked,
}

/// The model and the derivation of these bytes, or the first refusal: of the model, of the derivation's file, of the
/// derivation. The size is that of the code, at most 1,000,000 bytes.
pub fn judge(alloc: Global, model: &[u8], tree: &[u8], size: u32) -> Result<Accepted, Fail>
    requires model { length model.now ≤ model_limit }
    requires tree { length tree.now ≤ tree_limit }
    requires size { size ≤ most_size }
    ensures accepts { IfOk result (λ a. spec.Accepts size model.now tree.now a.typed.inner a.checked) }
    ensures refuses { IfErr result (λ fail. EndsOnDerivation size model.now tree.now fail) }
    ensures computes { IfOk result (λ a. Computes Weights.LARGE a.typed.inner a.checked.command) }
    ensures measured { IfOk result (λ a. IsMeasured Weights.LARGE a.typed.inner a.checked.command) }
    ensures small { IfOk result (λ a. IsSmall a.checked.command) }
{
    let typed = typed_model(alloc, model)?;
    let derivation = read_derivation(alloc, tree)?;
    let checked = replay(alloc, &typed, &derivation, size, &WordBook)?;
    Ok(Accepted { typed, checked })
}
