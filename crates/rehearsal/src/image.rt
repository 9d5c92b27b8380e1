//! The image of the command.
ghost use Rattle.std.specs.Prelude.{IfOk};
ghost use Rattle.pipeline.specs.Written.{Written};
ghost use Rattle.rehearsal.specs.Example as example;

use crate::command::command;
use crate::model::typed;
use rup_base::{NoMemory, Text};
use std::alloc::Global;

/// The image of the command, which is written for the model. The error is want of memory alone.
#[tactic(auto, using(crate::proofs::Computed::computes, crate::proofs::Measured::measured, crate::proofs::Measured::small))]
pub fn rehearsed(alloc: Global) -> Result<Text, NoMemory>
    ensures written { IfOk result (λ bytes. Written example.model example.body example.bound 84 bytes) }
{
    let model = typed(alloc)?;
    let command = command(alloc)?;
    pipeline::image(alloc, &model, &command)
}
