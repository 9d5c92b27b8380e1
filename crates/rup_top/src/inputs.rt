//! What commands read: the limits of files, and the model of a text.
ghost use Rattle.std.specs.Prelude.{◌≤◌, length};
ghost use Rattle.rup_base.specs.Answers.{Answers};
ghost use Rattle.model_types.specs.Checked.{model_of};
ghost use Rattle.rup_top.specs.Inputs as spec;

use model_reader::read_model;
use model_types::{Typed, check_types};
use rup_base::Fail;
use std::alloc::Global;

/// The greatest length of a model's file, in bytes.
pub const MODEL_LIMIT: u32 = 1_048_576;

/// The greatest length of a lemma file, in bytes.
pub const LEMMA_LIMIT: u32 = 1_048_576;

/// The greatest length of a derivation's file, in bytes.
pub const TREE_LIMIT: u32 = 16_777_216;

/// The greatest length of an image's file, in bytes.
pub const IMAGE_LIMIT: u32 = 2_097_152;

/// The well typed model of the bytes of word 1, or the first refusal.
pub fn typed_model(alloc: Global, bytes: &[u8]) -> Result<Typed, Fail>
    requires { length bytes.now ≤ spec.model_limit }
    ensures { Answers (model_of result) (spec.typed_model bytes.now) }
{
    let model = read_model(alloc, 1, bytes)?;
    check_types(alloc, model)
}
