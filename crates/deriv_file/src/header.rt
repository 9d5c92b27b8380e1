//! The header of a derivation's file.
ghost use Rattle.std.specs.Prelude.{◌≡◌, ◌≤◌, IfOk, IfSome};
ghost use Rattle.serde_json.specs.View.{view};
ghost use Rattle.deriv_file.specs.File as spec;

use crate::number::{MOST_NODES, number_in};
use rup_base::{Name, NoMemory};
use serde_json::Value;
use std::alloc::Global;

/// The one version of the file.
const VERSION: u64 = 1;

/// Whether the value is an object of four members.
pub fn has_four_members(value: &Value) -> bool
    ensures { result ≡ spec.has_four_members (view value.now) }
{
    match value.as_object() {
        Some(members) => members.len() == 4,
        None => false,
    }
}

/// The number of nodes of the outer block.
pub fn block_of(value: &Value) -> Option<u64>
    ensures block { result ≡ spec.block_of (view value.now) }
    ensures limit { IfSome result (λ count. count ≤ 20000) }
{
    number_in(0, MOST_NODES, value)
}

pub fn version_of(value: &Value) -> Option<u64>
    ensures { result ≡ spec.version_of (view value.now) }
{
    number_in(VERSION, VERSION, value)
}

/// The name of the model.
pub fn model_of(alloc: Global, value: &Value) -> Result<Option<Name>, NoMemory>
    ensures { IfOk result (λ read. read ≡ spec.model_of (view value.now)) }
{
    match value.as_str() {
        Some(text) => Name::read(alloc, text.as_bytes()),
        None => Ok(None),
    }
}
