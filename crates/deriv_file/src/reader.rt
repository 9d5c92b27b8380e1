//! The reader of a derivation's file: JSON, then the header, then the nodes, then the tree.
ghost use Rattle.std.specs.Prelude.{◌≡◌, ◌<◌, ◌≤◌, ◌^◌, length, None, IfOk, MatchOption};
ghost use Rattle.serde_json.specs.View.{view, items_view};
ghost use Rattle.rup_base.specs.Answers.{Answers};
ghost use Rattle.rup_base.specs.declared.fail.Fail.TheVariants as fail;
ghost use Rattle.rup_base.specs.declared.refusal.Refusal.TheVariants.{NotDerivation, OverNodes};
ghost use Rattle.deriv_tree.specs.declared.tree.Derivation.{Derivation as AnyDerivation};
ghost use Rattle.deriv_tree.specs.Shape.{IsWhole};
ghost use Rattle.deriv_file.specs.File as spec;

use crate::forest::body_of;
use crate::header::{block_of, has_four_members, model_of, version_of};
use crate::node_list::nodes_of;
use crate::number::MOST_NODES;
use deriv_tree::Derivation;
use rup_base::{Fail, Name, NoMemory, Refusal};
use serde_json::Value;
use std::alloc::Global;

/// The derivation whose file the bytes are: they have a JSON value, which is the header and the preorder list of the
/// derivation, within the limits. Else the refusal is the first of these: `NotJson`, `NotDerivation` of the header,
/// `OverNodes` with the number of nodes, `NotDerivation` of the first wrong node, and `NodeCount` with the number of
/// nodes that are listed and the number that is needed. The time is linear in the number of bytes.
pub fn read_derivation(alloc: Global, bytes: &[u8]) -> Result<Derivation, Fail>
    requires { length bytes.now ≤ 2 ^ 24 }
    ensures file { IfOk result (λ d. spec.File bytes.now d) }
    ensures exact { (d : AnyDerivation) → spec.File bytes.now d → spec.Gives d result }
    ensures answer { spec.Reads bytes.now result }
    ensures whole { IfOk result (λ d. IsWhole d) }
{
    answer(alloc, bytes)
}

#[tactic(auto, using(crate::proofs::Answered::answered))]
fn answer(alloc: Global, bytes: &[u8]) -> Result<Derivation, Fail>
    requires { length bytes.now ≤ 2 ^ 24 }
    ensures { spec.Reads bytes.now result }
{
    match read_value(alloc, bytes)? {
        Some(value) => derivation_of(alloc, &value),
        None => Err(Fail::Refused(Refusal::NotJson)),
    }
}

fn read_value(alloc: Global, bytes: &[u8]) -> Result<Option<Value>, NoMemory>
    ensures { IfOk result (λ read. MatchOption read (spec.HasNoValue bytes.now) (λ v. spec.HasValue bytes.now (view v))) }
{
    match Value::from_slice(alloc, bytes) {
        Ok(value) => Ok(Some(value)),
        Err(error) if error.is_memory() => Err(NoMemory),
        Err(_) => Ok(None),
    }
}

fn header_fault() -> Fail
    ensures { result ≡ fail.Refused (NotDerivation None) }
{
    Fail::Refused(Refusal::NotDerivation { node: None })
}

fn derivation_of(alloc: Global, value: &Value) -> Result<Derivation, Fail>
    requires { spec.HasCountableNodes (view value.now) }
    ensures { Answers result (spec.derivation_of (view value.now)) }
{
    if !has_four_members(value) {
        return Err(header_fault());
    }
    let (Some(block), Some(version)) = (value.get("block"), value.get("deriv")) else {
        return Err(header_fault());
    };
    let (Some(model), Some(nodes)) = (value.get("model"), value.get("nodes")) else {
        return Err(header_fault());
    };
    derivation_of_parts(alloc, block, version, model, nodes)
}

fn derivation_of_parts(
    alloc: Global,
    block: &Value,
    version: &Value,
    model: &Value,
    nodes: &Value,
) -> Result<Derivation, Fail>
    requires { spec.IsCountable (view nodes.now) }
    ensures { Answers result (spec.derivation_of_parts (view block.now) (view version.now) (view model.now) (view nodes.now)) }
{
    let Some(block) = block_of(block) else {
        return Err(header_fault());
    };
    if version_of(version).is_none() {
        return Err(header_fault());
    }
    let Some(model) = model_of(alloc, model)? else {
        return Err(header_fault());
    };
    let Some(items) = nodes.as_array() else {
        return Err(header_fault());
    };
    derivation_of_nodes(alloc, block, model, items.as_slice())
}

#[tactic(auto, using(crate::proofs::Counted::items_count))]
fn derivation_of_nodes(
    alloc: Global,
    block: u64,
    model: Name,
    items: &[Value],
) -> Result<Derivation, Fail>
    requires block { block ≤ 20000 }
    requires countable { length items.now < 2 ^ 32 }
    ensures { Answers result (spec.derivation_of_nodes block model (items_view items.now)) }
{
    if items.len() as u64 > MOST_NODES {
        return Err(over_nodes(items.len()));
    }
    let nodes = nodes_of(alloc, block, items)?;
    let body = body_of(alloc, block as usize, nodes)?;
    Ok(Derivation { model, body })
}

fn over_nodes(count: usize) -> Fail
    requires { count < 2 ^ 32 }
    ensures { result ≡ fail.Refused (OverNodes count) }
{
    Fail::Refused(Refusal::OverNodes {
        count: count as u32,
    })
}
