//! The nodes of a file's list, from the first one on, each at its place in the tree.
ghost use Rattle.std.specs.Prelude.{◌≡◌, ◌≤◌, ◌<◌, ◌+◌, length, true, Some, IfOk};
ghost use Rattle.serde_json.specs.View.{view, items_view};
ghost use Rattle.rup_base.specs.Answers.{Answers};
ghost use Rattle.rup_base.specs.declared.fail.Fail.TheVariants as fail;
ghost use Rattle.rup_base.specs.declared.refusal.Refusal.TheVariants.{NodeCount, NotDerivation};
ghost use Rattle.deriv_tree.specs.Shape.{is_rewrite};
ghost use Rattle.deriv_file.specs.NodeList as spec;

use crate::node::node_of;
use crate::places::{Place, Places, calls};
use deriv_tree::Listed;
use rup_base::{Fail, List, Refusal};
use serde_json::Value;
use std::alloc::Global;

/// The nodes of the list, for an outer block of `block` nodes. They are judged in order up to the point where the tree is
/// whole; entries behind it are surplus, whatever they are.
pub fn nodes_of(alloc: Global, block: u64, items: &[Value]) -> Result<List<Listed>, Fail>
    requires block { block ≤ 20000 }
    requires few { length items.now ≤ 20000 }
    ensures { Answers result (spec.nodes_of block (items_view items.now)) }
{
    let total = items.len() as u32;
    let mut nodes = List::new(alloc);
    let mut places = Places::new(alloc, block);
    let mut needed = block;
    let mut at: u32 = 0;
    let mut left = items;
    while let [first, rest @ ..] = left {
        let Some(place) = places.take() else {
            return Err(node_count(total, at as u64));
        };
        let node = match node_at(alloc, at, place, first) {
            Ok(node) => node,
            Err(fail) => return Err(fail),
        };
        needed += calls(&node);
        places.call_for(place, &node)?;
        nodes.push(node)?;
        at += 1;
        left = rest;
    }
    if needed == total as u64 {
        Ok(nodes)
    } else {
        Err(node_count(total, needed))
    }
}

fn node_count(listed: u32, needed: u64) -> Fail
    ensures { result ≡ fail.Refused (NodeCount listed needed) }
{
    Fail::Refused(Refusal::NodeCount { listed, needed })
}

/// The entry of this number, where it is a node that the place takes.
fn node_at(alloc: Global, at: u32, place: Place, value: &Value) -> Result<Listed, Fail>
    ensures answer { Answers result (spec.node_at at place (view value.now)) }
    ensures shallow { IfOk result (λ _. place.depth ≤ 1000) }
    ensures rewrites { IfOk result (λ n. is_rewrite n.step.rule ≡ true → place.rewrites < 8) }
    ensures counts { IfOk result (λ n. length n.counts ≤ 2) }
{
    match node_of(alloc, value)? {
        Some(node) => if_admitted(at, place, node),
        None => Err(fault(at)),
    }
}

fn if_admitted(at: u32, place: Place, node: Listed) -> Result<Listed, Fail>
    requires counts { length node.counts ≤ 2 }
    ensures answer { Answers result (spec.or_fault at (spec.admitted place (Some node))) }
    ensures shallow { IfOk result (λ _. place.depth ≤ 1000) }
    ensures rewrites { IfOk result (λ n. is_rewrite n.step.rule ≡ true → place.rewrites < 8) }
    ensures counts { IfOk result (λ n. length n.counts ≤ 2) }
{
    if place.admits(node.step.rule) {
        Ok(node)
    } else {
        Err(fault(at))
    }
}

fn fault(at: u32) -> Fail
    ensures { result ≡ fail.Refused (NotDerivation (Some at)) }
{
    Fail::Refused(Refusal::NotDerivation { node: Some(at) })
}
