//! Whole numbers of a file. A number that is written with a point or an exponent is none.
ghost use Rattle.std.specs.Prelude.{◌≡◌, ◌≤◌, IfOk, IfSome};
ghost use Rattle.serde_json.specs.View.{view, items_view};
ghost use Rattle.deriv_file.specs.Numbers as spec;

use rup_base::{List, NoMemory};
use serde_json::Value;
use std::alloc::Global;

/// The greatest magnitude of an argument.
const GREATEST_ARGUMENT: u64 = 1 << 40;

/// The greatest number of nodes of a tree, and of a block.
pub const MOST_NODES: u64 = 20_000;

/// The number that the value is, where it is one from `least` to `greatest`.
pub fn number_in(least: u64, greatest: u64, value: &Value) -> Option<u64>
    ensures number { result ≡ spec.number_in least greatest (view value.now) }
    ensures limit { IfSome result (λ n. n ≤ greatest) }
{
    let n = value.as_u64()?;
    if least <= n && n <= greatest {
        Some(n)
    } else {
        None
    }
}

fn argument_of(value: &Value) -> Option<i64>
    ensures { result ≡ spec.argument_of (view value.now) }
{
    let whole = value.as_i64()?;
    if whole.unsigned_abs() <= GREATEST_ARGUMENT {
        Some(whole)
    } else {
        None
    }
}

/// The arguments of a rule.
pub fn arguments_of(alloc: Global, items: &[Value]) -> Result<Option<List<i64>>, NoMemory>
    ensures { IfOk result (λ read. read ≡ spec.arguments_of (items_view items.now)) }
{
    let mut arguments = List::new(alloc);
    let mut left = items;
    while let [first, rest @ ..] = left {
        match argument_of(first) {
            Some(argument) => arguments.push(argument)?,
            None => return Ok(None),
        }
        left = rest;
    }
    Ok(Some(arguments))
}

fn count_of(value: &Value) -> Option<u32>
    ensures { result ≡ spec.count_of (view value.now) }
{
    let count = number_in(0, MOST_NODES, value)?;
    Some(count as u32)
}

/// The numbers of nodes of a node's blocks.
pub fn counts_of(alloc: Global, items: &[Value]) -> Result<Option<List<u32>>, NoMemory>
    ensures { IfOk result (λ read. read ≡ spec.counts_of (items_view items.now)) }
{
    let mut counts = List::new(alloc);
    let mut left = items;
    while let [first, rest @ ..] = left {
        match count_of(first) {
            Some(count) => counts.push(count)?,
            None => return Ok(None),
        }
        left = rest;
    }
    Ok(Some(counts))
}
