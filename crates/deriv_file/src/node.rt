//! A node of a file: `[rule, args, certs]`, and behind them the numbers of nodes of its blocks where its rule has blocks.
ghost use Rattle.std.specs.Prelude.{◌≡◌, ◌≤◌, IfOk, IfSome, length};
ghost use Rattle.serde_json.specs.View.{view, items_view};
ghost use Rattle.deriv_file.specs.Node as spec;

use crate::certificate_list::certs_of;
use crate::number::{arguments_of, counts_of};
use deriv_tree::{Listed, Rule, Step};
use rup_base::{List, NoMemory};
use serde_json::Value;
use side_certs::Cert;
use std::alloc::Global;

/// The node, where the value is one.
pub fn node_of(alloc: Global, value: &Value) -> Result<Option<Listed>, NoMemory>
    ensures node { IfOk result (λ read. read ≡ spec.node_of (view value.now)) }
    ensures few { IfOk result (λ read. IfSome read (λ n. length n.counts ≤ 2)) }
{
    let Some(items) = value.as_array() else {
        return Ok(None);
    };
    node_of_items(alloc, items.as_slice())
}

fn node_of_items(alloc: Global, items: &[Value]) -> Result<Option<Listed>, NoMemory>
    ensures node { IfOk result (λ read. read ≡ spec.node_of_items (items_view items.now)) }
    ensures few { IfOk result (λ read. IfSome read (λ n. length n.counts ≤ 2)) }
{
    match items {
        [rule, args, certs, rest @ ..] => match step_of(alloc, rule, args, certs)? {
            Some(step) => with_counts(alloc, step, rest),
            None => Ok(None),
        },
        _ => Ok(None),
    }
}

/// The step, where the values are its rule, its arguments and its certificates.
fn step_of(
    alloc: Global,
    rule: &Value,
    args: &Value,
    certs: &Value,
) -> Result<Option<Step>, NoMemory>
    ensures { IfOk result (λ read. read ≡ spec.step_of (view rule.now) (view args.now) (view certs.now)) }
{
    let Some(rule) = rule.as_str().and_then(Rule::read) else {
        return Ok(None);
    };
    let Some(items) = args.as_array() else {
        return Ok(None);
    };
    let Some(args) = arguments_of(alloc, items.as_slice())? else {
        return Ok(None);
    };
    match certificates(alloc, certs)? {
        Some(certs) => Ok(Some(Step { rule, args, certs })),
        None => Ok(None),
    }
}

fn certificates(alloc: Global, certs: &Value) -> Result<Option<List<Cert>>, NoMemory>
    ensures { IfOk result (λ read. read ≡ spec.certificates (view certs.now)) }
{
    match certs.as_array() {
        Some(items) => certs_of(alloc, items.as_slice()),
        None => Ok(None),
    }
}

/// The node with the step, where `rest` is what its rule has behind its certificates.
fn with_counts(alloc: Global, step: Step, rest: &[Value]) -> Result<Option<Listed>, NoMemory>
    ensures node { IfOk result (λ read. read ≡ spec.with_counts step (items_view rest.now)) }
    ensures few { IfOk result (λ read. IfSome read (λ n. length n.counts ≤ 2)) }
{
    match block_counts(alloc, step.rule.blocks(), rest)? {
        Some(counts) => Ok(Some(Listed { step, counts })),
        None => Ok(None),
    }
}

fn block_counts(alloc: Global, blocks: usize, rest: &[Value]) -> Result<Option<List<u32>>, NoMemory>
    requires { blocks ≤ 2 }
    ensures counts { IfOk result (λ read. read ≡ spec.block_counts blocks (items_view rest.now)) }
    ensures few { IfOk result (λ read. IfSome read (λ ns. length ns ≤ 2)) }
{
    match rest {
        [] => Ok(if blocks == 0 {
            Some(List::new(alloc))
        } else {
            None
        }),
        [list] => some_counts(alloc, blocks, list),
        [_, _, ..] => Ok(None),
    }
}

fn some_counts(alloc: Global, blocks: usize, list: &Value) -> Result<Option<List<u32>>, NoMemory>
    requires { blocks ≤ 2 }
    ensures counts { IfOk result (λ read. read ≡ spec.some_counts blocks (view list.now)) }
    ensures few { IfOk result (λ read. IfSome read (λ ns. length ns ≤ 2)) }
{
    if blocks == 0 {
        return Ok(None);
    }
    let Some(items) = list.as_array() else {
        return Ok(None);
    };
    match counts_of(alloc, items.as_slice())? {
        Some(counts) => Ok(if counts.len() == blocks {
            Some(counts)
        } else {
            None
        }),
        None => Ok(None),
    }
}
