//! The JSON value of a node: `[rule, args, certs]`, and behind them the numbers of nodes of its blocks.
ghost use Rattle.std.specs.Prelude.{◌≡◌, [], ◌++◌, map, IfOk, OnOk};
ghost use Rattle.serde_json.specs.View.{view};
ghost use Rattle.deriv_tree.specs.Preorder.{block_list, count_of};
ghost use Rattle.deriv_file.specs.FileText as spec;

use deriv_tree::{Block, Step};
use rup_base::NoMemory;
use serde_json::{Value, json};
use side_certs::{Cert, Entry};
use std::alloc::Global;

/// The value of an expression's node.
pub fn expr_value(alloc: Global, step: &Step) -> Result<Value, NoMemory>
    ensures { IfOk result (λ value. view value ≡ spec.node_data (record { step = step.now; counts = [] })) }
{
    let parts = step_parts(alloc, step)?;
    Ok(Value::Array(parts))
}

/// The value of a statement's node.
pub fn stmt_value(alloc: Global, step: &Step, blocks: &[Block]) -> Result<Value, NoMemory>
    ensures { IfOk result (λ value. view value
        ≡ spec.node_data (record { step = step.now; counts = map count_of (map block_list blocks.now) })) }
{
    let mut parts = step_parts(alloc, step)?;
    push_counts(alloc, blocks, &mut parts)?;
    Ok(Value::Array(parts))
}

fn step_parts(alloc: Global, step: &Step) -> Result<Vec<Value>, NoMemory>
    ensures { IfOk result (λ parts. map view parts.items ≡ spec.step_parts step.now) }
{
    let mut parts = Vec::new(alloc);
    parts.push(Value::try_from_str(alloc, step.rule.name())?)?;
    parts.push(args_value(alloc, step.args.as_slice())?)?;
    parts.push(certs_value(alloc, step.certs.as_slice())?)?;
    Ok(parts)
}

/// Puts the list of the blocks' numbers of nodes behind the other parts, where there are blocks.
fn push_counts(alloc: Global, blocks: &[Block], parts: &mut Vec<Value>) -> Result<(), NoMemory>
    ensures { OnOk result (map view parts.new.items
        ≡ map view parts.old.items ++ spec.counts_part (map count_of (map block_list blocks.now))) }
{
    if !blocks.is_empty() {
        parts.push(counts_value(alloc, blocks)?)?;
    }
    Ok(())
}

fn args_value(alloc: Global, args: &[i64]) -> Result<Value, NoMemory>
    ensures { IfOk result (λ value. view value ≡ spec.array_of spec.integer args.now) }
{
    let mut values = Vec::new(alloc);
    for arg in args {
        values.push(Value::from(*arg))?;
    }
    Ok(Value::Array(values))
}

fn counts_value(alloc: Global, blocks: &[Block]) -> Result<Value, NoMemory>
    ensures { IfOk result (λ value. view value ≡ spec.array_of spec.whole (map count_of (map block_list blocks.now))) }
{
    let mut values = Vec::new(alloc);
    for block in blocks {
        values.push(count_value(block))?;
    }
    Ok(Value::Array(values))
}

#[tactic(auto, using(crate::proofs::ReadBack::list_count))]
/// The number of a block's own nodes.
fn count_value(block: &Block) -> Value
    ensures { view result ≡ spec.whole (count_of (block_list block.now)) }
{
    Value::from(block.nodes.len())
}

fn entry_value(alloc: Global, entry: &Entry) -> Result<Value, NoMemory>
    ensures { IfOk result (λ value. view value ≡ spec.entry_data entry.now) }
{
    Ok(json!(in alloc; [entry.kind, entry.number, entry.mult])?)
}

fn entries_value(alloc: Global, entries: &[Entry]) -> Result<Value, NoMemory>
    ensures { IfOk result (λ value. view value ≡ spec.array_of spec.entry_data entries.now) }
{
    let mut values = Vec::new(alloc);
    for entry in entries {
        values.push(entry_value(alloc, entry)?)?;
    }
    Ok(Value::Array(values))
}

fn cert_value(alloc: Global, cert: &Cert) -> Result<Value, NoMemory>
    ensures { IfOk result (λ value. view value ≡ spec.cert_data cert.now) }
{
    let mut parts = Vec::new(alloc);
    parts.push(Value::from(cert.d))?;
    parts.push(entries_value(alloc, cert.entries.as_slice())?)?;
    Ok(Value::Array(parts))
}

fn certs_value(alloc: Global, certs: &[Cert]) -> Result<Value, NoMemory>
    ensures { IfOk result (λ value. view value ≡ spec.array_of spec.cert_data certs.now) }
{
    let mut values = Vec::new(alloc);
    for cert in certs {
        values.push(cert_value(alloc, cert)?)?;
    }
    Ok(Value::Array(values))
}
