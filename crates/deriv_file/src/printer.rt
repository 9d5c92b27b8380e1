//! The printer of a derivation's file: its nodes in preorder, then the value, then the text.
ghost use Rattle.std.specs.Prelude.{◌≡◌, ◌++◌, map, IsTrue, IfOk, OnOk};
ghost use Rattle.serde_json.specs.View.{view};
ghost use Rattle.serde_json.specs.Data.{string};
ghost use Rattle.rup_base.specs.Gather.{joined};
ghost use Rattle.rup_base.specs.Name.{is_name};
ghost use Rattle.deriv_tree.specs.Shape.{IsWhole};
ghost use Rattle.deriv_tree.specs.Preorder.{expr_list, stmt_list, block_list};
ghost use Rattle.deriv_file.specs.FileText as spec;

use crate::node_value::{expr_value, stmt_value};
use deriv_tree::{Block, Derivation, ExprNode, StmtNode};
use rup_base::{Name, NoMemory, Text};
use serde_json::{Map, Value, put};
use std::alloc::Global;
use std::str;

#[tactic(auto, using(crate::proofs::NoFloats::file_has_none))]
/// The text of the derivation's file: JSON without spaces, its members in the order block, deriv, model, nodes, and a
/// line feed.
pub fn print_derivation(alloc: Global, derivation: &Derivation) -> Result<Text, NoMemory>
    requires { IsWhole derivation.now }
    ensures { IfOk result (λ text. text ≡ spec.text_of derivation.now) }
{
    let value = file_value(alloc, derivation)?;
    let mut bytes = value.to_vec(alloc)?;
    bytes.push(b'\n')?;
    Ok(Text::from_vec(bytes))
}

fn file_value(alloc: Global, derivation: &Derivation) -> Result<Value, NoMemory>
    ensures { IfOk result (λ value. view value ≡ spec.file_data derivation.now) }
{
    let model = name_value(alloc, &derivation.model)?;
    let mut nodes = Vec::new(alloc);
    push_block(alloc, &derivation.body, &mut nodes)?;
    object(
        alloc,
        derivation.body.nodes.len(),
        model,
        Value::Array(nodes),
    )
}

/// The object of the four members, the version being 1.
fn object(alloc: Global, block: usize, model: Value, nodes: Value) -> Result<Value, NoMemory>
    ensures { IfOk result (λ value. view value ≡ spec.object_of block (view model) (view nodes)) }
{
    let mut members = Map::new(alloc);
    put(&mut members, alloc, "block", Value::from(block))?;
    put(&mut members, alloc, "deriv", Value::from(1u8))?;
    put(&mut members, alloc, "model", model)?;
    put(&mut members, alloc, "nodes", nodes)?;
    Ok(Value::Object(members))
}

fn name_value(alloc: Global, name: &Name) -> Result<Value, NoMemory>
    ensures { IfOk result (λ value. view value ≡ string name.now) }
{
    Ok(Value::try_from_str(alloc, ascii(name.text()))?)
}

/// The text that the bytes of a name are.
fn ascii(name: &[u8]) -> &str
    requires { IsTrue (is_name name.now) }
    ensures { result.now ≡ name.now }
{
    match str::from_utf8(name) {
        Ok(text) => text,
        Err(_) => unreachable!(),
    }
}

/// Puts the nodes of an expression behind the others.
fn push_expr(alloc: Global, node: &ExprNode, out: &mut Vec<Value>) -> Result<(), NoMemory>
    ensures { OnOk result (map view out.new.items ≡ map view out.old.items ++ map spec.node_data (expr_list node.now)) }
{
    out.push(expr_value(alloc, &node.step)?)?;
    for kid in node.kids.as_slice() {
        push_expr(alloc, kid, out)?;
    }
    Ok(())
}

fn push_exprs(alloc: Global, nodes: &[ExprNode], out: &mut Vec<Value>) -> Result<(), NoMemory>
    ensures { OnOk result (map view out.new.items
        ≡ map view out.old.items ++ map spec.node_data (joined (map expr_list nodes.now))) }
{
    for node in nodes {
        push_expr(alloc, node, out)?;
    }
    Ok(())
}

#[cycle(push)]
/// Puts the nodes of a statement, with all inside it, behind the others.
fn push_stmt(alloc: Global, node: &StmtNode, out: &mut Vec<Value>) -> Result<(), NoMemory>
    ensures { OnOk result (map view out.new.items ≡ map view out.old.items ++ map spec.node_data (stmt_list node.now)) }
{
    out.push(stmt_value(alloc, &node.step, node.blocks.as_slice())?)?;
    push_exprs(alloc, node.kids.as_slice(), out)?;
    for block in node.blocks.as_slice() {
        push_block(alloc, block, out)?;
    }
    Ok(())
}

#[cycle(push)]
fn push_block(alloc: Global, block: &Block, out: &mut Vec<Value>) -> Result<(), NoMemory>
    ensures { OnOk result (map view out.new.items ≡ map view out.old.items ++ map spec.node_data (block_list block.now).nodes) }
{
    for node in block.nodes.as_slice() {
        push_stmt(alloc, node, out)?;
    }
    Ok(())
}
