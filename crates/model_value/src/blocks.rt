//! Blocks change the environment around them: the names that they do not list come back at their ends.
ghost use Rattle.std.specs.Prelude.{◌≡◌, [], fold, length, map, IfOk, OnOk};
ghost use Rattle.std.specs.Option.{option_copied};
ghost use Rattle.model_syntax.specs.Environment.{value_of};
ghost use Rattle.model_syntax.specs.Names.{Name as Letters, listed};
ghost use Rattle.model_value.specs.Bindings.{Assigns};
ghost use Rattle.model_value.specs.Blocks as spec;

use crate::environment::{Environment, copy_value};
use model_syntax::Stmt;
use rup_base::{Arg, List, Name, NoMemory};
use std::alloc::Global;
use std::mem;

/// The names that a block may change and does not list.
pub fn come_back(alloc: Global, names: &[Name], block: &[Stmt]) -> Result<List<Name>, NoMemory>
    ensures { IfOk result (λ back. back ≡ spec.come_back names.now block.now) }
{
    let mut back = List::new(alloc);
    for stmt in block {
        add_changed(alloc, &mut back, names, stmt)?;
    }
    Ok(back)
}

/// The counter of a loop, unless the loop lists it.
pub fn counter(alloc: Global, names: &[Name], x: &Name) -> Result<List<Name>, NoMemory>
    ensures { IfOk result (λ hidden. hidden ≡ spec.add names.now [] x.now) }
{
    let mut hidden = List::new(alloc);
    add(alloc, &mut hidden, names, x)?;
    Ok(hidden)
}

/// Adds the names that a statement may change.
fn add_changed(
    alloc: Global,
    back: &mut List<Name>,
    names: &[Name],
    stmt: &Stmt,
) -> Result<(), NoMemory>
    ensures { OnOk result (back.new ≡ fold (spec.add names.now) back.old (spec.changes stmt.now)) }
{
    match stmt {
        Stmt::Let(x, _)
        | Stmt::Put(x, _, _)
        | Stmt::Move(x, _, _, _)
        | Stmt::Map(x, _, _)
        | Stmt::Fold(x, _, _, _) => add(alloc, back, names, x),
        Stmt::If(_, inner, _, _, _) | Stmt::For(_, _, _, inner, _, _) => {
            add_all(alloc, back, names, inner.as_slice())
        }
    }
}

fn add_all(
    alloc: Global,
    back: &mut List<Name>,
    names: &[Name],
    inner: &[Name],
) -> Result<(), NoMemory>
    ensures { OnOk result (back.new ≡ fold (spec.add names.now) back.old inner.now) }
{
    for x in inner {
        add(alloc, back, names, x)?;
    }
    Ok(())
}

/// Adds a name, unless it is listed or already there.
fn add(alloc: Global, back: &mut List<Name>, names: &[Name], x: &Name) -> Result<(), NoMemory>
    ensures { OnOk result (back.new ≡ spec.add names.now back.old x.now) }
{
    if !is_listed(x, names) && !is_listed(x, back.as_slice()) {
        back.push(x.copy(alloc)?)?;
    }
    Ok(())
}

/// The name is one of them.
fn is_listed(x: &Name, names: &[Name]) -> bool
    ensures { result ≡ listed x.now names.now }
{
    names.iter().any(|name| x == name)
}

/// The values of names, which are kept aside.
pub fn aside(alloc: Global, back: &[Name], env: &Environment) -> Result<List<Option<Arg>>, NoMemory>
    ensures { IfOk result (λ kept. kept ≡ map (value_of env.now) back.now) }
{
    let mut kept = List::new(alloc);
    for x in back {
        kept.push(copied(alloc, env.get(x))?)?;
    }
    Ok(kept)
}

fn copied(alloc: Global, value: Option<&Arg>) -> Result<Option<Arg>, NoMemory>
    ensures { IfOk result (λ copy. copy ≡ option_copied value.entry) }
{
    match value {
        Some(arg) => Ok(Some(copy_value(alloc, arg)?)),
        None => Ok(None),
    }
}

/// Gives names the values that were kept aside of them.
pub fn restore(
    alloc: Global,
    env: &mut Environment,
    back: &[Name],
    kept: List<Option<Arg>>,
) -> Result<(), NoMemory>
    requires { length kept ≡ length back.now }
    ensures { OnOk result ((y : Letters) → value_of env.new y ≡ spec.handed_back back.now kept (value_of env.old) y) }
{
    let mut kept = kept.into_vec();
    for i in 0..back.len() {
        let value = mem::replace(&mut kept[i], None);
        put_back(alloc, env, &back[i], value)?;
    }
    Ok(())
}

#[tactic(auto, using(crate::proofs::Puts::put_assigns))]
fn put_back(
    alloc: Global,
    env: &mut Environment,
    x: &Name,
    value: Option<Arg>,
) -> Result<(), NoMemory>
    ensures { OnOk result (Assigns x.now value env.old env.new) }
{
    match value {
        Some(arg) => env.put(alloc, x, arg),
        None => {
            env.remove(x);
            Ok(())
        }
    }
}
