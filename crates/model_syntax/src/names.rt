//! The names that a model binds.
ghost use Rattle.std.specs.Prelude.{◌≡◌, ◌++◌, map, fold, IfOk, OnOk};
ghost use Rattle.rup_base.specs.Gather.{joined};
ghost use Rattle.model_syntax.specs.Names as spec;

use crate::program::{Len, Model, Param};
use crate::stmt::Stmt;
use indexmap::IndexSet;
use rup_base::{Name, NoMemory};
use std::alloc::Global;

/// The names that statements bind in a let, for, map or fold and that are no parameter's and no length's,
/// in the order in which the text shows them first. In a fold the scalar comes before the element.
pub fn first_names(alloc: Global, m: &Model) -> Result<IndexSet<Name>, NoMemory>
    ensures { IfOk result (λ names. names.keys ≡ spec.first_names m.now) }
{
    let mut names = IndexSet::new(alloc);
    sight_block(alloc, &mut names, m.params.as_slice(), m.body.as_slice())?;
    Ok(names)
}

#[cycle(sight)]
#[tactic(auto, using(std::proofs::lemmas::Grind::common_steps))]
fn sight_stmt(
    alloc: Global,
    names: &mut IndexSet<Name>,
    params: &[Param],
    s: &Stmt,
) -> Result<(), NoMemory>
    ensures { OnOk result (names.new.keys ≡ fold (spec.sight params.now) names.old.keys (spec.binds s.now)) }
{
    match s {
        Stmt::Let(x, _) | Stmt::Map(_, x, _) => sight(alloc, names, params, x),
        Stmt::Fold(t, _, x, _) => {
            sight(alloc, names, params, t)?;
            sight(alloc, names, params, x)
        }
        Stmt::For(x, _, _, _, _, body) => {
            sight(alloc, names, params, x)?;
            sight_block(alloc, names, params, body.as_slice())
        }
        Stmt::If(_, _, _, first, second) => {
            sight_block(alloc, names, params, first.as_slice())?;
            sight_block(alloc, names, params, second.as_slice())
        }
        Stmt::Put(..) | Stmt::Move(..) => Ok(()),
    }
}

#[cycle(sight)]
#[tactic(auto, using(std::proofs::lemmas::Grind::common_steps))]
fn sight_block(
    alloc: Global,
    names: &mut IndexSet<Name>,
    params: &[Param],
    stmts: &[Stmt],
) -> Result<(), NoMemory>
    ensures { OnOk result (names.new.keys ≡ fold (spec.sight params.now) names.old.keys (joined (map spec.binds stmts.now))) }
{
    for s in stmts {
        sight_stmt(alloc, names, params, s)?;
    }
    Ok(())
}

/// Puts a name last, unless it stands or is declared.
fn sight(
    alloc: Global,
    names: &mut IndexSet<Name>,
    params: &[Param],
    x: &Name,
) -> Result<(), NoMemory>
    ensures { OnOk result (names.new.keys ≡ spec.sight params.now names.old.keys x.now) }
{
    if !is_declared(params, x) {
        names.insert(x.copy(alloc)?)?;
    }
    Ok(())
}

/// Whether a name is a parameter's or a length's.
pub fn is_declared(params: &[Param], x: &Name) -> bool
    ensures { result ≡ spec.declared params.now x.now }
{
    params.iter().any(|param| declares(param, x))
}

fn declares(param: &Param, x: &Name) -> bool
    ensures { result ≡ spec.listed x.now (spec.param_names param.now) }
{
    match param {
        Param::Word(name) | Param::Byte(name) => x == name,
        Param::Bytes(name, len) | Param::Words(name, len) => x == name || is_length(len, x),
    }
}

fn is_length(len: &Len, x: &Name) -> bool
    ensures { result ≡ spec.listed x.now (spec.length_names len.now) }
{
    match len {
        Len::Fixed(_) => false,
        Len::Named(name) => x == name,
    }
}
