//! Names that a block carries over, and the names of counters and elements.
ghost use Rattle.std.specs.Prelude.{◌≡◌, [], ◌∷◌, ◌++◌, OnOk};
ghost use Rattle.rup_base.specs.Answers.{Answers};
ghost use Rattle.model_syntax.specs.Names.{listed};
ghost use Rattle.model_syntax.specs.Types as spec;
ghost use Rattle.model_types.specs.Placed as placed;

use crate::in_scope::{agreed, known, scalar_may_take};
use crate::place::at;
use crate::scope::Scope;
use crate::shapes::copy_type;
use indexmap::IndexSet;
use rup_base::{Fail, Name, TypePlace, TypeWhy};
use std::alloc::Global;

fn listed(names: &[Name], x: &Name) -> bool
    ensures { result ≡ listed x.now names.now }
{
    names.iter().any(|name| x == name)
}

/// A name that is none of those before it.
pub fn once(before: &[Name], x: &Name) -> Result<(), TypeWhy>
    ensures { result ≡ spec.once before.now x.now }
{
    if listed(before, x) {
        Err(TypeWhy::Repeated)
    } else {
        Ok(())
    }
}

/// Names that stand once. They are looked up among those before them in a set.
pub fn distinct(alloc: Global, place: TypePlace, names: &[Name]) -> Result<(), Fail>
    ensures { Answers result (spec.at place (spec.distinct [] names.now)) }
{
    let mut seen = IndexSet::new(alloc);
    for x in names {
        see(alloc, place, &mut seen, x)?;
    }
    Ok(())
}

/// Names that stand once and are in scope.
#[tactic(auto, using(crate::proofs::AtPlace::at_then))]
pub fn distinct_known(
    alloc: Global,
    place: TypePlace,
    scope: &Scope,
    names: &[Name],
) -> Result<(), Fail>
    ensures { Answers result (spec.at place (spec.distinct_known scope.now [] names.now)) }
{
    let mut seen = IndexSet::new(alloc);
    for x in names {
        see(alloc, place, &mut seen, x)?;
        at(place, known(scope, x))?;
    }
    Ok(())
}

/// A name that is none of those before it, of which it becomes one.
fn see(alloc: Global, place: TypePlace, before: &mut IndexSet<Name>, x: &Name) -> Result<(), Fail>
    ensures answers { Answers result (spec.at place (spec.once before.old.keys x.now)) }
    ensures seen { OnOk result (before.new.keys ≡ before.old.keys ++ x.now ∷ []) }
{
    if before.insert(x.copy(alloc)?)? {
        Ok(())
    } else {
        at(place, Err(TypeWhy::Repeated))
    }
}

/// The scope with the names of the types that they have at the ends of two blocks.
#[tactic(auto, using(crate::proofs::AtPlace::joined_at))]
pub fn joined(
    alloc: Global,
    place: TypePlace,
    names: &[Name],
    one: &Scope,
    two: &Scope,
    scope: Scope,
) -> Result<Scope, Fail>
    ensures { Answers result (spec.at place (spec.joined names.now one.now two.now scope)) }
{
    joined_one_by_one(alloc, place, names, one, two, scope)
}

fn joined_one_by_one(
    alloc: Global,
    place: TypePlace,
    names: &[Name],
    one: &Scope,
    two: &Scope,
    scope: Scope,
) -> Result<Scope, Fail>
    ensures { Answers result (placed.joined place names.now one.now two.now scope) }
{
    let mut after = scope;
    for x in names {
        let shape = at(place, agreed(one, two, x))?;
        after = after.bind(alloc, x, copy_type(alloc, shape)?)?;
    }
    Ok(after)
}

/// The names have at the end of a block the types that they had before it.
pub fn kept(names: &[Name], scope: &Scope, end: &Scope) -> Result<(), TypeWhy>
    ensures { result ≡ spec.kept names.now scope.now end.now }
{
    for x in names {
        agreed(scope, end, x)?;
    }
    Ok(())
}

/// The counter of a loop.
pub fn counter(scope: &Scope, x: &Name, names: &[Name]) -> Result<(), TypeWhy>
    ensures { result ≡ spec.counter x.now names.now scope.now }
{
    if listed(names, x) {
        return Err(TypeWhy::Repeated);
    }
    scalar_may_take(scope, x)
}

/// The element of a fold over the scalar `t`.
pub fn folded_element(scope: &Scope, t: &Name, x: &Name) -> Result<(), TypeWhy>
    ensures { result ≡ spec.folded_element t.now x.now scope.now }
{
    if t == x {
        return Err(TypeWhy::Repeated);
    }
    scalar_may_take(scope, x)
}
