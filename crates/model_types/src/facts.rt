//! Requirements and kept facts.
ghost use Rattle.std.specs.Prelude.{◌≡◌, is_ok, IfOk};
ghost use Rattle.rup_base.specs.Answers.{Answers};
ghost use Rattle.rup_base.specs.declared.refusal.TypePlace.TheVariants.{Require};
ghost use Rattle.model_syntax.specs.Linear as forms;
ghost use Rattle.model_syntax.specs.Types as spec;

use crate::in_scope::scalar_in;
use crate::linear::linear;
use crate::place::at;
use crate::scope::Scope;
use model_syntax::{Le, Lin};
use rup_base::{Fail, NoMemory, TypePlace, TypeWhy};
use std::alloc::Global;

/// The greatest number of requirements.
const REQUIREMENTS: u32 = 4096;

/// The names in a side are scalars in scope.
fn names_scalars(scope: &Scope, side: &Lin) -> Result<(), TypeWhy>
    ensures { result ≡ spec.names_scalars side.now scope.now }
{
    match side {
        Lin::Const(_) => Ok(()),
        Lin::Var(x) => {
            scalar_in(scope, x)?;
            Ok(())
        }
        Lin::Sum(p, q) => {
            names_scalars(scope, p)?;
            names_scalars(scope, q)
        }
        Lin::Scale(_, p) => names_scalars(scope, p),
    }
}

#[tactic(auto, using(crate::proofs::AtPlace::at_then))]
fn fact(alloc: Global, place: TypePlace, r: &Le, scope: &Scope) -> Result<(), Fail>
    ensures { Answers result (spec.at place (spec.fact r.now scope.now)) }
{
    at(place, names_scalars(scope, &r.low))?;
    at(place, names_scalars(scope, &r.high))?;
    linear(alloc, place, &r.low)?;
    linear(alloc, place, &r.high)?;
    Ok(())
}

#[tactic(auto, using(crate::proofs::AtPlace::at_then))]
pub fn facts(alloc: Global, place: TypePlace, rs: &[Le], scope: &Scope) -> Result<(), Fail>
    ensures { Answers result (spec.at place (spec.facts rs.now scope.now)) }
{
    for r in rs {
        fact(alloc, place, r, scope)?;
    }
    Ok(())
}

fn requirement(alloc: Global, k: u32, r: &Le, scope: &Scope) -> Result<(), Fail>
    ensures { Answers result (spec.at (Require k) (spec.requirement k r.now scope.now)) }
{
    if k < REQUIREMENTS {
        fact(alloc, TypePlace::Require(k), r, scope)
    } else {
        at(TypePlace::Require(k), Err(TypeWhy::WideForm))
    }
}

pub fn requirements(alloc: Global, rs: &[Le], scope: &Scope) -> Result<(), Fail>
    ensures { Answers result (spec.requirements 0 rs.now scope.now) }
{
    let mut k: u32 = 0;
    for r in rs {
        requirement(alloc, k, r, scope)?;
        k = k.saturating_add(1);
    }
    Ok(())
}

/// Whether a side is a linear form within the limits, and each part of it. A refusal's place is of no interest here.
#[tactic(auto, using(crate::proofs::AtPlace::at_is_ok))]
fn is_linear(alloc: Global, side: &Lin) -> Result<bool, NoMemory>
    ensures { IfOk result (λ kept. kept ≡ is_ok (forms.linear side.now)) }
{
    match linear(alloc, TypePlace::Require(0), side) {
        Ok(_) => Ok(true),
        Err(Fail::Refused(_)) => Ok(false),
        Err(Fail::NoMemory) => Err(NoMemory),
    }
}

/// Whether both sides of a fact, and each part of them, are linear forms within the limits, as typing asks of requirements and
/// of kept facts: at most 16 names, and no factor or constant over 2^40.
pub fn is_narrow(alloc: Global, fact: &Le) -> Result<bool, NoMemory>
    ensures { IfOk result (λ narrow. narrow ≡ forms.is_narrow fact.now) }
{
    Ok(is_linear(alloc, &fact.low)? && is_linear(alloc, &fact.high)?)
}
