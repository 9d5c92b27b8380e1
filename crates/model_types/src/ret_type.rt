//! The rules of results.
ghost use Rattle.std.specs.Prelude.{◌≡◌, [], ◌∷◌};
ghost use Rattle.rup_base.specs.Answers.{Answers};
ghost use Rattle.model_syntax.specs.Names.{listed};
ghost use Rattle.rup_base.specs.declared.refusal.TypePlace.TheVariants.{Return};
ghost use Rattle.model_syntax.specs.Types as spec;

use crate::in_scope::{array_in, scalar_in};
use crate::place::at;
use crate::scope::Scope;
use crate::shapes::same_type;
use model_syntax::Ret;
use rup_base::{Fail, Name, TypePlace, TypeWhy};
use std::alloc::Global;

/// The greatest number of scalar results.
const SCALARS: usize = 2;

/// Each result keeps the rules: `start` has the parameters, `scope` is the scope at the end.
pub fn check_results(alloc: Global, start: &Scope, scope: &Scope, rets: &[Ret]) -> Result<(), Fail>
    ensures { Answers result (spec.results start.now scope.now 0 [] rets.now) }
{
    let mut k: u32 = 0;
    for i in 0..rets.len() {
        check_result(alloc, k, start, scope, &rets[..i], &rets[i])?;
        k = k.saturating_add(1);
    }
    Ok(())
}

#[tactic(auto, using(crate::proofs::AtPlace::at_then))]
fn check_result(
    alloc: Global,
    k: u32,
    start: &Scope,
    scope: &Scope,
    before: &[Ret],
    ret: &Ret,
) -> Result<(), Fail>
    ensures { Answers result (spec.at (Return k) (spec.result start.now scope.now before.now ret.now)) }
{
    let place = TypePlace::Return(k);
    match ret {
        Ret::Scalar(x) => {
            at(place, scalar_in(scope, x))?;
            if scalar_results(before) < SCALARS {
                Ok(())
            } else {
                at(place, Err(TypeWhy::Results))
            }
        }
        Ret::Array(a, p) => {
            let shape = array_in(alloc, place, scope, a)?;
            at(place, returned_once(before, p))?;
            let owner = array_in(alloc, place, start, p)?;
            if same_type(&shape, &owner) {
                Ok(())
            } else {
                at(place, Err(TypeWhy::Owner))
            }
        }
    }
}

/// The scalar results among them.
fn scalar_results(rets: &[Ret]) -> usize
    ensures { result ≡ spec.scalar_results rets.now }
{
    let mut count = 0;
    for ret in rets {
        if let Ret::Scalar(_) = ret {
            count += 1;
        }
    }
    count
}

/// No array among them stands where `p` was.
fn returned_once(before: &[Ret], p: &Name) -> Result<(), TypeWhy>
    ensures { result ≡ spec.once (spec.returned before.now) p.now }
{
    for ret in before {
        if returns(ret, p) {
            return Err(TypeWhy::Repeated);
        }
    }
    Ok(())
}

/// Whether a result is an array that stands where `p` was.
fn returns(ret: &Ret, p: &Name) -> bool
    ensures { result ≡ listed p.now (spec.returned (ret.now ∷ [])) }
{
    match ret {
        Ret::Scalar(_) => false,
        Ret::Array(_, owner) => p == owner,
    }
}
