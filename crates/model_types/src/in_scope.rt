//! What the rules of types ask of a name in scope.
ghost use Rattle.std.specs.Prelude.{◌≡◌};
ghost use Rattle.model_types.specs.Copied.{result_copied};
ghost use Rattle.rup_base.specs.Answers.{Answers};
ghost use Rattle.model_syntax.specs.Types.{at};
ghost use Rattle.model_syntax.specs.Scope as spec;

use crate::place::at;
use crate::scope::Scope;
use crate::shapes::{copy_length, same_type};
use model_syntax::{NameType, Scalar};
use rup_base::{Fail, Name, TypePlace, TypeWhy};
use std::alloc::Global;

/// A name has to be in scope.
pub fn known(scope: &Scope, x: &Name) -> Result<(), TypeWhy>
    ensures { result ≡ spec.known (spec.look_up scope.now x.now) }
{
    match scope.look_up(x) {
        None => Err(TypeWhy::Unknown),
        Some(_) => Ok(()),
    }
}

/// What a name is where a scalar is wanted.
pub fn scalar_in(scope: &Scope, x: &Name) -> Result<Scalar, TypeWhy>
    ensures { result ≡ spec.scalar_in (spec.look_up scope.now x.now) }
{
    match scope.look_up(x) {
        None => Err(TypeWhy::Unknown),
        Some(NameType::Scalar(t)) => Ok(*t),
        Some(NameType::Array(_, _)) => Err(TypeWhy::NotScalar),
    }
}

/// The type of an array's elements.
pub fn element_in(scope: &Scope, x: &Name) -> Result<Scalar, TypeWhy>
    ensures { result ≡ spec.element_in (spec.look_up scope.now x.now) }
{
    match scope.look_up(x) {
        None => Err(TypeWhy::Unknown),
        Some(NameType::Scalar(_)) => Err(TypeWhy::NotArray),
        Some(NameType::Array(t, _)) => Ok(*t),
    }
}

/// A scalar may take a name that is no array in scope.
pub fn scalar_may_take(scope: &Scope, x: &Name) -> Result<(), TypeWhy>
    ensures { result ≡ spec.scalar_may_take (spec.look_up scope.now x.now) }
{
    match scope.look_up(x) {
        Some(NameType::Array(_, _)) => Err(TypeWhy::NameTaken),
        None | Some(NameType::Scalar(_)) => Ok(()),
    }
}

/// A moved array may take a name that is not in scope.
pub fn array_may_take(scope: &Scope, x: &Name) -> Result<(), TypeWhy>
    ensures { result ≡ spec.array_may_take (spec.look_up scope.now x.now) }
{
    match scope.look_up(x) {
        Some(_) => Err(TypeWhy::NameTaken),
        None => Ok(()),
    }
}

/// What a name is where an array is wanted.
pub fn array_in(alloc: Global, place: TypePlace, scope: &Scope, x: &Name) -> Result<NameType, Fail>
    ensures { Answers result (at place (spec.array_in (spec.look_up scope.now x.now))) }
{
    match scope.look_up(x) {
        None => at(place, Err(TypeWhy::Unknown)),
        Some(NameType::Scalar(_)) => at(place, Err(TypeWhy::NotArray)),
        Some(NameType::Array(t, n)) => Ok(NameType::Array(*t, copy_length(alloc, n)?)),
    }
}

/// A carried name has one and the same type at both ends.
pub fn agreed<'a>(one: &'a Scope, two: &Scope, x: &Name) -> Result<&'a NameType, TypeWhy>
    ensures { result_copied result ≡ spec.agreed (spec.look_up one.now x.now) (spec.look_up two.now x.now) }
{
    match (one.look_up(x), two.look_up(x)) {
        (Some(t), Some(u)) if same_type(t, u) => Ok(t),
        _ => Err(TypeWhy::Uncarried),
    }
}
