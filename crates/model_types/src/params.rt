//! The scope that parameters make.
ghost use Rattle.std.specs.Prelude.{◌≡◌, []};
ghost use Rattle.rup_base.specs.Answers.{Answers};
ghost use Rattle.rup_base.specs.declared.refusal.TypePlace.TheVariants.{Params};
ghost use Rattle.model_syntax.specs.Types as spec;

use crate::place::at;
use crate::scope::Scope;
use crate::shapes::copy_length;
use model_syntax::{Len, NameType, Param, Scalar};
use rup_base::{Fail, Name, TypePlace, TypeWhy};
use std::alloc::Global;

/// The argument registers.
const REGISTERS: usize = 8;

/// The scope that the parameters make. Each name is declared once and takes a register.
#[tactic(auto, using(crate::proofs::AtPlace::at_then))]
pub fn declare_params(alloc: Global, params: &[Param]) -> Result<Scope, Fail>
    ensures { Answers result (spec.at Params (spec.declare_params params.now [])) }
{
    let mut scope = Scope::new(alloc);
    for param in params {
        let declared = declare_param(alloc, scope, param)?;
        scope = at(TypePlace::Params, registers(declared))?;
    }
    Ok(scope)
}

fn registers(scope: Scope) -> Result<Scope, TypeWhy>
    ensures { result ≡ spec.registers scope }
{
    if scope.len() <= REGISTERS {
        Ok(scope)
    } else {
        Err(TypeWhy::Registers)
    }
}

#[tactic(auto, using(crate::proofs::AtPlace::at_then))]
fn declare_param(alloc: Global, scope: Scope, param: &Param) -> Result<Scope, Fail>
    ensures { Answers result (spec.at Params (spec.declare_param param.now scope)) }
{
    match param {
        Param::Word(x) => declare(alloc, scope, x, NameType::Scalar(Scalar::Word)),
        Param::Byte(x) => declare(alloc, scope, x, NameType::Scalar(Scalar::Byte)),
        Param::Bytes(a, n) => {
            let shape = NameType::Array(Scalar::Byte, copy_length(alloc, n)?);
            let scope = declare(alloc, scope, a, shape)?;
            declare_length(alloc, scope, n)
        }
        Param::Words(a, n) => {
            let shape = NameType::Array(Scalar::Word, copy_length(alloc, n)?);
            let scope = declare(alloc, scope, a, shape)?;
            declare_length(alloc, scope, n)
        }
    }
}

/// A length that has a name is a word.
fn declare_length(alloc: Global, scope: Scope, n: &Len) -> Result<Scope, Fail>
    ensures { Answers result (spec.at Params (spec.declare_length n.now scope)) }
{
    match n {
        Len::Fixed(_) => Ok(scope),
        Len::Named(n) => declare(alloc, scope, n, NameType::Scalar(Scalar::Word)),
    }
}

fn declare(alloc: Global, scope: Scope, x: &Name, shape: NameType) -> Result<Scope, Fail>
    ensures { Answers result (spec.at Params (spec.declare x.now shape scope)) }
{
    if scope.look_up(x).is_some() {
        return at(TypePlace::Params, Err(TypeWhy::Repeated));
    }
    Ok(scope.bind(alloc, x, shape)?)
}
