//! Arguments and the environment that they make.
ghost use Rattle.std.specs.Prelude.{◌≡◌, [], length, IfOk, OnOk};
ghost use Rattle.rup_base.specs.Answers.{Answers};
ghost use Rattle.model_syntax.specs.Value as spec;
ghost use Rattle.model_value.specs.Refused.{refused};

use crate::environment::{Environment, copy_value, size};
use model_syntax::{Len, Param, is_of_kind};
use rup_base::{Arg, ArgFault, NoMemory};
use std::alloc::Global;

/// There are as many arguments as parameters.
pub fn counts(params: &[Param], args: &[Arg]) -> Result<(), ArgFault>
    ensures { refused result ≡ spec.counts params.now args.now }
{
    if args.len() == params.len() {
        Ok(())
    } else {
        Err(ArgFault::Count)
    }
}

/// The arguments fit their parameters, or the first that does not.
pub fn fit(params: &[Param], args: &[Arg]) -> Result<(), ArgFault>
    requires { length args.now ≡ length params.now }
    ensures { refused result ≡ spec.fit 0 params.now args.now }
{
    let mut k: u32 = 0;
    for i in 0..params.len() {
        if !is_of_kind(params[i].kind(), &args[i]) {
            return Err(ArgFault::Param(k));
        }
        k = k.saturating_add(1);
    }
    Ok(())
}

/// The environment at the start.
pub fn start(alloc: Global, params: &[Param], args: &[Arg]) -> Result<Environment, NoMemory>
    requires { length args.now ≡ length params.now }
    ensures { IfOk result (λ env. env ≡ spec.start params.now args.now []) }
{
    let mut env = Environment::new(alloc);
    for i in 0..params.len() {
        bind_argument(alloc, &mut env, &params[i], &args[i])?;
    }
    Ok(env)
}

/// Gives a parameter its argument.
fn bind_argument(
    alloc: Global,
    env: &mut Environment,
    param: &Param,
    arg: &Arg,
) -> Result<(), NoMemory>
    ensures { OnOk result (env.new ≡ spec.bind_argument param.now arg.now env.old) }
{
    match param {
        Param::Word(x) | Param::Byte(x) => env.put(alloc, x, copy_value(alloc, arg)?),
        Param::Bytes(a, length) | Param::Words(a, length) => {
            env.put(alloc, a, copy_value(alloc, arg)?)?;
            bind_length(alloc, env, length, size(Some(arg)))
        }
    }
}

/// A named length is the array's.
fn bind_length(alloc: Global, env: &mut Environment, length: &Len, n: u32) -> Result<(), NoMemory>
    ensures { OnOk result (env.new ≡ spec.bind_length length.now n env.old) }
{
    match length {
        Len::Fixed(_) => Ok(()),
        Len::Named(x) => env.put(alloc, x, Arg::Word(n)),
    }
}
