//! The value of a model at arguments.
ghost use Rattle.std.specs.Prelude.{◌≡◌, map, IfOk};
ghost use Rattle.rup_base.specs.Answers.{Answers};
ghost use Rattle.model_syntax.specs.Sound.{IsSound};
ghost use Rattle.model_syntax.specs.Value as spec;
ghost use Rattle.model_value.specs.Refused.{refused};

use crate::arguments::{counts, fit, start};
use crate::environment::{Environment, copy_value, number};
use crate::execution::run_block;
use crate::requirements::all_met;
use model_syntax::{Ret, Stmt};
use model_types::Typed;
use rup_base::{Arg, ArgFault, Args, Fail, List, NoMemory, Refusal, Results};
use std::alloc::Global;

/// The results of a model at arguments, in order. `BadArguments` says that their number is another than that of the
/// parameters, else which argument does not fit its parameter, else which requirement they do not meet. The results are
/// of their kinds: words below 2^32, bytes below 2^8, flags 0 or 1, and arrays as long as their parameters' arguments.
pub fn value(alloc: Global, m: &Typed, args: &Args) -> Result<Results, Fail>
    ensures value { Answers result (spec.value m.now.inner args.now) }
    ensures sound { IfOk result (λ found. IsSound m.now.inner args.now found) }
{
    evaluate(alloc, m, args)
}

#[tactic(auto, using(crate::proofs::Formed::well_formed))]
fn evaluate(alloc: Global, m: &Typed, args: &Args) -> Result<Results, Fail>
    ensures { Answers result (spec.value m.now.inner args.now) }
{
    let model = m.model();
    let params = model.params.as_slice();
    judged(counts(params, args.as_slice()))?;
    judged(fit(params, args.as_slice()))?;
    let env = start(alloc, params, args.as_slice())?;
    judged(all_met(model.requires_.as_slice(), &env))?;
    Ok(ended(alloc, env, model.body.as_slice(), model.rets.as_slice())?)
}

/// The results after a body.
#[tactic(auto, using(crate::proofs::Alike::results_alike))]
fn ended(alloc: Global, env: Environment, body: &[Stmt], rets: &[Ret]) -> Result<Results, NoMemory>
    ensures { IfOk result (λ all. all ≡ map (spec.result_of (spec.in_turn (map spec.run body.now) env)) rets.now) }
{
    let mut end = env;
    run_block(alloc, &mut end, body)?;
    results(alloc, &end, rets)
}

fn judged(found: Result<(), ArgFault>) -> Result<(), Fail>
    ensures { Answers result (refused found) }
{
    match found {
        Ok(()) => Ok(()),
        Err(which) => Err(Fail::Refused(Refusal::BadArguments { which })),
    }
}

fn results(alloc: Global, end: &Environment, rets: &[Ret]) -> Result<Results, NoMemory>
    ensures { IfOk result (λ all. all ≡ map (spec.result_of end.now) rets.now) }
{
    let mut all = List::new(alloc);
    for ret in rets {
        all.push(result_of(alloc, end, ret)?)?;
    }
    Ok(all)
}

fn result_of(alloc: Global, end: &Environment, ret: &Ret) -> Result<Arg, NoMemory>
    ensures { IfOk result (λ value. value ≡ spec.result_of end.now ret.now) }
{
    match ret {
        Ret::Scalar(x) => Ok(Arg::Word(number(end.get(x)))),
        Ret::Array(a, _) => match end.get(a) {
            Some(value) => copy_value(alloc, value),
            None => Ok(Arg::Word(0)),
        },
    }
}
