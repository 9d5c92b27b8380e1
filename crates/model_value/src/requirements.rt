//! Requirements, as whole numbers that have no greatest value.
ghost use Rattle.std.specs.Prelude.{◌≡◌, ◌<◌, ◌*◌, ◌^◌};
ghost use Rattle.model_syntax.specs.Value as spec;
ghost use Rattle.model_value.specs.Formed.{HasForm, Formed, Below};
ghost use Rattle.model_value.specs.Refused.{refused};

use crate::environment::{Environment, number};
use model_syntax::{Le, Lin};
use rup_base::ArgFault;

/// A side of a requirement. A side that keeps the limits of linear forms is less than 2^77.
#[tactic(auto, using(crate::proofs::Sides::left_formed, crate::proofs::Sides::right_formed))]
fn whole(side: &Lin, env: &Environment) -> u128
    requires form { HasForm side.now }
    ensures value { result ≡ spec.whole side.now env.now }
    ensures below { Below side.now result }
{
    match side {
        Lin::Const(n) => u128::from(*n),
        Lin::Var(x) => u128::from(number(env.get(x))),
        Lin::Sum(p, q) => whole(p, env) + whole(q, env),
        Lin::Scale(k, p) => product(*k, whole(p, env)),
    }
}

fn product(k: u32, n: u128) -> u128
    requires { n < 2 ^ 77 }
    ensures { result ≡ k * n }
{
    u128::from(k) * n
}

/// A requirement holds.
fn met(r: &Le, env: &Environment) -> bool
    requires low { HasForm r.now.low }
    requires high { HasForm r.now.high }
    ensures { result ≡ spec.met r.now env.now }
{
    whole(&r.low, env) <= whole(&r.high, env)
}

/// The requirements hold, or the first that does not.
pub fn all_met(requirements: &[Le], env: &Environment) -> Result<(), ArgFault>
    requires formed { Formed requirements.now }
    ensures { refused result ≡ spec.all_met 0 requirements.now env.now }
{
    let mut k: u32 = 0;
    let mut left = requirements;
    while let [r, rest @ ..] = left {
        if !met(r, env) {
            return Err(ArgFault::Require(k));
        }
        k = k.saturating_add(1);
        left = rest;
    }
    Ok(())
}
