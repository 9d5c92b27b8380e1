//! The values of expressions.
ghost use Rattle.std.specs.Prelude.{◌≡◌};
ghost use Rattle.std.specs.Option.{option_copied};
ghost use Rattle.model_syntax.specs.Environment as spec;
ghost use Rattle.model_syntax.specs.Value.{eval};
ghost use Rattle.model_value.specs.Bindings.{behind_locals};

use crate::environment::{Environment, element, number, size, word_at};
use model_syntax::{Expr, apply, holds};
use rup_base::{Arg, Name};

/// A name that has a number of its own in front of the environment: the element of a `map` or a `fold`, or the scalar
/// of a `fold`.
#[derive(Clone, Copy)]
pub struct Local<'a> {
    pub name: &'a Name,
    pub number: u32,
}

/// The value of an expression in an environment behind the locals. A flag is 1 where it is true and 0 where it is false.
pub fn eval(e: &Expr, env: &Environment, locals: &[Local<'_>]) -> u32
    ensures { result ≡ eval e.now (behind_locals locals.now env.now) }
{
    match e {
        Expr::Lit(n) => *n,
        Expr::Var(x) => scalar(x, env, locals),
        Expr::Length(a) => size(array(a, env, locals)),
        Expr::Bin(op, p, q) => apply(*op, eval(p, env, locals), eval(q, env, locals)),
        Expr::Test(cmp, p, q) => u32::from(holds(*cmp, eval(p, env, locals), eval(q, env, locals))),
        Expr::Not(p) => u32::from(eval(p, env, locals) == 0),
        Expr::Both(p, q) => u32::from(eval(p, env, locals) != 0 && eval(q, env, locals) != 0),
        Expr::Either(p, q) => u32::from(eval(p, env, locals) != 0 || eval(q, env, locals) != 0),
        Expr::ToWord(p) => eval(p, env, locals),
        Expr::ToByte(p) => eval(p, env, locals) & 0xff,
        Expr::Get(a, i) => element(array(a, env, locals), eval(i, env, locals) as usize),
        Expr::Tab(_, entries, i) => word_at(entries.as_slice(), eval(i, env, locals) as usize),
    }
}

/// The number of a name behind the locals.
#[tactic(auto, using(crate::proofs::Puts::value_put))]
fn scalar(x: &Name, env: &Environment, locals: &[Local<'_>]) -> u32
    ensures { result ≡ spec.number (spec.value_of (behind_locals locals.now env.now) x.now) }
{
    match locals {
        [] => number(env.get(x)),
        [local, rest @ ..] => {
            if *local.name == *x {
                local.number
            } else {
                scalar(x, env, rest)
            }
        }
    }
}

/// The array of a name behind the locals, which are none.
#[tactic(auto, using(crate::proofs::Puts::value_put))]
fn array<'a>(x: &Name, env: &'a Environment, locals: &[Local<'_>]) -> Option<&'a Arg>
    ensures { spec.elements (option_copied result) ≡ spec.elements (spec.value_of (behind_locals locals.now env.now) x.now) }
{
    match locals {
        [] => env.get(x),
        [local, rest @ ..] => {
            if *local.name == *x {
                None
            } else {
                array(x, env, rest)
            }
        }
    }
}
