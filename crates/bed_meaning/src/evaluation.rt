//! The values of expressions, and what they cost.
ghost use Rattle.std.specs.Prelude.{◌≡◌, ◌+◌, ◌*◌, ◌^◌, ◌<◌, ◌≤◌, IfSome};
ghost use Rattle.bed_syntax.specs.Shape.{expr_size};
ghost use Rattle.bed_syntax.specs.Weight.{IsLawful, expr_weight};
ghost use Rattle.bed_meaning.specs.Value.{value};

use crate::access::{load, look_up};
use crate::locals::Locals;
use bed_syntax::{BExpr, Weights};
use rv_memory::Memory;

/// The value of an expression, if nothing in it is stuck. Its weight is added to the ticks.
pub fn eval(w: &Weights, e: &BExpr, mem: &Memory, locals: &Locals, ticks: &mut u128) -> Option<u32>
    requires lawful { IsLawful w.now }
    requires room { ticks.old + 64 * expr_size e.now < 2 ^ 128 }
    ensures gives { result ≡ value e.now mem.now locals.now }
    ensures cost { IfSome result (λ _. ticks.new ≡ ticks.old + expr_weight w.now e.now) }
    ensures bounded { ticks.new ≤ ticks.old + 64 * expr_size e.now }
{
    match e {
        BExpr::Lit(n) => {
            *ticks += u128::from(w.literal);
            Some(*n)
        }
        BExpr::Var(x) => {
            *ticks += u128::from(w.variable);
            locals.get(*x)
        }
        BExpr::Bin(op, a, b) => {
            let left = eval(w, a, mem, locals, ticks)?;
            let right = eval(w, b, mem, locals, ticks)?;
            *ticks += u128::from(w.operation);
            Some(op.apply(left, right))
        }
        BExpr::Load(size, a) => {
            let at = eval(w, a, mem, locals, ticks)?;
            *ticks += u128::from(w.load);
            load(mem, *size, at)
        }
        BExpr::Table(size, bytes, i) => {
            let at = eval(w, i, mem, locals, ticks)?;
            *ticks += u128::from(w.table);
            look_up(bytes.as_slice(), *size, at)
        }
    }
}
