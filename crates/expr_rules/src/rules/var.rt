//! e-var: a scalar is its local and has its form.
ghost use Rattle.rup_base.specs.Answers.{AnswersWith};
ghost use Rattle.expr_rules.specs.rules.Var as spec;

use crate::output::ExprOut;
use crate::words::{no_instance, plain};
use bed_syntax::BExpr;
use rup_base::{Fail, Name};
use sym_heap::Ctx;

pub fn after(ctx: &Ctx, at: u32, x: &Name) -> Result<ExprOut, Fail>
    ensures { AnswersWith result ctx.now (spec.after at x.now ctx.now) }
{
    match ctx.scalar(x) {
        Some(held) => Ok(plain(ctx.allocator(), BExpr::Var(held.local), held.form.copy())),
        None => Err(no_instance(at, 1)),
    }
}
