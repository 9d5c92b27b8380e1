//! e-lit: a number is itself.
ghost use Rattle.rup_base.specs.Answers.{AnswersWith};
ghost use Rattle.expr_rules.specs.rules.Lit as spec;

use crate::output::ExprOut;
use crate::words::{made, plain};
use bed_syntax::BExpr;
use rup_base::Fail;
use side_certs::Form;
use sym_heap::Ctx;

pub fn after(ctx: &Ctx, at: u32, n: u32) -> Result<ExprOut, Fail>
    ensures { AnswersWith result ctx.now (spec.after at n ctx.now) }
{
    let form = made(at, Form::constant(i64::from(n)))?;
    Ok(plain(ctx.allocator(), BExpr::Lit(n), form))
}
