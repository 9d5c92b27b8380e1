//! e-cut: the lowest byte of a word.
ghost use Rattle.rup_base.specs.Answers.{AnswersWith};
ghost use Rattle.expr_rules.specs.rules.Cut as spec;

use crate::output::ExprOut;
use crate::words::{fresh_result, operation};
use bed_syntax::{BExpr, BOp};
use rup_base::Fail;
use sym_heap::Ctx;

pub fn after(ctx: &mut Ctx, at: u32, p: ExprOut) -> Result<ExprOut, Fail>
    ensures { AnswersWith result ctx.new (spec.after at p ctx.old) }
{
    let code = operation(ctx.allocator(), BOp::And, p.code, BExpr::Lit(255))?;
    fresh_result(ctx, at, 255, code)
}
