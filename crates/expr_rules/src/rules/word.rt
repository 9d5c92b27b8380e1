//! e-word: the word of a byte or a flag has its code and its form.
ghost use Rattle.rup_base.specs.Answers.{AnswersWith};
ghost use Rattle.expr_rules.specs.rules.Word as spec;

use crate::output::ExprOut;
use crate::words::plain;
use rup_base::Fail;
use sym_heap::Ctx;

pub fn after(ctx: &Ctx, p: ExprOut) -> Result<ExprOut, Fail>
    ensures { AnswersWith result ctx.now (spec.after p ctx.now) }
{
    Ok(plain(ctx.allocator(), p.code, p.form))
}
