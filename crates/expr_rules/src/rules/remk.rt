//! e-remk: a remainder by a number, which is less than the number and at most the dividend.
ghost use Rattle.rup_base.specs.Answers.{AnswersWith};
ghost use Rattle.expr_rules.specs.rules.Remk as spec;

use crate::output::ExprOut;
use crate::words::{fact, fresh, no_instance, number_in, operation, plain};
use bed_syntax::BOp;
use rup_base::Fail;
use sym_heap::Ctx;

pub fn after(ctx: &mut Ctx, at: u32, p: ExprOut, q: ExprOut) -> Result<ExprOut, Fail>
    ensures { AnswersWith result ctx.new (spec.after at p q ctx.old) }
{
    let Some(divisor) = number_in(1, u32::MAX, &q.form) else {
        return Err(no_instance(at, 4));
    };
    let symbol = fresh(ctx, at, divisor - 1)?;
    fact(ctx, at, p.form.sub(&symbol))?;
    let code = operation(ctx.allocator(), BOp::Remu, p.code, q.code)?;
    Ok(plain(ctx.allocator(), code, symbol))
}
