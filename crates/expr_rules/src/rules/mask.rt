//! e-mask: bits of a word, which are at most the mask and at most the word.
ghost use Rattle.rup_base.specs.Answers.{AnswersWith};
ghost use Rattle.expr_rules.specs.rules.Mask as spec;

use crate::output::ExprOut;
use crate::words::{fact, fresh, no_instance, number_in, operation, plain};
use bed_syntax::BOp;
use rup_base::Fail;
use sym_heap::Ctx;

pub fn after(ctx: &mut Ctx, at: u32, p: ExprOut, q: ExprOut) -> Result<ExprOut, Fail>
    ensures { AnswersWith result ctx.new (spec.after at p q ctx.old) }
{
    let Some(most) = number_in(0, u32::MAX, &q.form) else {
        return Err(no_instance(at, 4));
    };
    let symbol = fresh(ctx, at, most)?;
    fact(ctx, at, p.form.sub(&symbol))?;
    let code = operation(ctx.allocator(), BOp::And, p.code, q.code)?;
    Ok(plain(ctx.allocator(), code, symbol))
}
