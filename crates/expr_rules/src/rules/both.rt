//! e-both: a flag that is true where both are, and then has the facts of both.
ghost use Rattle.rup_base.specs.Answers.{AnswersWith};
ghost use Rattle.expr_rules.specs.rules.Both as spec;

use crate::output::ExprOut;
use crate::words::{fresh, joined, operation};
use bed_syntax::BOp;
use rup_base::{Fail, List};
use sym_heap::Ctx;

pub fn after(ctx: &mut Ctx, at: u32, p: ExprOut, q: ExprOut) -> Result<ExprOut, Fail>
    ensures { AnswersWith result ctx.new (spec.after at p q ctx.old) }
{
    let symbol = fresh(ctx, at, 1)?;
    let code = operation(ctx.allocator(), BOp::And, p.code, q.code)?;
    let facts = joined(p.yes, q.yes.as_slice())?;
    Ok(ExprOut {
        code,
        form: symbol,
        yes: facts,
        no: List::new(ctx.allocator()),
    })
}
