//! e-sub: a difference that is not below 0.
ghost use Rattle.rup_base.specs.Answers.{AnswersWith};
ghost use Rattle.expr_rules.specs.rules.Sub as spec;

use crate::output::ExprOut;
use crate::words::{made, operation, plain, shown};
use bed_syntax::BOp;
use rup_base::Fail;
use side_certs::Cert;
use sym_heap::Ctx;

pub fn after(ctx: &Ctx, at: u32, certs: &[Cert], p: ExprOut, q: ExprOut) -> Result<ExprOut, Fail>
    ensures { AnswersWith result ctx.now (spec.after certs.now at p q ctx.now) }
{
    shown(ctx, at, certs, p.form.sub(&q.form))?;
    let form = made(at, p.form.sub(&q.form))?;
    let code = operation(ctx.allocator(), BOp::Sub, p.code, q.code)?;
    Ok(plain(ctx.allocator(), code, form))
}
