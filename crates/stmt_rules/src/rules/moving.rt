//! s-move: the element of an index gets a value, and the array goes on under another name.
ghost use Rattle.rup_base.specs.Answers.{AnswersWith};
ghost use Rattle.stmt_rules.specs.rules.Move as spec;

use crate::output::StmtOut;
use crate::rules::put;
use expr_rules::ExprOut;
use expr_rules::words::{need, no_instance};
use rup_base::{Fail, Name};
use side_certs::Cert;
use sym_heap::Ctx;

/// The name is an array's, and no other array has the new name.
pub fn before(ctx: &Ctx, at: u32, a: &Name, b: &Name) -> Result<(), Fail>
    ensures { AnswersWith result ctx.now (spec.before at a.now b.now ctx.now) }
{
    put::before(ctx, at, a)?;
    need(a == b || ctx.own(b).is_none(), at, 5)
}

/// After index and value.
pub fn after(
    ctx: &mut Ctx,
    at: u32,
    certs: &[Cert],
    a: &Name,
    b: &Name,
    p: ExprOut,
    q: ExprOut,
) -> Result<StmtOut, Fail>
    ensures { AnswersWith result ctx.new (spec.after certs.now at a.now b.now p q ctx.old) }
{
    let out = put::after(ctx, at, certs, a, p, q)?;
    if ctx.move_clause(a, b)? {
        Ok(out)
    } else {
        Err(no_instance(at, 5))
    }
}
