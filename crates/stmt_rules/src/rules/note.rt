//! s-note: a form that a certificate shows to be at least 0 becomes a fact.
ghost use Rattle.rup_base.specs.Answers.{AnswersWith};
ghost use Rattle.stmt_rules.specs.rules.Note as spec;

use crate::args::flat;
use crate::output::StmtOut;
use expr_rules::words::{cert, fact, made};
use rup_base::Fail;
use side_certs::Cert;
use sym_heap::Ctx;

pub fn row(ctx: &mut Ctx, at: u32, args: &[i64], certs: &[Cert]) -> Result<StmtOut, Fail>
    ensures { AnswersWith result ctx.new (spec.row at args.now certs.now ctx.old) }
{
    let form = made(at, flat(args))?;
    cert(ctx, at, certs, &form)?;
    fact(ctx, at, Some(form))?;
    Ok(StmtOut::nothing(ctx.allocator()))
}
