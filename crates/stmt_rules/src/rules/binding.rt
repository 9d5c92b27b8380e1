//! s-let: the expression's value goes to a local that is free for the name.
ghost use Rattle.std.specs.Prelude.{◌≡◌, IfOk, OnOk};
ghost use Rattle.rup_base.specs.Answers.{AnswersWith};
ghost use Rattle.sym_heap.specs.Context as context;
ghost use Rattle.stmt_rules.specs.rules.Let as spec;

use crate::output::{StmtOut, code_and_form};
use bed_syntax::{BExpr, Cmd};
use expr_rules::ExprOut;
use expr_rules::words::need;
use model_syntax::Scalar;
use rup_base::{Fail, Name, NoMemory};
use side_certs::Form;
use sym_heap::Ctx;

pub fn after(
    ctx: &mut Ctx,
    at: u32,
    x: &Name,
    local: u32,
    kind: Scalar,
    p: ExprOut,
) -> Result<StmtOut, Fail>
    ensures { AnswersWith result ctx.new (spec.after at x.now local kind p ctx.old) }
{
    let (code, form) = code_and_form(p);
    need(ctx.is_free(local, Some(x)), at, 4)?;
    Ok(set(ctx, x, local, kind, code, form)?)
}

/// The local has the value, and the name is the scalar there.
fn set(
    ctx: &mut Ctx,
    x: &Name,
    local: u32,
    kind: Scalar,
    code: BExpr,
    form: Form,
) -> Result<StmtOut, NoMemory>
    ensures after { OnOk result (ctx.new ≡ context.with_scalar (context.held x.now local form kind) ctx.old) }
    ensures out { IfOk result (λ out. out ≡ spec.setting local code) }
{
    ctx.set_scalar(x, local, form, kind)?;
    StmtOut::only(ctx.allocator(), Cmd::Set(local, code))
}
