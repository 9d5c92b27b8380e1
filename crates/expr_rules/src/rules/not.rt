//! e-not: the other flag, whose facts are exchanged.
ghost use Rattle.std.specs.Prelude.{◌≡◌, [], ◌∷◌, pos, negsuc};
ghost use Rattle.rup_base.specs.Answers.{AnswersWith};
ghost use Rattle.side_certs.specs.LinearForm.{within};
ghost use Rattle.expr_rules.specs.Words.{sum_of};
ghost use Rattle.expr_rules.specs.rules.Not as spec;

use crate::output::ExprOut;
use crate::words::{made, operation};
use bed_syntax::{BExpr, BOp};
use rup_base::Fail;
use side_certs::{Form, Part};
use sym_heap::Ctx;

pub fn after(ctx: &Ctx, at: u32, p: ExprOut) -> Result<ExprOut, Fail>
    ensures { AnswersWith result ctx.now (spec.after at p ctx.now) }
{
    let form = made(at, other(&p.form))?;
    let code = operation(ctx.allocator(), BOp::Eq, p.code, BExpr::Lit(0))?;
    Ok(ExprOut {
        code,
        form,
        yes: p.no,
        no: p.yes,
    })
}

/// 1 less the form.
fn other(f: &Form) -> Option<Form>
    ensures { result ≡ within (sum_of (pos 1) ((negsuc 0, f.now) ∷ [])) }
{
    Form::sum(1, &[Part { times: -1, form: f }])
}
