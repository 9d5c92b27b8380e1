//! e-add: a sum that is a word.
ghost use Rattle.std.specs.Prelude.{◌≡◌, [], ◌∷◌, pos, negsuc};
ghost use Rattle.rup_base.specs.Answers.{AnswersWith};
ghost use Rattle.side_certs.specs.LinearForm.{within};
ghost use Rattle.expr_rules.specs.Words.{most, sum_of};
ghost use Rattle.expr_rules.specs.rules.Add as spec;

use crate::output::ExprOut;
use crate::words::{made, operation, plain, shown};
use bed_syntax::BOp;
use rup_base::Fail;
use side_certs::{Cert, Form, Part};
use sym_heap::Ctx;

pub fn after(ctx: &Ctx, at: u32, certs: &[Cert], p: ExprOut, q: ExprOut) -> Result<ExprOut, Fail>
    ensures { AnswersWith result ctx.now (spec.after certs.now at p q ctx.now) }
{
    shown(ctx, at, certs, room(&p.form, &q.form))?;
    let form = made(at, p.form.add(&q.form))?;
    let code = operation(ctx.allocator(), BOp::Add, p.code, q.code)?;
    Ok(plain(ctx.allocator(), code, form))
}

/// The greatest word less both forms.
pub fn room(f: &Form, g: &Form) -> Option<Form>
    ensures { result ≡ within (sum_of (pos most) ((negsuc 0, f.now) ∷ (negsuc 0, g.now) ∷ [])) }
{
    Form::sum(
        i64::from(u32::MAX),
        &[Part { times: -1, form: f }, Part { times: -1, form: g }],
    )
}
