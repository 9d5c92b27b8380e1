//! e-byte: the byte of a word that is one.
ghost use Rattle.std.specs.Prelude.{◌≡◌, [], ◌∷◌, pos, negsuc};
ghost use Rattle.rup_base.specs.Answers.{AnswersWith};
ghost use Rattle.side_certs.specs.LinearForm.{within};
ghost use Rattle.expr_rules.specs.Words.{sum_of};
ghost use Rattle.expr_rules.specs.rules.Byte as spec;

use crate::output::ExprOut;
use crate::words::{plain, shown};
use rup_base::Fail;
use side_certs::{Cert, Form, Part};
use sym_heap::Ctx;

pub fn after(ctx: &Ctx, at: u32, certs: &[Cert], p: ExprOut) -> Result<ExprOut, Fail>
    ensures { AnswersWith result ctx.now (spec.after certs.now at p ctx.now) }
{
    shown(ctx, at, certs, room(&p.form))?;
    Ok(plain(ctx.allocator(), p.code, p.form))
}

/// The greatest byte less the form.
pub fn room(f: &Form) -> Option<Form>
    ensures { result ≡ within (sum_of (pos 255) ((negsuc 0, f.now) ∷ [])) }
{
    Form::sum(255, &[Part { times: -1, form: f }])
}
