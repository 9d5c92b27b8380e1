//! e-shift: a word shifted to the left, where the word times the power of two is a word.
ghost use Rattle.std.specs.Prelude.{◌≡◌, ◌≤◌, IfSome};
ghost use Rattle.rup_base.specs.Answers.{AnswersWith};
ghost use Rattle.expr_rules.specs.rules.Shift as spec;

use crate::output::ExprOut;
use crate::rules::mulk::multiple;
use crate::words::{no_instance, number_in};
use bed_syntax::BOp;
use rup_base::Fail;
use side_certs::{Cert, Form};
use sym_heap::Ctx;

/// 2 to the power of a shift, which is a number from 0 to 31.
pub fn power(form: &Form) -> Option<u32>
    ensures power { result ≡ spec.power form.now }
    ensures some { IfSome result (λ n. 1 ≤ n) }
{
    match number_in(0, 31, form) {
        None => None,
        Some(shift) => Some(1 << shift),
    }
}

pub fn after(ctx: &Ctx, at: u32, certs: &[Cert], p: ExprOut, q: ExprOut) -> Result<ExprOut, Fail>
    ensures { AnswersWith result ctx.now (spec.after certs.now at p q ctx.now) }
{
    let Some(factor) = power(&q.form) else {
        return Err(no_instance(at, 4));
    };
    multiple(ctx, at, certs, i64::from(factor), BOp::Slu, p, q)
}
