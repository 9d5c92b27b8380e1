//! e-mulk: a word times a number, where that is a word.
ghost use Rattle.std.specs.Prelude.{◌≡◌, [], ◌∷◌, pos, neg_ℤ, true};
ghost use Rattle.rup_base.specs.Answers.{AnswersWith};
ghost use Rattle.side_certs.specs.LinearForm.{is_small, within};
ghost use Rattle.expr_rules.specs.Words.{most, sum_of};
ghost use Rattle.expr_rules.specs.rules.Mulk as spec;

use crate::output::ExprOut;
use crate::words::{made, no_instance, number_of, operation, opposite, plain, shown};
use bed_syntax::{BExpr, BOp};
use rup_base::Fail;
use side_certs::{Cert, Form, Part};
use sym_heap::Ctx;

pub fn after(ctx: &Ctx, at: u32, certs: &[Cert], p: ExprOut, q: ExprOut) -> Result<ExprOut, Fail>
    ensures { AnswersWith result ctx.now (spec.after certs.now at p q ctx.now) }
{
    let Some(factor) = number_of(&q.form) else {
        return Err(no_instance(at, 4));
    };
    multiple(ctx, at, certs, factor, BOp::Mul, p, q)
}

/// An operation that gives a multiple of the first part.
pub fn multiple(
    ctx: &Ctx,
    at: u32,
    certs: &[Cert],
    factor: i64,
    op: BOp,
    p: ExprOut,
    q: ExprOut,
) -> Result<ExprOut, Fail>
    requires { is_small factor ≡ true }
    ensures { AnswersWith result ctx.now (spec.multiple certs.now at factor op p q ctx.now) }
{
    let goal = room(factor, &p.form);
    let form = p.form.scale(factor);
    let code = operation(ctx.allocator(), op, p.code, q.code)?;
    product(ctx, at, certs, goal, form, code)
}

/// Code of this form, where the certificate closes the goal.
fn product(
    ctx: &Ctx,
    at: u32,
    certs: &[Cert],
    goal: Option<Form>,
    form: Option<Form>,
    code: BExpr,
) -> Result<ExprOut, Fail>
    ensures { AnswersWith result ctx.now (spec.product certs.now at goal form code ctx.now) }
{
    shown(ctx, at, certs, goal)?;
    let form = made(at, form)?;
    Ok(plain(ctx.allocator(), code, form))
}

/// The greatest word less the multiple of the form.
pub fn room(factor: i64, f: &Form) -> Option<Form>
    requires { is_small factor ≡ true }
    ensures { result ≡ within (sum_of (pos most) ((neg_ℤ factor, f.now) ∷ [])) }
{
    Form::sum(
        i64::from(u32::MAX),
        &[Part {
            times: opposite(factor),
            form: f,
        }],
    )
}
