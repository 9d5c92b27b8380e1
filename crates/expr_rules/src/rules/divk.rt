//! e-divk: a quotient by a number.
ghost use Rattle.std.specs.Prelude.{◌≡◌, ◌-◌, ◌/◌, ◌^◌, ◌≤◌, true, [], ◌∷◌, pos, negsuc, neg_ℤ, IfSome};
ghost use Rattle.rup_base.specs.Answers.{AnswersWith};
ghost use Rattle.side_certs.specs.LinearForm.{is_small, within};
ghost use Rattle.expr_rules.specs.Words.{most, sum_of};
ghost use Rattle.expr_rules.specs.rules.Divk as spec;

use crate::output::ExprOut;
use crate::rules::op::code_of;
use crate::rules::shift::power;
use crate::words::{fact, fresh, no_instance, number_of, operation, opposite, plain};
use model_syntax::Op;
use rup_base::Fail;
use side_certs::{Form, Part};
use sym_heap::Ctx;

pub fn after(ctx: &mut Ctx, at: u32, op: Op, p: ExprOut, q: ExprOut) -> Result<ExprOut, Fail>
    ensures { AnswersWith result ctx.new (spec.after at op p q ctx.old) }
{
    let Some(by) = divisor(op, &q.form) else {
        return Err(no_instance(at, 4));
    };
    let symbol = fresh(ctx, at, greatest_quotient(by))?;
    fact(ctx, at, remainder(by, &p.form, &symbol))?;
    fact(ctx, at, room(by, &p.form, &symbol))?;
    let code = operation(ctx.allocator(), code_of(op), p.code, q.code)?;
    Ok(plain(ctx.allocator(), code, symbol))
}

/// What an operation divides by.
pub fn divisor(op: Op, form: &Form) -> Option<u64>
    ensures divisor { result ≡ spec.divisor op form.now }
    ensures range { IfSome result (λ n. (1 ≤ n) × (n ≤ 2 ^ 40)) }
{
    match op {
        Op::Divu => from_one(number_of(form)?),
        Op::Shr => Some(u64::from(power(form)?)),
        _ => None,
    }
}

/// The number, if it is one from 1 on.
fn from_one(k: i64) -> Option<u64>
    requires { is_small k ≡ true }
    ensures number { result ≡ spec.from_one k }
    ensures range { IfSome result (λ n. (1 ≤ n) × (n ≤ 2 ^ 40)) }
{
    if k >= 1 { Some(k.unsigned_abs()) } else { None }
}

/// The greatest quotient of a word.
pub fn greatest_quotient(by: u64) -> u32
    requires { 1 ≤ by }
    ensures { result ≡ most / by }
{
    (u64::from(u32::MAX) / by) as u32
}

/// The form less the multiple of the quotient.
pub fn remainder(by: u64, f: &Form, quotient: &Form) -> Option<Form>
    requires { by ≤ 2 ^ 40 }
    ensures { result ≡ within (sum_of (pos 0) ((pos 1, f.now) ∷ (neg_ℤ (pos by), quotient.now) ∷ [])) }
{
    Form::sum(
        0,
        &[
            Part { times: 1, form: f },
            Part {
                times: opposite(by as i64),
                form: quotient,
            },
        ],
    )
}

/// The greatest remainder less the remainder.
pub fn room(by: u64, f: &Form, quotient: &Form) -> Option<Form>
    requires { (1 ≤ by) × (by ≤ 2 ^ 40) }
    ensures { result ≡ within (sum_of (pos (by - 1)) ((pos by, quotient.now) ∷ (negsuc 0, f.now) ∷ [])) }
{
    Form::sum(
        (by - 1) as i64,
        &[
            Part {
                times: by as i64,
                form: quotient,
            },
            Part { times: -1, form: f },
        ],
    )
}
