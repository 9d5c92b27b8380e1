//! The rows of operations that have a rule of their own: what each gives, where it fits. A context is changed by a row that fits
//! alone.
ghost use Rattle.std.specs.Prelude.{◌≡◌, None, Some, IfOk, MatchOption};
ghost use Rattle.model_syntax.specs.declared.expr.Op.TheVariants as op;
ghost use Rattle.derive_search.specs.Offers.{offered};
ghost use Rattle.derive_search.specs.Rows as spec;

use crate::certificate::certificate;
use crate::found::Special;
use crate::nodes::one;
use deriv_tree::Rule;
use expr_rules::ExprOut;
use expr_rules::rules::{add, mulk, shift as shifting};
use expr_rules::words::number_of;
use rup_base::NoMemory;
use sym_heap::Ctx;

/// The row of a sum.
pub fn sum(ctx: &Ctx, at: u32, p: &ExprOut, q: &ExprOut) -> Result<Option<Special>, NoMemory>
    ensures { IfOk result (λ row. MatchOption row
        (spec.special at op.Add p.now q.now ctx.now ≡ None)
        (λ x. spec.special at op.Add p.now q.now ctx.now ≡ Some (offered op.Add p.now q.now x ctx.now))) }
{
    let _ = at;
    let Some(goal) = add::room(&p.form, &q.form) else {
        return Ok(None);
    };
    let Some(cert) = certificate(ctx, &goal)? else {
        return Ok(None);
    };
    let Some(form) = p.form.add(&q.form) else {
        return Ok(None);
    };
    let certs = one(ctx.allocator(), cert)?;
    Ok(Some(Special {
        rule: Rule::EAdd,
        certs,
        form,
    }))
}

/// The row of a difference.
pub fn difference(ctx: &Ctx, at: u32, p: &ExprOut, q: &ExprOut) -> Result<Option<Special>, NoMemory>
    ensures { IfOk result (λ row. MatchOption row
        (spec.special at op.Sub p.now q.now ctx.now ≡ None)
        (λ x. spec.special at op.Sub p.now q.now ctx.now ≡ Some (offered op.Sub p.now q.now x ctx.now))) }
{
    let _ = at;
    let Some(form) = p.form.sub(&q.form) else {
        return Ok(None);
    };
    let Some(cert) = certificate(ctx, &form)? else {
        return Ok(None);
    };
    let certs = one(ctx.allocator(), cert)?;
    Ok(Some(Special {
        rule: Rule::ESub,
        certs,
        form,
    }))
}

/// The row of a product.
#[tactic(auto, using(crate::proofs::Multiples::product_fits))]
pub fn product(ctx: &Ctx, at: u32, p: &ExprOut, q: &ExprOut) -> Result<Option<Special>, NoMemory>
    ensures { IfOk result (λ row. MatchOption row
        (spec.special at op.Mul p.now q.now ctx.now ≡ None)
        (λ x. spec.special at op.Mul p.now q.now ctx.now ≡ Some (offered op.Mul p.now q.now x ctx.now))) }
{
    let _ = at;
    let Some(factor) = number_of(&q.form) else {
        return Ok(None);
    };
    let Some(goal) = mulk::room(factor, &p.form) else {
        return Ok(None);
    };
    let Some(cert) = certificate(ctx, &goal)? else {
        return Ok(None);
    };
    let Some(form) = p.form.scale(factor) else {
        return Ok(None);
    };
    let certs = one(ctx.allocator(), cert)?;
    Ok(Some(Special {
        rule: Rule::EMulk,
        certs,
        form,
    }))
}

/// The row of a shift to the left.
#[tactic(auto, using(crate::proofs::Multiples::shift_fits))]
pub fn shift(ctx: &Ctx, at: u32, p: &ExprOut, q: &ExprOut) -> Result<Option<Special>, NoMemory>
    ensures { IfOk result (λ row. MatchOption row
        (spec.special at op.Shl p.now q.now ctx.now ≡ None)
        (λ x. spec.special at op.Shl p.now q.now ctx.now ≡ Some (offered op.Shl p.now q.now x ctx.now))) }
{
    let _ = at;
    let Some(factor) = shifting::power(&q.form) else {
        return Ok(None);
    };
    let Some(goal) = mulk::room(i64::from(factor), &p.form) else {
        return Ok(None);
    };
    let Some(cert) = certificate(ctx, &goal)? else {
        return Ok(None);
    };
    let Some(form) = p.form.scale(i64::from(factor)) else {
        return Ok(None);
    };
    let certs = one(ctx.allocator(), cert)?;
    Ok(Some(Special {
        rule: Rule::EShift,
        certs,
        form,
    }))
}
