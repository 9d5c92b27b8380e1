//! The rows of operations whose value is a further symbol, of which facts
//! are known. They change the context where they fit, so all
//! is tested before.
ghost use Rattle.std.specs.Prelude.{◌≡◌, None, Some, IfOk, MatchOption};
ghost use Rattle.model_syntax.specs.declared.expr.Op.TheVariants as op;
ghost use Rattle.deriv_tree.specs.declared.rule.Rule.TheVariants as rule;
ghost use Rattle.sym_heap.specs.Context as context;
ghost use Rattle.expr_rules.specs.rules.Divk as divk;
ghost use Rattle.derive_search.specs.Offers.{offered};
ghost use Rattle.derive_search.specs.Rows as spec;

use crate::found::Special;
use deriv_tree::Rule;
use expr_rules::ExprOut;
use expr_rules::rules::divk::{divisor, greatest_quotient, remainder as rest, room};
use expr_rules::words::number_in;
use model_syntax::Op;
use rup_base::{List, NoMemory};
use side_certs::Form;
use sym_heap::Ctx;

/// The greatest number of symbols.
const MOST_SYMBOLS: usize = 0xffff_ffff;

/// The greatest number of facts.
const MOST_FACTS: usize = 4096;

/// The number of a further symbol, if there is room for one.
fn next_symbol(ctx: &Ctx) -> Option<u32>
    ensures { result ≡ context.next_symbol ctx.now }
{
    if ctx.tops().len() < MOST_SYMBOLS {
        Some(ctx.tops().len() as u32)
    } else {
        None
    }
}

/// There is room for a further fact.
pub fn has_room(ctx: &Ctx) -> bool
    ensures { result ≡ context.has_room ctx.now }
{
    ctx.facts().len() < MOST_FACTS
}

/// The row of bits of a word.
pub fn mask(ctx: &mut Ctx, at: u32, p: &ExprOut, q: &ExprOut) -> Result<Option<Special>, NoMemory>
    ensures { IfOk result (λ row. MatchOption row
        ((spec.special at op.And p.now q.now ctx.old ≡ None) × (ctx.new ≡ ctx.old))
        (λ x. spec.special at op.And p.now q.now ctx.old ≡ Some (offered op.And p.now q.now x ctx.new))) }
{
    let _ = at;
    let Some(top) = number_in(0, u32::MAX, &q.form) else {
        return Ok(None);
    };
    let Some(symbol) = next_symbol(ctx) else {
        return Ok(None);
    };
    let form = Form::symbol(symbol);
    let Some(fact) = p.form.sub(&form) else {
        return Ok(None);
    };
    if !has_room(ctx) {
        return Ok(None);
    }
    let _ = ctx.fresh(top)?;
    let _ = ctx.add_fact(fact)?;
    Ok(Some(Special {
        rule: Rule::EMask,
        certs: List::new(ctx.allocator()),
        form,
    }))
}

/// The row of a remainder by a number.
pub fn remainder(
    ctx: &mut Ctx,
    at: u32,
    p: &ExprOut,
    q: &ExprOut,
) -> Result<Option<Special>, NoMemory>
    ensures { IfOk result (λ row. MatchOption row
        ((spec.special at op.Remu p.now q.now ctx.old ≡ None) × (ctx.new ≡ ctx.old))
        (λ x. spec.special at op.Remu p.now q.now ctx.old ≡ Some (offered op.Remu p.now q.now x ctx.new))) }
{
    let _ = at;
    let Some(divisor) = number_in(1, u32::MAX, &q.form) else {
        return Ok(None);
    };
    let Some(symbol) = next_symbol(ctx) else {
        return Ok(None);
    };
    let form = Form::symbol(symbol);
    let Some(fact) = p.form.sub(&form) else {
        return Ok(None);
    };
    if !has_room(ctx) {
        return Ok(None);
    }
    let _ = ctx.fresh(divisor - 1)?;
    let _ = ctx.add_fact(fact)?;
    Ok(Some(Special {
        rule: Rule::ERemk,
        certs: List::new(ctx.allocator()),
        form,
    }))
}

/// There is room for two further facts, of which this is the first.
fn has_room_for_two(ctx: &Ctx, first: &Form) -> bool
    ensures { result ≡ context.has_room (context.with_fact first.now ctx.now) }
{
    let _ = first;
    ctx.facts().len() + 1 < MOST_FACTS
}

/// The row of a quotient by a number.
pub fn quotient(
    ctx: &mut Ctx,
    at: u32,
    op: Op,
    p: &ExprOut,
    q: &ExprOut,
) -> Result<Option<Special>, NoMemory>
    ensures { IfOk result (λ row. MatchOption row
        ((spec.plainly rule.EDivk (divk.after at op p.now q.now) ctx.old ≡ None) × (ctx.new ≡ ctx.old))
        (λ x. spec.plainly rule.EDivk (divk.after at op p.now q.now) ctx.old ≡ Some (offered op p.now q.now x ctx.new))) }
{
    let _ = at;
    let Some(by) = divisor(op, &q.form) else {
        return Ok(None);
    };
    let Some(symbol) = next_symbol(ctx) else {
        return Ok(None);
    };
    let form = Form::symbol(symbol);
    let Some(least) = rest(by, &p.form, &form) else {
        return Ok(None);
    };
    let Some(greatest) = room(by, &p.form, &form) else {
        return Ok(None);
    };
    if !has_room(ctx) || !has_room_for_two(ctx, &least) {
        return Ok(None);
    }
    let _ = ctx.fresh(greatest_quotient(by))?;
    let _ = ctx.add_fact(least)?;
    let _ = ctx.add_fact(greatest)?;
    Ok(Some(Special {
        rule: Rule::EDivk,
        certs: List::new(ctx.allocator()),
        form,
    }))
}
