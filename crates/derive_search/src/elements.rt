//! Elements of arrays and entries of tables, which are shown to be there.
ghost use Rattle.std.specs.Prelude.{◌≡◌, [], ◌∷◌, is_some};
ghost use Rattle.sym_heap.specs.Context.{own};
ghost use Rattle.rup_base.specs.Answers.{AnswersWith};
ghost use Rattle.derive_search.specs.Rows as rows;
ghost use Rattle.derive_search.specs.Expressions as spec;

use crate::certificate::certificate;
use crate::found::Found;
use crate::nodes::{one, over_one, stuck};
use deriv_tree::Rule;
use expr_rules::rules::{get, tab};
use model_syntax::{Expr, Scalar};
use rup_base::{Fail, Name};
use sym_heap::Ctx;

/// The name is an array's.
pub fn is_array(ctx: &Ctx, a: &Name) -> bool
    ensures { result ≡ is_some (own ctx.now a.now) }
{
    ctx.own(a).is_some()
}

/// The row of an element.
pub fn element_row(
    ctx: &mut Ctx,
    at: u32,
    stmt: u32,
    e: &Expr,
    a: &Name,
    index: Found,
) -> Result<Found, Fail>
    ensures { AnswersWith result ctx.new
        (spec.chosen (spec.stuck stmt e.now) (index.node ∷ []) (rows.element at a.now index.out ∷ []) ctx.old) }
{
    let Found { node: kid, out: p } = index;
    let Some(clause) = ctx.own(a) else {
        return Err(Fail::Refused(stuck(ctx.allocator(), stmt, e)?));
    };
    let Some(goal) = get::room(&clause.length, &p.form) else {
        return Err(Fail::Refused(stuck(ctx.allocator(), stmt, e)?));
    };
    let Some(cert) = certificate(ctx, &goal)? else {
        return Err(Fail::Refused(stuck(ctx.allocator(), stmt, e)?));
    };
    let certs = one(ctx.allocator(), cert)?;
    match get::after(ctx, at, certs.as_slice(), a, p) {
        Ok(out) => {
            let node = over_one(ctx.allocator(), Rule::EGet, certs, kid)?;
            Ok(Found { node, out })
        }
        Err(Fail::NoMemory) => Err(Fail::NoMemory),
        Err(Fail::Refused(_)) => Err(Fail::Refused(stuck(ctx.allocator(), stmt, e)?)),
    }
}

/// The row of an entry.
pub fn entry_row(
    ctx: &mut Ctx,
    at: u32,
    stmt: u32,
    e: &Expr,
    scalar: Scalar,
    entries: &[u32],
    index: Found,
) -> Result<Found, Fail>
    ensures { AnswersWith result ctx.new
        (spec.chosen (spec.stuck stmt e.now) (index.node ∷ []) (rows.entry at scalar entries.now index.out ∷ []) ctx.old) }
{
    let Found { node: kid, out: p } = index;
    let Some(goal) = tab::room(entries, &p.form) else {
        return Err(Fail::Refused(stuck(ctx.allocator(), stmt, e)?));
    };
    let Some(cert) = certificate(ctx, &goal)? else {
        return Err(Fail::Refused(stuck(ctx.allocator(), stmt, e)?));
    };
    let certs = one(ctx.allocator(), cert)?;
    match tab::after(ctx, at, certs.as_slice(), scalar, entries, p) {
        Ok(out) => {
            let node = over_one(ctx.allocator(), Rule::ETab, certs, kid)?;
            Ok(Found { node, out })
        }
        Err(Fail::NoMemory) => Err(Fail::NoMemory),
        Err(Fail::Refused(_)) => Err(Fail::Refused(stuck(ctx.allocator(), stmt, e)?)),
    }
}
