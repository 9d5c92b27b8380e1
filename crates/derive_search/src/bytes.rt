//! The bytes of words: the word's own code where it is shown to be a byte, or else its lowest byte.
ghost use Rattle.std.specs.Prelude.{[], ◌∷◌};
ghost use Rattle.rup_base.specs.Answers.{AnswersWith};
ghost use Rattle.deriv_tree.specs.declared.rule.Rule.TheVariants as rule;
ghost use Rattle.expr_rules.specs.rules.Cut as cut;
ghost use Rattle.derive_search.specs.Rows as rows;
ghost use Rattle.derive_search.specs.Expressions as spec;

use crate::certificate::certificate;
use crate::found::Found;
use crate::nodes::{one, over_one, stuck};
use deriv_tree::{ExprNode, Rule};
use expr_rules::ExprOut;
use expr_rules::rules::{byte, cut};
use expr_rules::words::plain;
use model_syntax::Expr;
use rup_base::{Fail, List};
use sym_heap::Ctx;

/// The first row of a byte that fits.
pub fn byte_row(ctx: &mut Ctx, at: u32, stmt: u32, e: &Expr, a: Found) -> Result<Found, Fail>
    ensures { AnswersWith result ctx.new (spec.chosen (spec.stuck stmt e.now) (a.node ∷ []) (rows.bytes at a.out) ctx.old) }
{
    let Found { node: kid, out: p } = a;
    let Some(goal) = byte::room(&p.form) else {
        return cut_row(ctx, at, stmt, e, kid, p);
    };
    match certificate(ctx, &goal)? {
        None => cut_row(ctx, at, stmt, e, kid, p),
        Some(cert) => {
            let certs = one(ctx.allocator(), cert)?;
            let node = over_one(ctx.allocator(), Rule::EByte, certs, kid)?;
            let out = plain(ctx.allocator(), p.code, p.form);
            Ok(Found { node, out })
        }
    }
}

/// The row of the lowest byte.
fn cut_row(
    ctx: &mut Ctx,
    at: u32,
    stmt: u32,
    e: &Expr,
    kid: ExprNode,
    p: ExprOut,
) -> Result<Found, Fail>
    ensures { AnswersWith result ctx.new
        (spec.chosen (spec.stuck stmt e.now) (kid ∷ []) (rows.plainly rule.ECut (cut.after at p) ∷ []) ctx.old) }
{
    match cut::after(ctx, at, p) {
        Ok(out) => {
            let none = List::new(ctx.allocator());
            let node = over_one(ctx.allocator(), Rule::ECut, none, kid)?;
            Ok(Found { node, out })
        }
        Err(Fail::NoMemory) => Err(Fail::NoMemory),
        Err(Fail::Refused(_)) => Err(Fail::Refused(stuck(ctx.allocator(), stmt, e)?)),
    }
}
