//! Flags, and words of bytes and flags: each has one row.
ghost use Rattle.std.specs.Prelude.{[], ◌∷◌};
ghost use Rattle.rup_base.specs.Answers.{AnswersWith};
ghost use Rattle.deriv_tree.specs.declared.rule.Rule.TheVariants as rule;
ghost use Rattle.expr_rules.specs.rules.Cmp as cmp;
ghost use Rattle.expr_rules.specs.rules.Not as negation;
ghost use Rattle.expr_rules.specs.rules.Both as both;
ghost use Rattle.expr_rules.specs.rules.Either as either;
ghost use Rattle.expr_rules.specs.rules.Word as word;
ghost use Rattle.derive_search.specs.Rows as rows;
ghost use Rattle.derive_search.specs.Expressions as spec;

use crate::found::Found;
use crate::nodes::{over_one, over_two, stuck};
use deriv_tree::Rule;
use expr_rules::rules::{both, cmp, either, not, word};
use model_syntax::{Cmp, Expr};
use rup_base::{Fail, List};
use sym_heap::Ctx;

/// The row of a comparison.
pub fn comparison(
    ctx: &mut Ctx,
    at: u32,
    stmt: u32,
    e: &Expr,
    test: Cmp,
    a: Found,
    b: Found,
) -> Result<Found, Fail>
    ensures { AnswersWith result ctx.new
        (spec.chosen (spec.stuck stmt e.now) (a.node ∷ b.node ∷ []) (rows.plainly rule.ECmp (cmp.after at test a.out b.out) ∷ [])
        ctx.old) }
{
    let Found {
        node: first,
        out: p,
    } = a;
    let Found {
        node: second,
        out: q,
    } = b;
    match cmp::after(ctx, at, test, p, q) {
        Ok(out) => {
            let none = List::new(ctx.allocator());
            let node = over_two(ctx.allocator(), Rule::ECmp, none, first, second)?;
            Ok(Found { node, out })
        }
        Err(Fail::NoMemory) => Err(Fail::NoMemory),
        Err(Fail::Refused(_)) => Err(Fail::Refused(stuck(ctx.allocator(), stmt, e)?)),
    }
}

/// The row of a flag that is true where both are.
pub fn both_flags(
    ctx: &mut Ctx,
    at: u32,
    stmt: u32,
    e: &Expr,
    a: Found,
    b: Found,
) -> Result<Found, Fail>
    ensures { AnswersWith result ctx.new
        (spec.chosen (spec.stuck stmt e.now) (a.node ∷ b.node ∷ []) (rows.plainly rule.EBoth (both.after at a.out b.out) ∷ [])
        ctx.old) }
{
    let Found {
        node: first,
        out: p,
    } = a;
    let Found {
        node: second,
        out: q,
    } = b;
    match both::after(ctx, at, p, q) {
        Ok(out) => {
            let none = List::new(ctx.allocator());
            let node = over_two(ctx.allocator(), Rule::EBoth, none, first, second)?;
            Ok(Found { node, out })
        }
        Err(Fail::NoMemory) => Err(Fail::NoMemory),
        Err(Fail::Refused(_)) => Err(Fail::Refused(stuck(ctx.allocator(), stmt, e)?)),
    }
}

/// The row of a flag that is true where one is.
pub fn either_flag(
    ctx: &mut Ctx,
    at: u32,
    stmt: u32,
    e: &Expr,
    a: Found,
    b: Found,
) -> Result<Found, Fail>
    ensures { AnswersWith result ctx.new
        (spec.chosen (spec.stuck stmt e.now) (a.node ∷ b.node ∷ []) (rows.plainly rule.EEither (either.after at a.out b.out) ∷ [])
        ctx.old) }
{
    let Found {
        node: first,
        out: p,
    } = a;
    let Found {
        node: second,
        out: q,
    } = b;
    match either::after(ctx, at, p, q) {
        Ok(out) => {
            let none = List::new(ctx.allocator());
            let node = over_two(ctx.allocator(), Rule::EEither, none, first, second)?;
            Ok(Found { node, out })
        }
        Err(Fail::NoMemory) => Err(Fail::NoMemory),
        Err(Fail::Refused(_)) => Err(Fail::Refused(stuck(ctx.allocator(), stmt, e)?)),
    }
}

/// The row of the other flag.
pub fn other_flag(ctx: &Ctx, at: u32, stmt: u32, e: &Expr, a: Found) -> Result<Found, Fail>
    ensures { AnswersWith result ctx.now
        (spec.chosen (spec.stuck stmt e.now) (a.node ∷ []) (rows.plainly rule.ENot (negation.after at a.out) ∷ []) ctx.now) }
{
    let Found { node: kid, out: p } = a;
    match not::after(ctx, at, p) {
        Ok(out) => {
            let none = List::new(ctx.allocator());
            let node = over_one(ctx.allocator(), Rule::ENot, none, kid)?;
            Ok(Found { node, out })
        }
        Err(Fail::NoMemory) => Err(Fail::NoMemory),
        Err(Fail::Refused(_)) => Err(Fail::Refused(stuck(ctx.allocator(), stmt, e)?)),
    }
}

/// The row of the word of a byte or a flag.
pub fn word_of(ctx: &Ctx, at: u32, stmt: u32, e: &Expr, a: Found) -> Result<Found, Fail>
    ensures { AnswersWith result ctx.now
        (spec.chosen (spec.stuck stmt e.now) (a.node ∷ []) (rows.plainly rule.EWord (word.after a.out) ∷ []) ctx.now) }
{
    let Found { node: kid, out: p } = a;
    match word::after(ctx, p) {
        Ok(out) => {
            let none = List::new(ctx.allocator());
            let node = over_one(ctx.allocator(), Rule::EWord, none, kid)?;
            Ok(Found { node, out })
        }
        Err(Fail::NoMemory) => Err(Fail::NoMemory),
        Err(Fail::Refused(_)) => Err(Fail::Refused(stuck(ctx.allocator(), stmt, e)?)),
    }
}
