//! Expressions without parts.
ghost use Rattle.std.specs.Prelude.{[], ◌∷◌, true};
ghost use Rattle.rup_base.specs.Answers.{AnswersWith};
ghost use Rattle.deriv_tree.specs.declared.rule.Rule.TheVariants as rule;
ghost use Rattle.expr_rules.specs.Row.{array_length};
ghost use Rattle.expr_rules.specs.rules.Lit as lit;
ghost use Rattle.expr_rules.specs.rules.Var as var;
ghost use Rattle.derive_search.specs.Rows as rows;
ghost use Rattle.derive_search.specs.Expressions as spec;

use crate::found::Found;
use crate::nodes::{leaf, stuck};
use deriv_tree::Rule;
use expr_rules::rules::{len, lit, var};
use model_syntax::Expr;
use rup_base::{Fail, Name};
use sym_heap::Ctx;

/// The goal of a number.
pub fn number(ctx: &Ctx, at: u32, stmt: u32, e: &Expr, n: u32) -> Result<Found, Fail>
    ensures { AnswersWith result ctx.now
        (spec.chosen (spec.stuck stmt e.now) [] (rows.plainly rule.ELit (lit.after at n) ∷ []) ctx.now) }
{
    match lit::after(ctx, at, n) {
        Ok(out) => Ok(Found {
            node: leaf(ctx.allocator(), Rule::ELit),
            out,
        }),
        Err(Fail::NoMemory) => Err(Fail::NoMemory),
        Err(Fail::Refused(_)) => Err(Fail::Refused(stuck(ctx.allocator(), stmt, e)?)),
    }
}

/// The goal of a scalar.
pub fn variable(ctx: &Ctx, at: u32, stmt: u32, e: &Expr, x: &Name) -> Result<Found, Fail>
    ensures { AnswersWith result ctx.now
        (spec.chosen (spec.stuck stmt e.now) [] (rows.plainly rule.EVar (var.after at x.now) ∷ []) ctx.now) }
{
    match var::after(ctx, at, x) {
        Ok(out) => Ok(Found {
            node: leaf(ctx.allocator(), Rule::EVar),
            out,
        }),
        Err(Fail::NoMemory) => Err(Fail::NoMemory),
        Err(Fail::Refused(_)) => Err(Fail::Refused(stuck(ctx.allocator(), stmt, e)?)),
    }
}

/// The goal of the length of an array.
pub fn length(ctx: &Ctx, at: u32, stmt: u32, e: &Expr, a: &Name) -> Result<Found, Fail>
    ensures { AnswersWith result ctx.now
        (spec.chosen (spec.stuck stmt e.now) [] (rows.plainly rule.ELen (array_length at a.now true) ∷ []) ctx.now) }
{
    let Some(clause) = ctx.own(a) else {
        return Err(Fail::Refused(stuck(ctx.allocator(), stmt, e)?));
    };
    match len::after(ctx, at, clause) {
        Ok(out) => Ok(Found {
            node: leaf(ctx.allocator(), Rule::ELen),
            out,
        }),
        Err(Fail::NoMemory) => Err(Fail::NoMemory),
        Err(Fail::Refused(_)) => Err(Fail::Refused(stuck(ctx.allocator(), stmt, e)?)),
    }
}
