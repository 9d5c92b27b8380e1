//! Operations of words: the row of the operation's own rule where it has one that fits, or else that of any operation.
ghost use Rattle.std.specs.Prelude.{◌≡◌, [], ◌∷◌, None, Some, IfOk, MatchOption};
ghost use Rattle.rup_base.specs.Answers.{AnswersWith};
ghost use Rattle.derive_search.specs.Offers.{offered};
ghost use Rattle.derive_search.specs.Rows as rows;
ghost use Rattle.derive_search.specs.Expressions as spec;

use crate::found::{Found, Special};
use crate::fresh::{mask, quotient, remainder};
use crate::nodes::{over_two, stuck};
use crate::special::{difference, product, shift, sum};
use deriv_tree::Rule;
use expr_rules::ExprOut;
use expr_rules::rules::op::{after, code_of};
use expr_rules::words::{operation, plain};
use model_syntax::{Expr, Op};
use rup_base::{Fail, List, NoMemory};
use sym_heap::Ctx;

/// The row of the operation's own rule, where it has one that fits.
fn special(
    ctx: &mut Ctx,
    at: u32,
    op: Op,
    p: &ExprOut,
    q: &ExprOut,
) -> Result<Option<Special>, NoMemory>
    ensures { IfOk result (λ row. MatchOption row
        ((rows.special at op p.now q.now ctx.old ≡ None) × (ctx.new ≡ ctx.old))
        (λ x. rows.special at op p.now q.now ctx.old ≡ Some (offered op p.now q.now x ctx.new))) }
{
    match op {
        Op::Add => sum(ctx, at, p, q),
        Op::Sub => difference(ctx, at, p, q),
        Op::Mul => product(ctx, at, p, q),
        Op::And => mask(ctx, at, p, q),
        Op::Shl => shift(ctx, at, p, q),
        Op::Remu => remainder(ctx, at, p, q),
        Op::Divu | Op::Shr => quotient(ctx, at, op, p, q),
        Op::Mulhuu | Op::Or | Op::Xor | Op::Sar => Ok(None),
    }
}

/// The first row of an operation that fits.
pub fn operation_row(
    ctx: &mut Ctx,
    at: u32,
    stmt: u32,
    e: &Expr,
    op: Op,
    a: Found,
    b: Found,
) -> Result<Found, Fail>
    ensures { AnswersWith result ctx.new
        (spec.chosen (spec.stuck stmt e.now) (a.node ∷ b.node ∷ []) (rows.operations at op a.out b.out) ctx.old) }
{
    let Found {
        node: first,
        out: p,
    } = a;
    let Found {
        node: second,
        out: q,
    } = b;
    match special(ctx, at, op, &p, &q)? {
        Some(row) => {
            let Special { rule, certs, form } = row;
            let code = operation(ctx.allocator(), code_of(op), p.code, q.code)?;
            let node = over_two(ctx.allocator(), rule, certs, first, second)?;
            let out = plain(ctx.allocator(), code, form);
            Ok(Found { node, out })
        }
        None => match after(ctx, at, op, p, q) {
            Ok(out) => {
                let none = List::new(ctx.allocator());
                let node = over_two(ctx.allocator(), Rule::EOp, none, first, second)?;
                Ok(Found { node, out })
            }
            Err(Fail::NoMemory) => Err(Fail::NoMemory),
            Err(Fail::Refused(_)) => Err(Fail::Refused(stuck(ctx.allocator(), stmt, e)?)),
        },
    }
}
