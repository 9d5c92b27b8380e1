//! e-len: the length of an array is a number, or the local that has it.
ghost use Rattle.std.specs.Prelude.{◌≡◌};
ghost use Rattle.rup_base.specs.Answers.{AnswersWith};
ghost use Rattle.expr_rules.specs.rules.Len as spec;

use crate::output::ExprOut;
use crate::words::{no_instance, number_in, plain};
use bed_syntax::BExpr;
use rup_base::Fail;
use sym_heap::{Clause, Ctx};

pub fn after(ctx: &Ctx, at: u32, clause: &Clause) -> Result<ExprOut, Fail>
    ensures { AnswersWith result ctx.now (spec.after at clause.now ctx.now) }
{
    match code(clause) {
        Some(code) => Ok(plain(ctx.allocator(), code, clause.length.copy())),
        None => Err(no_instance(at, 4)),
    }
}

/// A length that no local has is a number.
fn code(clause: &Clause) -> Option<BExpr>
    ensures { result ≡ spec.code clause.now }
{
    match clause.length_local {
        Some(local) => Some(BExpr::Var(local)),
        None => match number_in(0, u32::MAX, &clause.length) {
            Some(n) => Some(BExpr::Lit(n)),
            None => None,
        },
    }
}
