//! Which expressions a pattern matches.
ghost use Rattle.std.specs.Prelude.{◌≡◌, Some, None, IfOk, if◌then◌else◌, option_map};
ghost use Rattle.lemma_files.specs.Matching as spec;

use crate::same::{same_cmp, same_entries, same_expr, same_op, same_scalar};
use crate::terms::Pattern;
use model_syntax::{Expr, copy_expr};
use rup_base::{List, Name, NoMemory};
use std::alloc::Global;

/// A hole and the expression that it stands for.
#[derive(Debug, Drop)]
pub(crate) struct Filled {
    hole: Name,
    expr: Expr,
}

/// Whether the hole stands for this expression, where it stands for one.
fn stands_for(filled: &[Filled], x: &Name, e: &Expr) -> Option<bool>
    ensures { result ≡ option_map (spec.is e.now) (spec.stands_for x.now filled.now) }
{
    for one in filled {
        if one.hole == *x {
            return Some(same_expr(&one.expr, e));
        }
    }
    None
}

/// Lets the hole stand for the expression, where it stands for no other one.
fn fill(alloc: Global, x: &Name, e: &Expr, filled: &mut List<Filled>) -> Result<bool, NoMemory>
    ensures { IfOk result (λ fits. spec.fill x.now e.now filled.old ≡ (if fits then Some filled.new else None)) }
{
    if let Some(same) = stands_for(filled.as_slice(), x, e) {
        return Ok(same);
    }
    filled.push(Filled {
        hole: x.copy(alloc)?,
        expr: copy_expr(alloc, e)?,
    })?;
    Ok(true)
}

/// Whether the pattern matches the expression where its first holes stand for these ones; then they are all of them.
fn match_at(
    alloc: Global,
    pattern: &Pattern,
    e: &Expr,
    filled: &mut List<Filled>,
) -> Result<bool, NoMemory>
    ensures { IfOk result (λ fits.
        spec.match_at pattern.now e.now filled.old ≡ (if fits then Some filled.new else None)) }
{
    match (pattern, e) {
        (Pattern::Hole(x), _) => fill(alloc, x, e, filled),
        (Pattern::Lit(m), Expr::Lit(n)) => Ok(m == n),
        (Pattern::Var(x), Expr::Var(y)) => Ok(x == y),
        (Pattern::Length(x), Expr::Length(y)) => Ok(x == y),
        (Pattern::Bin(op, p, q), Expr::Bin(other, a, b)) => Ok(
            same_op(*op, *other)
                && match_at(alloc, p, a, filled)?
                && match_at(alloc, q, b, filled)?,
        ),
        (Pattern::Test(cmp, p, q), Expr::Test(other, a, b)) => Ok(
            same_cmp(*cmp, *other)
                && match_at(alloc, p, a, filled)?
                && match_at(alloc, q, b, filled)?,
        ),
        (Pattern::Not(p), Expr::Not(a)) => match_at(alloc, p, a, filled),
        (Pattern::Both(p, q), Expr::Both(a, b)) => {
            Ok(match_at(alloc, p, a, filled)? && match_at(alloc, q, b, filled)?)
        }
        (Pattern::Either(p, q), Expr::Either(a, b)) => {
            Ok(match_at(alloc, p, a, filled)? && match_at(alloc, q, b, filled)?)
        }
        (Pattern::ToWord(p), Expr::ToWord(a)) => match_at(alloc, p, a, filled),
        (Pattern::ToByte(p), Expr::ToByte(a)) => match_at(alloc, p, a, filled),
        (Pattern::Get(x, p), Expr::Get(y, a)) => Ok(x == y && match_at(alloc, p, a, filled)?),
        (Pattern::Tab(scalar, entries, p), Expr::Tab(other, numbers, a)) => {
            Ok(
                same_scalar(*scalar, *other)
                    && same_entries(entries.as_slice(), numbers.as_slice())
                    && match_at(alloc, p, a, filled)?,
            )
        }
        _ => Ok(false),
    }
}

/// Whether the pattern matches the expression.
pub fn matches(alloc: Global, pattern: &Pattern, e: &Expr) -> Result<bool, NoMemory>
    ensures { IfOk result (λ fits. fits ≡ spec.matches pattern.now e.now) }
{
    let mut filled = List::new(alloc);
    match_at(alloc, pattern, e, &mut filled)
}
