//! The terms of the bound on the steps of a call.
ghost use Rattle.std.specs.Prelude.{◌≡◌, [], ◌∷◌, ◌+◌, ◌≤◌, ◌<◌, ◌^◌, length, true, OnOk, IfOk, nat_le, ◌&&◌};
ghost use Rattle.rup_base.specs.Answers.{Answers};
ghost use Rattle.image_layout.specs.Reading as spec;
ghost use Rattle.cost_poly.specs.Polynomial.{can_follow, greatest_coefficient};

use crate::reading::fields::{GREATEST_NUMBER, symbol_of, wide, word, wrong};
use cost_poly::{Poly, Term};
use rup_base::Fail;

fn is_entry_symbol(symbols: u32, first: Option<u32>) -> bool
    ensures { result ≡ spec.is_entry_symbol symbols first }
{
    match first {
        None => true,
        Some(a) => a < symbols,
    }
}

/// The second symbol of a term of the bound fits the first.
fn is_second(symbols: u32, first: Option<u32>, second: Option<u32>) -> bool
    ensures { result ≡ spec.is_second symbols first second }
{
    match (first, second) {
        (_, None) => true,
        (None, Some(_)) => false,
        (Some(a), Some(b)) => a <= b && b < symbols,
    }
}

/// The coefficient of a term of the bound.
fn coefficient(bytes: &[u8], at: usize) -> Result<u64, Fail>
    requires short { at < 2 ^ 32 }
    ensures answer { Answers result (spec.judged (spec.coefficient_field bytes.now at ∷ []) (spec.wide_at bytes.now at)) }
    ensures whole { OnOk result (at + 8 ≤ length bytes.now) }
    ensures small { IfOk result (λ c. (nat_le 1 c && nat_le c greatest_coefficient) ≡ true) }
{
    let n = wide(bytes, at)?;
    if n == 0 || n > GREATEST_NUMBER {
        return Err(wrong(at));
    }
    Ok(n)
}

/// A term of the bound, which may stand behind those before it.
fn bound_term(bytes: &[u8], symbols: u32, before: &Poly, at: usize) -> Result<Term, Fail>
    requires short { length bytes.now < 2 ^ 32 }
    requires inside { at ≤ length bytes.now }
    ensures answer { Answers result
        (spec.judged (spec.bound_term_fields symbols bytes.now before.now at) (spec.bound_term_at bytes.now at)) }
    ensures whole { OnOk result (at + 16 ≤ length bytes.now) }
    ensures follows { IfOk result (λ t. can_follow before.now t.first t.second t.coefficient ≡ true) }
{
    let first = symbol_of(word(bytes, at)?);
    if !is_entry_symbol(symbols, first) {
        return Err(wrong(at));
    }
    let second = symbol_of(word(bytes, at + 4)?);
    if !is_second(symbols, first, second) {
        return Err(wrong(at + 4));
    }
    if !before.goes_behind(first, second) {
        return Err(wrong(at));
    }
    let coefficient = coefficient(bytes, at + 8)?;
    Ok(Term {
        first,
        second,
        coefficient,
    })
}

/// The bound, and the offset behind its terms.
pub fn bound(bytes: &[u8], symbols: u32, count: u32, start: usize) -> Result<(Poly, usize), Fail>
    requires short { length bytes.now < 2 ^ 32 }
    requires inside { start ≤ length bytes.now }
    ensures answer { let entries = spec.bound_terms symbols bytes.now in
        Answers result (spec.judged (spec.fields_of entries [] count start)
        (spec.values_of entries count start, spec.end_of entries count start)) }
    ensures inside { IfOk result (λ r. r.1 ≤ length bytes.now) }
{
    let mut bound = Poly::zero();
    let mut at = start;
    for _ in 0..count {
        let term = bound_term(bytes, symbols, &bound, at)?;
        bound = bound
            .with_term(term.first, term.second, term.coefficient)
            .unwrap();
        at += 16;
    }
    Ok((bound, at))
}
