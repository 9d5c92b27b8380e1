//! The entries that take the least term out of a goal, and what they leave of it.
ghost use Rattle.std.specs.Prelude.{◌≡◌, ◌<◌, ◌≤◌, ◌^◌, [], ◌∷◌, length, pos, neg_ℤ, MatchOption};
ghost use Rattle.side_certs.specs.LinearForm as linear;
ghost use Rattle.cert_search.specs.Search as spec;

use crate::difference::less;
use side_certs::{Entry, Form};

/// The greatest multiplier of an entry.
const GREATEST_MULTIPLIER: i64 = 1 << 32;

/// The number as a multiplier. None below 1 and over the greatest.
fn multiplier(m: i64) -> Option<u64>
    ensures { result ≡ spec.multiplier m }
{
    if 1 <= m && m <= GREATEST_MULTIPLIER {
        Some(m as u64)
    } else {
        None
    }
}

/// The number with the other sign as a multiplier.
fn opposite(m: i64) -> Option<u64>
    ensures { result ≡ spec.multiplier (neg_ℤ m) }
{
    if -GREATEST_MULTIPLIER <= m && m <= -1 {
        Some(-m as u64)
    } else {
        None
    }
}

/// How many times `k` is `c`, where that is a multiplier.
fn quotient(c: i64, k: i64) -> Option<u64>
    ensures { result ≡ spec.quotient c k }
{
    match c.checked_rem(k) {
        Some(0) => multiplier(c / k),
        _ => None,
    }
}

/// How many times the fact takes the term out of a goal.
fn fact_multiplier(fact: &Form, term: (u32, i64)) -> Option<u64>
    ensures { result ≡ spec.quotient term.1 (linear.coefficient term.0 fact.now.terms) }
{
    quotient(term.1, fact.coefficient(term.0))
}

/// The newest of the first `count` facts that takes the term out of a goal.
pub(crate) fn newest_fact(facts: &[Form], term: (u32, i64), count: usize) -> Option<Entry>
    requires within { count ≤ length facts.now }
    requires numbered { length facts.now < 2 ^ 32 }
    ensures { MatchOption result
        (spec.fitting facts.now term count ≡ [])
        (λ e. (e.number < count) × (spec.fitting facts.now term count ≡ e ∷ spec.fitting facts.now term e.number)) }
{
    let mut older = count;
    'facts: while older > 0 {
        older -= 1;
        if let Some(mult) = fact_multiplier(&facts[older], term) {
            return Some(Entry {
                kind: 0,
                number: older as u32,
                mult,
            });
        }
    }
    None
}

/// The entry of the term's symbol that takes the term out of a goal.
pub(crate) fn symbol_entry(tops: &[u32], term: (u32, i64)) -> Option<Entry>
    ensures { result ≡ spec.symbol_entry tops.now term }
{
    let (symbol, coefficient) = term;
    tops.get(symbol as usize)?;
    match multiplier(coefficient) {
        Some(mult) => Some(Entry {
            kind: 1,
            number: symbol,
            mult,
        }),
        None => top_entry(symbol, coefficient),
    }
}

/// The entry of the symbol's top less the symbol.
fn top_entry(symbol: u32, coefficient: i64) -> Option<Entry>
    ensures { result ≡ spec.entry 2 symbol (spec.multiplier (neg_ℤ coefficient)) }
{
    match opposite(coefficient) {
        Some(mult) => Some(Entry {
            kind: 2,
            number: symbol,
            mult,
        }),
        None => None,
    }
}

/// What the entry leaves of the goal: the goal less the entry's form, times its multiplier. None where that passes a limit.
pub(crate) fn next_goal(facts: &[Form], tops: &[u32], goal: &Form, entry: Entry) -> Option<Form>
    ensures { result ≡ spec.next_goal facts.now tops.now goal.now entry }
{
    if entry.kind == 0 {
        match facts.get(entry.number as usize) {
            None => None,
            Some(fact) => less(goal, entry.mult, fact),
        }
    } else if entry.kind == 1 {
        match tops.get(entry.number as usize) {
            None => None,
            Some(_) => less(goal, entry.mult, &Form::symbol(entry.number)),
        }
    } else if entry.kind == 2 {
        match tops.get(entry.number as usize) {
            None => None,
            Some(top) => less(goal, entry.mult, &Form::below(*top, entry.number)),
        }
    } else {
        None
    }
}
