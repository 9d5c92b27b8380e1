//! A polynomial, as its terms whose coefficient isn't 0, in the order constant, linear terms, products by
//! first and second symbol.
ghost use Rattle.std.specs.Prelude.{◌≡◌, true, if◌then◌else◌, [], ◌∷◌, ◌++◌, ◌+◌, ◌<◌, ◌≤◌, ◌↔◌, ◌*◌, ◌^◌, List, ℕ, length};
ghost use Rattle.std.specs.Prelude.{IsTrue};
ghost use Rattle.std.specs.List.{AllByRecursion};
ghost use Rattle.cost_poly.specs.Polynomial as polynomial;

use crate::term::Term;
use std::marker::Model;

/// The number of entry symbols that a polynomial can name.
pub(crate) const SYMBOL_LIMIT: u32 = 8;

/// The greatest coefficient.
pub(crate) const GREATEST_COEFFICIENT: u64 = 1 << 40;

/// At most 45 terms over eight symbols, one for 1, eight for the symbols and 36 for their products. A
/// coefficient is at most 2^40.
#[derive(Debug, Drop)]
pub struct Poly {
    count: usize,
    /// The place of the last term and 1, from which a further term's place is.
    next: u32,
    slots: [Term; 45],
}

impl Model for Poly {
    ghost use Rattle.std.specs.Prelude.{◌≡◌, ◌≤◌, List, take};
    ghost use Rattle.cost_poly.specs.declared.term.Term.{Term};
    ghost use Rattle.cost_poly.specs.Polynomial.{BoundFrom, next_place};

    ghost Value = { List Term };

    ghost view = { λ p. take p.count p.slots };

    ghost invariant = { λ p. (p.count ≤ 45) × (p.next ≡ next_place 0 (take p.count p.slots))
        × BoundFrom 0 8 (take p.count p.slots) };
}

impl Poly {
    /// The polynomial of no terms.
    pub fn zero() -> Poly
        ensures { result ≡ [] }
    {
        let none = Term {
            first: None,
            second: None,
            coefficient: 0,
        };
        Poly {
            count: 0,
            next: 0,
            slots: [none; 45],
        }
    }

    /// The polynomial again.
    pub fn copy(&self) -> Poly
        ensures { result ≡ self.now }
    {
        Poly {
            count: self.count,
            next: self.next,
            slots: self.slots,
        }
    }

    /// `c` times the values of the symbols `a` and `b`, where they are named. None exactly where `c` passes the
    /// limit, a named symbol is 8 or more, `b` is named and `a` isn't, or `a` is after `b`.
    pub fn term(a: Option<u32>, b: Option<u32>, c: u64) -> Option<Poly>
        ensures { result ≡ polynomial.term a b c }
    {
        if !are_symbols(a, b) {
            return None;
        }
        if c > GREATEST_COEFFICIENT {
            return None;
        }
        if c == 0 {
            return Some(Poly::zero());
        }
        Poly::zero().with_term(a, b, c)
    }

    /// The polynomial and one more term. None exactly where `term` would be None, `c` is 0, or the term isn't
    /// after the last one in the order of terms.
    pub fn with_term(self, a: Option<u32>, b: Option<u32>, c: u64) -> Option<Poly>
        ensures { result ≡ polynomial.with_term self a b c }
    {
        let mut longer = self;
        if longer.push(a, b, c) {
            Some(longer)
        } else {
            None
        }
    }

    /// A term of the product of `a` and `b` could stand behind the last one.
    pub fn goes_behind(&self, a: Option<u32>, b: Option<u32>) -> bool
        ensures { result ≡ polynomial.goes_behind self.now a b }
    {
        are_symbols(a, b) && place(a, b) >= self.next
    }

    /// The terms whose coefficient isn't 0, in order.
    pub fn terms(&self) -> &[Term]
        ensures { result.now ≡ self.now }
    {
        &self.slots[..self.count]
    }

    /// The coefficient of the product of `a` and `b`, 0 where there is no such term.
    pub fn coefficient(&self, a: Option<u32>, b: Option<u32>) -> u64
        ensures { result ≡ polynomial.coefficient a b self.now }
    {
        let mut left = self.terms();
        'terms: while let [term, rest @ ..] = left {
            if same_symbol(term.first, a) && same_symbol(term.second, b) {
                return term.coefficient;
            }
            left = rest;
        }
        0
    }

    /// The value where each symbol has the number at its place in `values`; a symbol past the end counts as 0.
    pub fn at(&self, values: &[u32]) -> u128
        ensures { result ≡ polynomial.at values.now self.now }
    {
        self.is_bounded();
        let mut sum = 0;
        let mut left = self.terms();
        'terms: while let [term, rest @ ..] = left {
            sum += value(term, values);
            left = rest;
        }
        sum
    }

    /// Each polynomial has its limits. The call stands for the proof alone, and does nothing.
    pub(crate) fn is_bounded(&self)
        ensures count { length self.now ≤ 45 }
        ensures coefficients { AllByRecursion polynomial.IsSmall self.now }
        ensures bound { polynomial.BoundFrom 0 8 self.now }
    {
        let _ = &self.count;
    }

    /// Puts a term behind the last one, where it can stand there.
    pub(crate) fn push(&mut self, a: Option<u32>, b: Option<u32>, c: u64) -> bool
        ensures can { result ≡ polynomial.can_follow self.old a b c }
        ensures put { self.new ≡ (if result then self.old ++ polynomial.make a b c ∷ [] else self.old) }
    {
        if !are_symbols(a, b) {
            return false;
        }
        let place = place(a, b);
        if place < self.next {
            return false;
        }
        if c == 0 || c > GREATEST_COEFFICIENT {
            return false;
        }
        self.slots[self.count] = Term {
            first: a,
            second: b,
            coefficient: c,
        };
        self.count += 1;
        self.next = place + 1;
        true
    }
}

/// The symbols can stand in a term together.
fn are_symbols(a: Option<u32>, b: Option<u32>) -> bool
    ensures { result ≡ polynomial.are_symbols a b }
{
    match (a, b) {
        (None, None) => true,
        (None, Some(_)) => false,
        (Some(a), None) => a < SYMBOL_LIMIT,
        (Some(a), Some(b)) => a <= b && b < SYMBOL_LIMIT,
    }
}

/// The number of the symbols' product in the order of terms.
fn place(a: Option<u32>, b: Option<u32>) -> u32
    requires { polynomial.are_symbols a b ≡ true }
    ensures { result ≡ polynomial.place_of a b }
{
    match (a, b) {
        (None, _) => 0,
        (Some(a), None) => 1 + a,
        (Some(a), Some(b)) => 9 + a * (17 - a) / 2 + (b - a),
    }
}

fn same_symbol(a: Option<u32>, b: Option<u32>) -> bool
    ensures { result ≡ polynomial.same_symbol a b }
{
    match (a, b) {
        (None, None) => true,
        (Some(a), Some(b)) => a == b,
        _ => false,
    }
}

/// A symbol's number, 0 past the end; no symbol is 1.
fn symbol_value(values: &[u32], symbol: Option<u32>) -> u32
    ensures { result ≡ polynomial.value_of values.now symbol }
{
    match symbol {
        None => 1,
        Some(s) => values.get(s as usize).copied().unwrap_or(0),
    }
}

/// The value of one term.
fn value(term: &Term, values: &[u32]) -> u128
    requires { term.now.coefficient ≤ 2 ^ 40 }
    ensures value { result ≡ term.now.coefficient * polynomial.value_of values.now term.now.first * polynomial.value_of values.now
        term.now.second }
    ensures bound { result < 2 ^ 104 }
{
    let first = symbol_value(values, term.first);
    let second = symbol_value(values, term.second);
    u128::from(term.coefficient) * u128::from(first) * u128::from(second)
}
