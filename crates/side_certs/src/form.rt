//! A linear form: a constant, and at most 16 symbols with a coefficient each.
ghost use Rattle.std.specs.Prelude.{◌≡◌, [], ◌∷◌, ◌++◌, ◌+◌, ◌<◌, ◌≤◌, ◌+ℤ◌, ◌*ℤ◌, ◌^◌, ◌↔◌, List, ℕ, ℤ, pos, length, true};
ghost use Rattle.std.specs.Prelude.{false, slice_get, Some, IsTrue, MatchOption, if◌then◌else◌, ◌&&◌, nat_lt};
ghost use Rattle.std.specs.Ordering.{int_eq};
ghost use Rattle.side_certs.specs.LinearForm as linear;
ghost use Rattle.side_certs.specs.Closes.{Near, number_at};
ghost use Rattle.side_certs.specs.Combination.{IsNext};

use std::marker::Model;

/// The greatest number of symbols in a form.
const MOST_TERMS: usize = 16;

/// The greatest magnitude of a constant and of a coefficient.
const GREATEST_NUMBER: u128 = 1 << 40;

/// A constant and at most 16 terms, each a symbol with its coefficient. The symbols rise, no coefficient is 0 and no
/// number has a magnitude over 2^40.
#[derive(Debug, Drop)]
pub struct Form {
    constant: i64,
    count: usize,
    slots: [(u32, i64); 16],
}

impl Model for Form {
    ghost use Rattle.std.specs.Prelude.{◌≡◌, ◌≤◌, take, true};
    ghost use Rattle.side_certs.specs.LinearForm.{LinearForm, is_within, rises_from};

    ghost Value = { LinearForm };

    ghost view = { λ f. record { constant = f.constant; terms = take f.count f.slots } };

    ghost invariant = { λ f. (f.count ≤ 16) × (is_within (record { constant = f.constant; terms = take f.count f.slots }) ≡ true)
        × (rises_from 0 (take f.count f.slots) ≡ true) };
}

impl Form {
    /// The form that is the number `k`. None exactly where `k` passes the limit.
    pub fn constant(k: i64) -> Option<Form>
        ensures { result ≡ linear.within (linear.constant k) }
    {
        Form::start(i128::from(k))
    }

    /// The form that is the symbol `s`.
    pub fn symbol(s: u32) -> Form
        ensures { result ≡ linear.symbol s }
    {
        let mut slots = [(0, 0); 16];
        slots[0] = (s, 1);
        Form {
            constant: 0,
            count: 1,
            slots,
        }
    }

    /// The form `top - s`.
    pub fn below(top: u32, s: u32) -> Form
        ensures { result ≡ linear.below top s }
    {
        let mut slots = [(0, 0); 16];
        slots[0] = (s, -1);
        Form {
            constant: i64::from(top),
            count: 1,
            slots,
        }
    }

    /// The number that is added to the terms.
    pub fn constant_part(&self) -> i64
        ensures constant { result ≡ self.now.constant }
        ensures small { linear.is_small result ≡ true }
    {
        self.constant
    }

    /// The number of symbols, at most 16.
    pub fn terms(&self) -> u32
        ensures count { result ≡ length self.now.terms }
        ensures limits { linear.is_within self.now ≡ true }
        ensures rising { linear.rises_from 0 self.now.terms ≡ true }
    {
        self.all_terms().len() as u32
    }

    /// The symbol of this number, from 0 in the order of symbols, and its coefficient.
    pub fn term_at(&self, k: u32) -> (u32, i64)
        requires { k < length self.now.terms }
        ensures { slice_get self.now.terms k ≡ Some result }
    {
        self.slots[k as usize]
    }

    /// The coefficient of the symbol `s`, 0 where no term has it.
    pub fn coefficient(&self, s: u32) -> i64
        ensures coefficient { result ≡ linear.coefficient s self.now.terms }
        ensures small { linear.is_small result ≡ true }
    {
        let mut left = self.all_terms();
        'terms: while let [term, rest @ ..] = left {
            if term.0 == s {
                return term.1;
            }
            left = rest;
        }
        0
    }

    /// The sum of both forms. None exactly where it passes a limit.
    pub fn add(&self, other: &Form) -> Option<Form>
        ensures { result ≡ linear.within (linear.plus self.now other.now) }
    {
        let mut sum = Form::start(total(self.constant, other.constant))?;
        let mut left = self.all_terms();
        let mut right = other.all_terms();
        'terms: loop {
            match first(left, right) {
                None => return sum.done(),
                Some(next) => {
                    if !sum.push(next.symbol, next.coefficient) {
                        return None;
                    }
                    left = next.left;
                    right = next.right;
                }
            }
        }
    }

    /// This form less the other. None exactly where the difference passes a limit.
    pub fn sub(&self, other: &Form) -> Option<Form>
        ensures { result ≡ linear.within (linear.minus self.now other.now) }
    {
        other.keeps_limits();
        self.add(&other.scale(-1)?)
    }

    /// `k` times the form. None exactly where that passes a limit.
    pub fn scale(&self, k: i64) -> Option<Form>
        ensures { result ≡ linear.within (linear.times k self.now) }
    {
        let mut multiple = Form::start(product(k, self.constant))?;
        let mut left = self.all_terms();
        'terms: loop {
            match first_multiple(k, left) {
                None => return multiple.done(),
                Some(next) => {
                    if !multiple.push(next.symbol, next.coefficient) {
                        return None;
                    }
                    left = next.left;
                }
            }
        }
    }

    /// The constant, or the coefficient of a symbol.
    pub fn number_at(&self, place: Option<u32>) -> i128
        ensures number { result ≡ number_at place self.now }
        ensures near { Near (2 ^ 40) result }
    {
        match place {
            None => i128::from(self.constant_part()),
            Some(s) => i128::from(self.coefficient(s)),
        }
    }

    /// The first symbol from `least` on, if there is one.
    pub fn symbol_from(&self, least: u64) -> Option<u32>
        ensures next { IsNext self.now least result }
        ensures rising { linear.rises_from 0 self.now.terms ≡ true }
    {
        let mut left = self.all_terms();
        'terms: while let [term, rest @ ..] = left {
            if least <= u64::from(term.0) {
                return Some(term.0);
            }
            left = rest;
        }
        None
    }

    /// The form again.
    pub fn copy(&self) -> Form
        ensures { result ≡ self.now }
    {
        Form {
            constant: self.constant,
            count: self.count,
            slots: self.slots,
        }
    }

    pub(crate) fn all_terms(&self) -> &[(u32, i64)]
        ensures terms { result.now ≡ self.now.terms }
        ensures count { length result.now ≤ 16 }
        ensures limits { linear.is_within self.now ≡ true }
        ensures rising { linear.rises_from 0 self.now.terms ≡ true }
    {
        &self.slots[..self.count]
    }

    /// Puts a term behind the last one, where it has room; a coefficient 0 leaves nothing to put.
    pub(crate) fn push(&mut self, symbol: u32, coefficient: i128) -> bool
        requires { linear.rises_from 0 (self.old.terms ++ linear.keep symbol coefficient []) ≡ true }
        ensures room { result ≡ linear.has_room self.old coefficient }
        ensures put { self.new ≡ (if result then linear.put_behind self.old symbol coefficient else self.old) }
    {
        if is_zero(coefficient) {
            return true;
        }
        if self.count == MOST_TERMS {
            return false;
        }
        if !is_small(coefficient) {
            return false;
        }
        self.slots[self.count] = (symbol, coefficient as i64);
        self.count += 1;
        true
    }

    /// Each form passes no limit. The call stands for the proof alone, as `keeps_limits`.
    pub(crate) fn done(self) -> Option<Form>
        ensures { result ≡ linear.within self }
    {
        let _ = &self.constant;
        Some(self)
    }

    /// Each form passes no limit. The call stands for the proof alone, and does nothing.
    fn keeps_limits(&self)
        ensures { linear.is_within self.now ≡ true }
    {
        let _ = &self.constant;
    }

    /// The number alone, of which the terms of a result are put behind one another.
    pub(crate) fn start(k: i128) -> Option<Form>
        ensures within { result ≡ linear.within (linear.constant k) }
        ensures started { MatchOption result (linear.is_small k ≡ false) (λ f. (f.constant ≡ k) × (f.terms ≡ [])) }
    {
        if !is_small(k) {
            return None;
        }
        Some(Form {
            constant: k as i64,
            count: 0,
            slots: [(0, 0); 16],
        })
    }
}

/// The first term of two lists of terms in one, and what is left of both.
#[derive(Clone, Copy)]
struct Next<'a> {
    symbol: u32,
    coefficient: i128,
    left: &'a [(u32, i64)],
    right: &'a [(u32, i64)],
}

/// Takes the first symbol off both lists. None where both are empty.
fn first<'a>(left: &'a [(u32, i64)], right: &'a [(u32, i64)]) -> Option<Next<'a>>
    ensures { MatchOption result
        ((left.now ≡ []) × (right.now ≡ []))
        (λ next. (linear.merge left.now right.now ≡ linear.keep next.symbol next.coefficient (linear.merge next.left.now next.right.now))
        × (length next.left.now + length next.right.now < length left.now + length right.now)) }
{
    match (left, right) {
        ([], []) => None,
        ([t, ts @ ..], []) => Some(Next {
            symbol: t.0,
            coefficient: i128::from(t.1),
            left: ts,
            right,
        }),
        ([], [u, us @ ..]) => Some(Next {
            symbol: u.0,
            coefficient: i128::from(u.1),
            left,
            right: us,
        }),
        ([t, ts @ ..], [u, us @ ..]) => {
            if t.0 < u.0 {
                Some(Next {
                    symbol: t.0,
                    coefficient: i128::from(t.1),
                    left: ts,
                    right,
                })
            } else if t.0 == u.0 {
                Some(Next {
                    symbol: t.0,
                    coefficient: total(t.1, u.1),
                    left: ts,
                    right: us,
                })
            } else {
                Some(Next {
                    symbol: u.0,
                    coefficient: i128::from(u.1),
                    left,
                    right: us,
                })
            }
        }
    }
}

/// The first term of a list of terms, `k` times, and what is left of the list.
#[derive(Clone, Copy)]
struct Multiple<'a> {
    symbol: u32,
    coefficient: i128,
    left: &'a [(u32, i64)],
}

/// Takes the first symbol off the list. None where it is empty.
fn first_multiple(k: i64, terms: &[(u32, i64)]) -> Option<Multiple<'_>>
    ensures { MatchOption result
        (terms.now ≡ [])
        (λ next. (linear.terms_times k terms.now ≡ linear.keep next.symbol next.coefficient (linear.terms_times k next.left.now))
        × (length next.left.now < length terms.now)) }
{
    match terms {
        [] => None,
        [t, left @ ..] => Some(Multiple {
            symbol: t.0,
            coefficient: product(k, t.1),
            left,
        }),
    }
}

/// The sum, which has room in 128 bits.
fn total(a: i64, b: i64) -> i128
    ensures { result ≡ a +ℤ b }
{
    i128::from(a) + i128::from(b)
}

/// The product, which has room in 128 bits.
fn product(a: i64, b: i64) -> i128
    ensures { result ≡ a *ℤ b }
{
    i128::from(a) * i128::from(b)
}

fn is_zero(k: i128) -> bool
    ensures { result ≡ int_eq k (pos 0) }
{
    k == 0
}

/// The magnitude of `k` is within the limit.
fn is_small(k: i128) -> bool
    ensures { result ≡ linear.is_small k }
{
    k.unsigned_abs() <= GREATEST_NUMBER
}
