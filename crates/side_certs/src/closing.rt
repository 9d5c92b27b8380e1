//! Whether a certificate closes a goal. For each symbol of the goal and of the forms that the entries name, its
//! coefficients are summed, which takes no memory; all sums have room in 128 bits.
ghost use Rattle.std.specs.Prelude.{◌≡◌, ◌≤◌, ◌*◌, ◌*ℤ◌, ◌^◌, ◌↔◌, true, length, option_map, is_some, slice_get, Some, IfSome};
ghost use Rattle.std.specs.Prelude.{pos, ℤ};
ghost use Rattle.side_certs.specs.LinearForm as linear;
ghost use Rattle.side_certs.specs.Closes as certificate;

use crate::certificate::{Cert, Entry};
use crate::form::Form;

/// The greatest `d`, and the greatest multiplier of an entry.
const GREATEST_MULTIPLIER: u64 = 1 << 32;

/// The greatest number of entries.
const MOST_ENTRIES: usize = 32;

/// `cert` closes `goal`: its ranges are kept, each of its entries names a fact or a symbol with a top, and `d` times
/// the goal less the sum of the entries' forms, each times its multiplier, is a number of at least `-(d - 1)`. The
/// tops are those of the symbols from 0 on.
pub fn closes(facts: &[Form], tops: &[u32], goal: &Form, cert: &Cert) -> bool
    ensures test { result ≡ certificate.closes facts.now tops.now goal.now cert.now }
    ensures closes { (result ≡ true) ↔ certificate.Closes facts.now tops.now goal.now cert.now }
{
    passes(facts, tops, goal, cert)
}

fn passes(facts: &[Form], tops: &[u32], goal: &Form, cert: &Cert) -> bool
    ensures { result ≡ certificate.closes facts.now tops.now goal.now cert.now }
{
    in_range(cert)
        && all_named(facts, tops, cert.entries.as_slice())
        && cancels(facts, tops, goal, cert, goal.all_terms())
        && cancels_all(facts, tops, goal, cert)
        && is_enough(cert.d, left(facts, tops, goal, cert, None))
}

/// The number is at least `-(d - 1)`.
fn is_enough(d: u64, number: i128) -> bool
    requires { 1 ≤ d }
    ensures { result ≡ certificate.is_enough d number }
{
    number >= 1 - i128::from(d)
}

fn in_range(cert: &Cert) -> bool
    ensures { result ≡ certificate.in_range cert.now }
{
    1 <= cert.d && cert.d <= GREATEST_MULTIPLIER && cert.entries.len() <= MOST_ENTRIES
}

/// The entry names a form: its multiplier is in range, and its fact is there, or its symbol.
fn is_named(facts: &[Form], tops: &[u32], entry: Entry) -> bool
    ensures { result ≡ is_some (certificate.named facts.now tops.now entry) }
{
    entry.mult <= GREATEST_MULTIPLIER && is_there(facts, tops, entry.kind, entry.number)
}

fn is_there(facts: &[Form], tops: &[u32], kind: u8, number: u32) -> bool
    ensures { result ≡ is_some (certificate.form_of facts.now tops.now kind number) }
{
    if kind == 0 {
        (number as usize) < facts.len()
    } else if kind == 1 || kind == 2 {
        (number as usize) < tops.len()
    } else {
        false
    }
}

/// The constant, or the coefficient of a symbol, in the form of a kind and a number.
fn number_of(
    facts: &[Form],
    tops: &[u32],
    kind: u8,
    number: u32,
    place: Option<u32>,
) -> Option<i128>
    ensures number { result ≡ option_map (certificate.number_at place) (certificate.form_of facts.now tops.now kind number) }
    ensures near { IfSome result (λ n. certificate.Near (2 ^ 40) n) }
{
    if kind == 0 {
        number_of_fact(facts, number, place)
    } else if kind == 1 {
        number_of_symbol(tops, number, place)
    } else if kind == 2 {
        number_below_top(tops, number, place)
    } else {
        None
    }
}

fn number_of_fact(facts: &[Form], number: u32, place: Option<u32>) -> Option<i128>
    ensures number { result ≡ option_map (certificate.number_at place) (slice_get facts.now number) }
    ensures near { IfSome result (λ n. certificate.Near (2 ^ 40) n) }
{
    match facts.get(number as usize) {
        None => None,
        Some(fact) => Some(fact.number_at(place)),
    }
}

/// Of the symbol, where it has a top.
fn number_of_symbol(tops: &[u32], s: u32, place: Option<u32>) -> Option<i128>
    ensures number { result ≡ option_map (λ top. certificate.number_at place (linear.symbol s)) (slice_get tops.now s) }
    ensures near { IfSome result (λ n. certificate.Near (2 ^ 40) n) }
{
    match tops.get(s as usize) {
        None => None,
        Some(_) => Some(i128::from(share(s, 1, place))),
    }
}

/// Of the symbol's top less the symbol.
fn number_below_top(tops: &[u32], s: u32, place: Option<u32>) -> Option<i128>
    ensures number { result ≡ option_map (λ top. certificate.number_at place (linear.below top s)) (slice_get tops.now s) }
    ensures near { IfSome result (λ n. certificate.Near (2 ^ 40) n) }
{
    match tops.get(s as usize) {
        None => None,
        Some(top) => Some(match place {
            None => i128::from(*top),
            Some(_) => i128::from(share(s, -1, place)),
        }),
    }
}

/// The coefficient, where the place is this symbol.
fn share(s: u32, coefficient: i64, place: Option<u32>) -> i64
    ensures { result ≡ certificate.share_at place s coefficient }
{
    match place {
        None => 0,
        Some(r) => if s == r { coefficient } else { 0 },
    }
}

fn all_named(facts: &[Form], tops: &[u32], entries: &[Entry]) -> bool
    ensures { result ≡ certificate.all_named facts.now tops.now entries.now }
{
    let mut left = entries;
    'entries: while let [entry, rest @ ..] = left {
        if !is_named(facts, tops, *entry) {
            return false;
        }
        left = rest;
    }
    true
}

/// Of the symbol of each of these terms nothing is left.
fn cancels(facts: &[Form], tops: &[u32], goal: &Form, cert: &Cert, terms: &[(u32, i64)]) -> bool
    requires { certificate.in_range cert.now ≡ true }
    ensures { result ≡ certificate.cancels (certificate.rest_of facts.now tops.now goal.now cert.now) terms.now }
{
    let mut after = terms;
    'terms: while let [term, rest @ ..] = after {
        if left(facts, tops, goal, cert, Some(term.0)) != 0 {
            return false;
        }
        after = rest;
    }
    true
}

/// Of each symbol of the forms that the entries name nothing is left.
fn cancels_all(facts: &[Form], tops: &[u32], goal: &Form, cert: &Cert) -> bool
    requires { certificate.in_range cert.now ≡ true }
    ensures { result ≡ certificate.cancels_all (certificate.rest_of facts.now tops.now goal.now cert.now) facts.now tops.now
        cert.now.entries }
{
    let mut after = cert.entries.as_slice();
    'entries: while let [entry, rest @ ..] = after {
        if !cancels_in(facts, tops, goal, cert, *entry) {
            return false;
        }
        after = rest;
    }
    true
}

/// Of each symbol of the form that the entry names, if it names one, nothing is left.
fn cancels_in(facts: &[Form], tops: &[u32], goal: &Form, cert: &Cert, entry: Entry) -> bool
    requires { certificate.in_range cert.now ≡ true }
    ensures { result ≡ certificate.cancels_in (certificate.rest_of facts.now tops.now goal.now cert.now)
        (certificate.named facts.now tops.now entry) }
{
    if !is_named(facts, tops, entry) {
        return true;
    }
    if entry.kind == 0 {
        cancels(
            facts,
            tops,
            goal,
            cert,
            facts[entry.number as usize].all_terms(),
        )
    } else {
        left(facts, tops, goal, cert, Some(entry.number)) == 0
    }
}

/// What `d` times the goal less the entries' forms leaves of the constant, or of a symbol.
fn left(facts: &[Form], tops: &[u32], goal: &Form, cert: &Cert, place: Option<u32>) -> i128
    requires { certificate.in_range cert.now ≡ true }
    ensures { result ≡ certificate.left (certificate.number_at place) facts.now tops.now goal.now cert.now }
{
    times(cert.d, goal.number_at(place)) - summed(facts, tops, cert.entries.as_slice(), place)
}

fn summed(facts: &[Form], tops: &[u32], entries: &[Entry], place: Option<u32>) -> i128
    requires { length entries.now ≤ 32 }
    ensures sum { result ≡ certificate.summed (certificate.number_at place) facts.now tops.now entries.now }
    ensures near { certificate.Near (2 ^ 100) result }
{
    let mut sum = 0;
    let mut left = entries;
    'entries: while let [entry, rest @ ..] = left {
        sum += multiple(facts, tops, *entry, place);
        left = rest;
    }
    sum
}

/// The number of the entry's form, times its multiplier.
fn multiple(facts: &[Form], tops: &[u32], entry: Entry, place: Option<u32>) -> i128
    ensures multiple { result ≡ certificate.multiple (certificate.number_at place) entry.mult
        (certificate.named facts.now tops.now entry) }
    ensures near { certificate.Near (2 ^ 95) result }
{
    if entry.mult > GREATEST_MULTIPLIER {
        return 0;
    }
    match number_of(facts, tops, entry.kind, entry.number, place) {
        None => 0,
        Some(number) => times(entry.mult, number),
    }
}

/// The product, which has room in 128 bits.
fn times(multiplier: u64, number: i128) -> i128
    requires multiplier { multiplier ≤ 2 ^ 32 }
    requires near { certificate.Near (2 ^ 63) number }
    ensures product { result ≡ pos multiplier *ℤ number }
    ensures near { certificate.Near (2 ^ 95) result }
{
    i128::from(multiplier) * number
}
