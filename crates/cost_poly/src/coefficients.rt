//! The coefficients of all products of at most two symbols, in the order of terms, and the polynomial that has them.
ghost use Rattle.std.specs.Prelude.{◌≡◌, ◌≤◌, ◌<◌, ◌+◌, ◌-◌, ◌*◌, ◌/◌, ◌^◌, ℕ, max, true, slice_index_or};
ghost use Rattle.cost_poly.specs.Polynomial as polynomial;

use crate::poly::{GREATEST_COEFFICIENT, Poly};
use crate::wide::Wide;

/// The number of products.
pub(crate) const PRODUCT_COUNT: usize = 45;

/// The polynomial of these coefficients. An error where one passes the limit.
pub(crate) fn within(numbers: &[u128; 45]) -> Result<Poly, Wide>
    ensures { result ≡ polynomial.within (λ place. slice_index_or numbers.now place 0) }
{
    let greatest = greatest(numbers);
    if greatest > u128::from(GREATEST_COEFFICIENT) {
        return Err(Wide {
            degree: degree(numbers),
            coefficient: greatest,
        });
    }
    Ok(listed(numbers))
}

/// The polynomial of coefficients that pass no limit.
pub(crate) fn listed(numbers: &[u128; 45]) -> Poly
    requires { (place : ℕ) → place < 45 → slice_index_or numbers.now place 0 ≤ 2 ^ 40 }
    ensures { result ≡ polynomial.listed (λ place. slice_index_or numbers.now place 0) 45 }
{
    let mut terms = Poly::zero();
    for place in 0..PRODUCT_COUNT {
        let (first, second) = symbols(place);
        terms.push(first, second, small(numbers[place]));
    }
    terms
}

/// The number, which has room in 64 bits.
fn small(number: u128) -> u64
    requires { number ≤ 2 ^ 40 }
    ensures { result ≡ number }
{
    number as u64
}

/// The greatest coefficient.
pub(crate) fn greatest(numbers: &[u128; 45]) -> u128
    ensures { result ≡ polynomial.greatest (λ place. slice_index_or numbers.now place 0) 45 }
{
    let mut greatest = 0;
    for place in 0..PRODUCT_COUNT {
        greatest = larger(greatest, numbers[place]);
    }
    greatest
}

pub(crate) fn larger(a: u128, b: u128) -> u128
    ensures { result ≡ max a b }
{
    if a < b { b } else { a }
}

fn higher(a: u32, b: u32) -> u32
    ensures { result ≡ max a b }
{
    if a < b { b } else { a }
}

/// The greatest degree of a product whose coefficient isn't 0.
fn degree(numbers: &[u128; 45]) -> u32
    ensures { result ≡ polynomial.degree (λ place. slice_index_or numbers.now place 0) }
{
    let mut degree = 0;
    for place in 0..PRODUCT_COUNT {
        degree = higher(degree, term_degree(numbers[place], place));
    }
    degree
}

fn term_degree(number: u128, place: usize) -> u32
    requires { place < 45 }
    ensures { result ≡ polynomial.term_degree (λ p. number) place }
{
    if number == 0 {
        return 0;
    }
    match symbols(place) {
        (None, _) => 0,
        (Some(_), None) => 1,
        (Some(_), Some(_)) => 2,
    }
}

/// The product of this number in the order of terms.
pub(crate) fn symbols(place: usize) -> (Option<u32>, Option<u32>)
    requires { place < 45 }
    ensures symbols { result ≡ polynomial.symbols_at place }
    ensures kept { polynomial.are_symbols result.0 result.1 ≡ true }
    ensures place { polynomial.place_of result.0 result.1 ≡ place }
{
    product_at(place as u32)
}

fn product_at(place: u32) -> (Option<u32>, Option<u32>)
    requires { place < 45 }
    ensures kept { polynomial.are_symbols result.0 result.1 ≡ true }
    ensures place { polynomial.place_of result.0 result.1 ≡ place }
{
    if place == 0 {
        return (None, None);
    }
    if place < 9 {
        return (Some(place - 1), None);
    }
    let (first, start) = row(place);
    (Some(first), Some(first + (place - start)))
}

/// The first symbol of a product of two, and the place of its square.
fn row(place: u32) -> (u32, u32)
    requires least { 9 ≤ place }
    requires most { place < 45 }
    ensures start { 9 + result.0 * (17 - result.0) / 2 ≡ result.1 }
    ensures from { result.1 ≤ place }
    ensures to { place + result.0 < result.1 + 8 }
{
    if place < 17 {
        (0, 9)
    } else if place < 24 {
        (1, 17)
    } else if place < 30 {
        (2, 24)
    } else if place < 35 {
        (3, 30)
    } else if place < 39 {
        (4, 35)
    } else if place < 42 {
        (5, 39)
    } else if place < 44 {
        (6, 42)
    } else {
        (7, 44)
    }
}
