//! Sums, products and greater ones of polynomials.
ghost use Rattle.std.specs.Prelude.{◌≡◌, ◌≤◌, ◌<◌, ◌+◌, ◌*◌, ◌*ℤ◌, ◌^◌, ℕ, List, pos, true, slice_index_or, IfOk};
ghost use Rattle.side_certs.specs.LinearForm as linear;
ghost use Rattle.cost_poly.specs.Polynomial as polynomial;

use crate::coefficients::{PRODUCT_COUNT, greatest, larger, listed, symbols, within};
use crate::poly::{Poly, SYMBOL_LIMIT};
use crate::wide::Wide;
use side_certs::Form;

impl Poly {
    /// The sum. An error exactly where it passes a limit.
    pub fn add(&self, other: &Poly) -> Result<Poly, Wide>
        ensures sum { result ≡ polynomial.within (polynomial.sum self.now other.now) }
        ensures value { IfOk result (λ sum. (values : List ℕ)
            → polynomial.at values sum ≡ polynomial.at values self.now + polynomial.at values other.now) }
    {
        self.is_bounded();
        other.is_bounded();
        within(&self.sums(other))
    }

    /// The greater coefficient of each product.
    pub fn max(&self, other: &Poly) -> Poly
        ensures greater { result ≡ polynomial.listed (polynomial.greater self.now other.now) 45 }
        ensures value { (values : List ℕ) → (polynomial.at values self.now ≤ polynomial.at values result)
            × (polynomial.at values other.now ≤ polynomial.at values result) }
    {
        self.is_bounded();
        other.is_bounded();
        listed(&self.greater_ones(other))
    }

    /// The product with a linear form over entry symbols that has no negative number. An error exactly where it
    /// passes a limit. Of any other form the magnitudes of the constant and of the coefficients of the symbols below 8
    /// are taken.
    pub fn scale(&self, t: &Form) -> Result<Poly, Wide>
        ensures product { result ≡ polynomial.scaled self.now t.now }
        ensures value { IfOk result (λ product. polynomial.is_entry_form t.now ≡ true → (values : List ℕ)
            → pos (polynomial.at values product)
            ≡ pos (polynomial.at values self.now) *ℤ linear.value_at (λ s. slice_index_or values s 0) t.now) }
    {
        self.is_bounded();
        let numbers = self.products(t);
        let cubic = self.greatest_cubic(t);
        if cubic == 0 {
            return within(&numbers);
        }
        Err(Wide {
            degree: 3,
            coefficient: larger(cubic, greatest(&numbers)),
        })
    }

    fn sums(&self, other: &Poly) -> [u128; 45]
        ensures { (place : ℕ) → place < 45 → slice_index_or result place 0 ≡ polynomial.sum self.now other.now place }
    {
        let mut numbers = [0; 45];
        for place in 0..PRODUCT_COUNT {
            numbers[place] = u128::from(self.coefficient_at(place))
                + u128::from(other.coefficient_at(place));
        }
        numbers
    }

    fn greater_ones(&self, other: &Poly) -> [u128; 45]
        ensures numbers { (place : ℕ) → place < 45 → slice_index_or result place 0 ≡ polynomial.greater self.now other.now place }
        ensures small { (place : ℕ) → place < 45 → slice_index_or result place 0 ≤ 2 ^ 40 }
    {
        let mut numbers = [0; 45];
        for place in 0..PRODUCT_COUNT {
            numbers[place] = larger(
                u128::from(self.coefficient_at(place)),
                u128::from(other.coefficient_at(place)),
            );
        }
        numbers
    }

    fn products(&self, t: &Form) -> [u128; 45]
        ensures { (place : ℕ) → place < 45 → slice_index_or result place 0 ≡ polynomial.product self.now t.now place }
    {
        let mut numbers = [0; 45];
        for place in 0..PRODUCT_COUNT {
            let (first, second) = symbols(place);
            numbers[place] = self.product_of(t, first, second);
        }
        numbers
    }

    fn coefficient_at(&self, place: usize) -> u64
        requires { place < 45 }
        ensures coefficient { result ≡ polynomial.coefficient_at self.now place }
        ensures small { result ≤ 2 ^ 40 }
    {
        let (first, second) = symbols(place);
        self.small_coefficient(first, second)
    }

    fn small_coefficient(&self, first: Option<u32>, second: Option<u32>) -> u64
        ensures coefficient { result ≡ polynomial.coefficient first second self.now }
        ensures small { result ≤ 2 ^ 40 }
    {
        self.is_bounded();
        self.coefficient(first, second)
    }

    /// The coefficient of a product in the product with the form.
    fn product_of(&self, t: &Form, first: Option<u32>, second: Option<u32>) -> u128
        ensures { result ≡ polynomial.product_of self.now t.now (first, second) }
    {
        match (first, second) {
            (None, _) => self.part(t, None, None, None),
            (Some(_), None) => { self.part(t, first, None, None) + self.part(t, None, None, first) }
            (Some(a), Some(b)) => {
                let one = self.part(t, first, second, None) + self.part(t, second, None, first);
                if a == b {
                    one
                } else {
                    one + self.part(t, first, None, second)
                }
            }
        }
    }

    /// The coefficient of three symbols in order in the product with the form.
    fn cubic(&self, t: &Form, a: u32, b: u32, c: u32) -> u128
        ensures { result ≡ polynomial.cubic self.now t.now a b c }
    {
        if a > b || b > c {
            return 0;
        }
        let first = self.part(t, Some(b), Some(c), Some(a));
        let second = if a == b {
            0
        } else {
            self.part(t, Some(a), Some(c), Some(b))
        };
        let third = if b == c {
            0
        } else {
            self.part(t, Some(a), Some(b), Some(c))
        };
        first + second + third
    }

    /// The coefficient of a product, times the form's number of a symbol.
    fn part(&self, t: &Form, first: Option<u32>, second: Option<u32>, of_form: Option<u32>) -> u128
        ensures part { result ≡ polynomial.coefficient first second self.now * polynomial.form_part t.now of_form }
        ensures small { result ≤ 2 ^ 104 }
    {
        times(self.small_coefficient(first, second), form_part(t, of_form))
    }

    fn greatest_cubic(&self, t: &Form) -> u128
        ensures { result ≡ polynomial.greatest_cubic self.now t.now }
    {
        let mut greatest = 0;
        for a in 0..SYMBOL_LIMIT {
            greatest = larger(greatest, self.greatest_from(t, a));
        }
        greatest
    }

    /// The greatest coefficient of three symbols with this first one.
    fn greatest_from(&self, t: &Form, a: u32) -> u128
        ensures { result ≡ polynomial.greatest (λ b. polynomial.greatest (polynomial.cubic self.now t.now a b) 8) 8 }
    {
        let mut greatest = 0;
        for b in 0..SYMBOL_LIMIT {
            greatest = larger(greatest, self.greatest_between(t, a, b));
        }
        greatest
    }

    /// The greatest coefficient of three symbols with these first two.
    fn greatest_between(&self, t: &Form, a: u32, b: u32) -> u128
        ensures { result ≡ polynomial.greatest (polynomial.cubic self.now t.now a b) 8 }
    {
        let mut greatest = 0;
        for c in 0..SYMBOL_LIMIT {
            greatest = larger(greatest, self.cubic(t, a, b, c));
        }
        greatest
    }
}

/// The form's constant, or the coefficient of a symbol.
fn form_part(t: &Form, symbol: Option<u32>) -> u64
    ensures part { result ≡ polynomial.form_part t.now symbol }
    ensures small { result ≤ 2 ^ 63 }
{
    match symbol {
        None => t.constant_part().unsigned_abs(),
        Some(s) => t.coefficient(s).unsigned_abs(),
    }
}

/// The product, which has room in 128 bits.
fn times(coefficient: u64, part: u64) -> u128
    requires coefficient { coefficient ≤ 2 ^ 40 }
    requires part { part ≤ 2 ^ 63 }
    ensures product { result ≡ coefficient * part }
    ensures small { result ≤ 2 ^ 104 }
{
    u128::from(coefficient) * u128::from(part)
}
