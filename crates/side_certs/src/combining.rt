//! Sums of multiples of forms. The sum alone is judged by the limits, not what arises on the way to it.
ghost use Rattle.std.specs.Prelude.{◌≡◌, ◌+◌, ◌*◌, ◌*ℤ◌, ◌≤◌, ◌^◌, ℕ, Option, length, true};
ghost use Rattle.side_certs.specs.LinearForm.{LinearForm, rises_from};
ghost use Rattle.side_certs.specs.LinearForm as linear;
ghost use Rattle.side_certs.specs.Closes.{Near, number_at};
ghost use Rattle.side_certs.specs.Combination as spec;

use crate::form::Form;

/// What has a constant and a coefficient for each symbol, as a form has, before the limits of forms judge it.
pub trait Combination {
    // The form that it is, if that keeps the limits.
    ghost form: { Self → LinearForm };

    // Its numbers have room in 128 bits.
    ghost has_room: { Self → Type 0 };

    /// The constant, or the coefficient of a symbol.
    fn number_at(&self, place: Option<u32>) -> i128
        requires { has_room self.now }
        ensures { result ≡ number_at place (form self.now) };

    /// A symbol from `least` on before which no other one has a coefficient. None only where none has.
    fn symbol_from(&self, least: u64) -> Option<u32>
        ensures next { spec.IsNext (form self.now) least result }
        ensures rising { rises_from 0 (form self.now).terms ≡ true };
}

/// The form. None exactly where it passes a limit.
pub fn judged<C: Combination>(sum: &C) -> Option<Form>
    requires { C.has_room sum.now }
    ensures { result ≡ linear.within (C.form sum.now) }
{
    let mut form = Form::start(sum.number_at(None))?;
    let mut least = 0;
    'symbols: loop {
        match sum.symbol_from(least) {
            None => return form.done(),
            Some(s) => {
                if !form.push(s, sum.number_at(Some(s))) {
                    return None;
                }
                least = u64::from(s) + 1;
            }
        }
    }
}

/// A form, and how many times it is taken.
#[derive(Clone, Copy)]
pub struct Part<'a> {
    pub times: i64,
    pub form: &'a Form,
}

/// A number and multiples of forms, summed.
#[derive(Clone, Copy)]
struct Sum<'a> {
    constant: i64,
    parts: &'a [Part<'a>],
}

impl Form {
    /// A number and multiples of at most 64 forms, summed. None exactly where the whole sum passes a limit of forms.
    pub fn sum(constant: i64, parts: &[Part<'_>]) -> Option<Form>
        requires { length parts.now ≤ spec.most_parts }
        ensures { result ≡ linear.within (spec.sum constant parts.now) }
    {
        judged(&Sum { constant, parts })
    }
}

impl Combination for Sum<'_> {
    ghost form = { λ s. spec.sum s.constant s.parts.now };

    ghost has_room = { λ s. length s.parts.now ≤ spec.most_parts };

    fn number_at(&self, place: Option<u32>) -> i128 {
        number_of_constant(self.constant, place) + parts_at(self.parts, place)
    }

    fn symbol_from(&self, least: u64) -> Option<u32> {
        symbol_of_parts(self.constant, self.parts, least)
    }
}

/// A number has no symbol.
fn number_of_constant(constant: i64, place: Option<u32>) -> i128
    ensures number { result ≡ number_at place (linear.constant constant) }
    ensures near { Near (2 ^ 63) result }
{
    match place {
        None => i128::from(constant),
        Some(_) => 0,
    }
}

fn parts_at(parts: &[Part<'_>], place: Option<u32>) -> i128
    requires { length parts.now ≤ spec.most_parts }
    ensures sum { result ≡ spec.parts_at place parts.now }
    ensures near { Near (2 ^ 103 * length parts.now) result }
{
    match parts {
        [] => 0,
        [part, rest @ ..] => product(part.times, part.form.number_at(place))
            + parts_at(rest, place),
    }
}

/// The product, which has room in 128 bits.
fn product(times: i64, number: i128) -> i128
    requires { Near (2 ^ 40) number }
    ensures product { result ≡ times *ℤ number }
    ensures near { Near (2 ^ 103) result }
{
    i128::from(times) * number
}

fn symbol_of_parts(constant: i64, parts: &[Part<'_>], least: u64) -> Option<u32>
    ensures next { spec.IsNext (spec.sum constant parts.now) least result }
    ensures rising { rises_from 0 (spec.sum constant parts.now).terms ≡ true }
{
    match parts {
        [] => None,
        [part, rest @ ..] => lesser(
            part.form.symbol_from(least),
            symbol_of_parts(constant, rest, least),
        ),
    }
}

/// The lesser symbol.
pub fn lesser(a: Option<u32>, b: Option<u32>) -> Option<u32>
    ensures { result ≡ spec.lesser a b }
{
    match (a, b) {
        (None, b) => b,
        (a, None) => a,
        (Some(s), Some(r)) => Some(if s <= r { s } else { r }),
    }
}
