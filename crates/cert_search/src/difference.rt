//! What is left of a goal when an entry is taken off it. The difference alone is judged by the limits of forms.
ghost use Rattle.std.specs.Prelude.{◌≡◌, ◌*ℤ◌, ◌^◌, pos, ⊤};
ghost use Rattle.side_certs.specs.Closes.{Near};
ghost use Rattle.side_certs.specs.LinearForm as linear;

use side_certs::{Combination, Form, judged, lesser};

/// A goal less a form, times a multiplier.
#[derive(Clone, Copy)]
struct Difference<'a> {
    goal: &'a Form,
    mult: u64,
    form: &'a Form,
}

/// The goal less `mult` times the form. None exactly where that passes a limit.
pub(crate) fn less(goal: &Form, mult: u64, form: &Form) -> Option<Form>
    ensures { result ≡ linear.within (linear.minus goal.now (linear.times (pos mult) form.now)) }
{
    judged(&Difference { goal, mult, form })
}

impl Combination for Difference<'_> {
    ghost form = { λ d. linear.minus d.goal.now (linear.times (pos d.mult) d.form.now) };

    ghost has_room = { λ d. ⊤ };

    fn number_at(&self, place: Option<u32>) -> i128 {
        self.goal.number_at(place) - product(self.mult, self.form.number_at(place))
    }

    fn symbol_from(&self, least: u64) -> Option<u32> {
        lesser(self.goal.symbol_from(least), self.form.symbol_from(least))
    }
}

/// The product, which has room in 128 bits.
fn product(mult: u64, number: i128) -> i128
    requires { Near (2 ^ 40) number }
    ensures product { result ≡ pos mult *ℤ number }
    ensures near { Near (2 ^ 104) result }
{
    i128::from(mult) * number
}
