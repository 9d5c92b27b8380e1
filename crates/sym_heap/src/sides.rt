//! Requirements and kept facts as forms.
ghost use Rattle.std.specs.Prelude.{◌≡◌, ◌≤◌, ◌^◌, pos, true, is_ok, IfSome};
ghost use Rattle.std.specs.Option.{option_copied};
ghost use Rattle.side_certs.specs.LinearForm.{LinearForm, constant, rises_from, within};
ghost use Rattle.side_certs.specs.Closes.{Near, number_at};
ghost use Rattle.side_certs.specs.Combination.{IsNext};
ghost use Rattle.model_syntax.specs.Linear.{linear};
ghost use Rattle.sym_heap.specs.Sides as spec;

use crate::parts::Held;
use crate::places::find_scalar;
use model_syntax::{Le, Lin};
use rup_base::Name;
use side_certs::{Combination, Form, judged, lesser};

/// The form of each name in a requirement or a kept fact.
#[derive(Clone, Copy)]
pub struct NameForms<'a> {
    /// A name that has this form, whatever scalar has the name.
    pub given: Option<(&'a Name, &'a Form)>,
    /// The names that have the forms of `ends`.
    pub listed: &'a [Name],
    pub ends: &'a [Held],
    /// The scalars that have the forms of all other names.
    pub others: &'a [Held],
}

/// The high side less the low one. None exactly where the difference passes a limit of forms.
pub fn difference(forms: &NameForms<'_>, r: &Le) -> Option<Form>
    requires { spec.IsNarrow r.now }
    ensures { result ≡ within (spec.difference (spec.form_of forms.now) r.now) }
{
    judged(&FactForm { forms, fact: r })
}

/// The high side less the low one, with the scalars' forms.
pub fn requirement(scalars: &[Held], r: &Le) -> Form
    requires { spec.Formed (spec.form_in scalars.now) r.now }
    ensures { result ≡ spec.difference (spec.form_in scalars.now) r.now }
{
    // for the proof alone: a literal has 32 bits, and other constants are judged
    let _ = (literal(&r.low), literal(&r.high));
    let forms = NameForms {
        given: None,
        listed: &[],
        ends: &[],
        others: scalars,
    };
    match difference(&forms, r) {
        Some(form) => form,
        None => unreachable!(),
    }
}

/// The number, where the side is one.
fn literal(side: &Lin) -> Option<u32>
    ensures literal { result ≡ spec.literal side.now }
    ensures word { IfSome result (λ n. n ≤ 4294967295) }
{
    match side {
        Lin::Const(n) => Some(*n),
        _ => None,
    }
}

/// A fact as a form that isn't judged yet.
#[derive(Clone, Copy)]
struct FactForm<'a> {
    forms: &'a NameForms<'a>,
    fact: &'a Le,
}

impl Combination for FactForm<'_> {
    ghost form = { λ d. spec.difference (spec.form_of d.forms.now) d.fact.now };

    ghost has_room = { λ d. spec.IsNarrow d.fact.now };

    fn number_at(&self, place: Option<u32>) -> i128 {
        number_of_side(self.forms, &self.fact.high, place)
            - number_of_side(self.forms, &self.fact.low, place)
    }

    fn symbol_from(&self, least: u64) -> Option<u32> {
        lesser(
            symbol_of_side(self.forms, &self.fact.high, least),
            symbol_of_side(self.forms, &self.fact.low, least),
        )
    }
}

/// The constant of a side, or the coefficient of a symbol.
fn number_of_side(forms: &NameForms<'_>, side: &Lin, place: Option<u32>) -> i128
    requires { is_ok (linear side.now) ≡ true }
    ensures number { result ≡ number_at place (spec.side (spec.form_of forms.now) side.now) }
    ensures near { Near (2 ^ 86) result }
    ensures names { spec.AllNear place (spec.form_of forms.now) (spec.names side.now) }
    ensures constant { spec.HasSmallConstant side.now }
{
    match side {
        Lin::Const(n) => number_of_constant(*n, place),
        Lin::Var(x) => form_of(forms, x).number_at(place),
        Lin::Sum(p, q) => number_of_side(forms, p, place) + number_of_side(forms, q, place),
        Lin::Scale(k, p) => i128::from(*k) * number_of_side(forms, p, place),
    }
}

/// A number has no symbol.
fn number_of_constant(n: u32, place: Option<u32>) -> i128
    ensures number { result ≡ number_at place (constant (pos n)) }
    ensures near { Near (2 ^ 32) result }
{
    match place {
        None => i128::from(n),
        Some(_) => 0,
    }
}

/// A symbol of a side from `least` on before which no other one has a coefficient.
fn symbol_of_side(forms: &NameForms<'_>, side: &Lin, least: u64) -> Option<u32>
    ensures next { IsNext (spec.side (spec.form_of forms.now) side.now) least result }
    ensures rising { rises_from 0 (spec.side (spec.form_of forms.now) side.now).terms ≡ true }
{
    match side {
        Lin::Const(_) => None,
        Lin::Var(x) => form_of(forms, x).symbol_from(least),
        Lin::Sum(p, q) => lesser(
            symbol_of_side(forms, p, least),
            symbol_of_side(forms, q, least),
        ),
        Lin::Scale(_, p) => symbol_of_side(forms, p, least),
    }
}

/// The form of a name.
fn form_of(forms: &NameForms<'_>, x: &Name) -> Form
    ensures { result ≡ spec.form_of forms.now x.now }
{
    match forms.given {
        Some((name, form)) if name == x => form.copy(),
        _ => {
            if forms.listed.contains(x) {
                form_in(forms.ends, x)
            } else {
                form_in(forms.others, x)
            }
        }
    }
}

/// The form of a name: its scalar's.
fn form_in(scalars: &[Held], x: &Name) -> Form
    ensures { result ≡ spec.form_in scalars.now x.now }
{
    match find_scalar(scalars, x) {
        None => number(0),
        Some(held) => held.form.copy(),
    }
}

/// The form that is the number.
pub fn number(n: u32) -> Form
    ensures { result ≡ constant (pos n) }
{
    match Form::constant(i64::from(n)) {
        Some(form) => form,
        None => unreachable!(),
    }
}
