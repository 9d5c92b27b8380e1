//! The arguments of rules: locals, and forms as numbers.
ghost use Rattle.std.specs.Prelude.{◌≡◌, true, false, pos};
ghost use Rattle.std.specs.Ordering.{int_eq};
ghost use Rattle.side_certs.specs.LinearForm as linear;
ghost use Rattle.stmt_rules.specs.Words as spec;

use side_certs::Form;

/// The greatest local.
const MOST_LOCAL: u32 = 65_535;

/// A number from 0 to a greatest one.
fn up_to(most: u32, k: i64) -> Option<u32>
    ensures { result ≡ spec.up_to most k }
{
    if 0 <= k && k <= i64::from(most) {
        Some(k.unsigned_abs() as u32)
    } else {
        None
    }
}

/// The local that is the first argument.
pub fn first_local(args: &[i64]) -> Option<u32>
    ensures { result ≡ spec.first_local args.now }
{
    match args {
        [] => None,
        [local, ..] => up_to(MOST_LOCAL, *local),
    }
}

/// The form that numbers stand for: the constant, and then symbols that rise, each with a coefficient that is not 0. None
/// exactly where they do not, or the form passes a limit.
pub fn flat(args: &[i64]) -> Option<Form>
    ensures { result ≡ spec.flat args.now }
{
    match args {
        [] => None,
        [constant, rest @ ..] => with_pairs(Form::constant(*constant)?, 0, rest),
    }
}

/// The form with further symbols, the first from the least on, and coefficients.
fn with_pairs(form: Form, least: u64, args: &[i64]) -> Option<Form>
    requires { spec.are_before least form.terms ≡ true }
    ensures { result ≡ spec.with_terms form (spec.pairs least args.now) }
{
    match args {
        [] => whole(form),
        [symbol, coefficient, rest @ ..] => {
            let symbol = up_to(u32::MAX, *symbol)?;
            if u64::from(symbol) < least || *coefficient == 0 {
                return None;
            }
            let more = with_term(&form, symbol, *coefficient)?;
            with_pairs(more, u64::from(symbol) + 1, rest)
        }
        _ => None,
    }
}

/// The form with one further term, whose symbol comes after all others.
fn with_term(form: &Form, symbol: u32, coefficient: i64) -> Option<Form>
    requires before { spec.are_before symbol form.now.terms ≡ true }
    requires counts { int_eq coefficient (pos 0) ≡ false }
    ensures { result ≡ linear.within (spec.behind form.now symbol coefficient) }
{
    // for the proof alone: the symbols of a form rise
    let _ = form.terms();
    form.add(&Form::symbol(symbol).scale(coefficient)?)
}

/// Each form passes no limit. The call of `terms` stands for the proof alone.
fn whole(form: Form) -> Option<Form>
    ensures { result ≡ linear.within form }
{
    let _ = form.terms();
    Some(form)
}
