//! The requirements, forms over the entry symbols.
ghost use Rattle.std.specs.Prelude.{◌≡◌, [], ◌∷◌, ◌++◌, ◌+◌, ◌*◌, ◌≤◌, ◌<◌, ◌^◌, length, true, false, OnOk, IfOk, pos};
ghost use Rattle.std.specs.Ordering.{int_eq};
ghost use Rattle.rup_base.specs.Answers.{Answers};
ghost use Rattle.image_layout.specs.Reading as spec;
ghost use Rattle.side_certs.specs.LinearForm.{is_small, rises_from};

use crate::reading::fields::{GREATEST_NUMBER, long, word, wrong};
use rup_base::{Fail, List};
use side_certs::Form;
use std::alloc::Global;

/// The symbol and the coefficient of a term of a requirement.
fn term(bytes: &[u8], symbols: u32, least: u32, at: usize) -> Result<(u32, i64), Fail>
    requires short { length bytes.now < 2 ^ 32 }
    requires inside { at ≤ length bytes.now }
    ensures answer { Answers result (spec.judged (spec.term_fields symbols bytes.now least at) (spec.term_at bytes.now at)) }
    ensures after { IfOk result (λ t. least ≤ t.0) }
    ensures below { IfOk result (λ t. t.0 < symbols) }
    ensures not_zero { IfOk result (λ t. int_eq t.1 (pos 0) ≡ false) }
    ensures small { IfOk result (λ t. is_small t.1 ≡ true) }
    ensures whole { OnOk result (at + 12 ≤ length bytes.now) }
{
    let symbol = word(bytes, at)?;
    if symbol < least || symbol >= symbols {
        return Err(wrong(at));
    }
    let coefficient = long(bytes, at + 4)?;
    if coefficient == 0 || coefficient.unsigned_abs() > GREATEST_NUMBER {
        return Err(wrong(at + 4));
    }
    Ok((symbol, coefficient))
}

/// The form with one more term, which has room behind its terms.
fn longer(form: &Form, symbol: u32, coefficient: i64) -> Form
    requires after { rises_from 0 (form.now.terms ++ (symbol, coefficient) ∷ []) ≡ true }
    requires room { length form.now.terms < 16 }
    requires small { is_small coefficient ≡ true }
    ensures constant { result.constant ≡ form.now.constant }
    ensures terms { result.terms ≡ form.now.terms ++ (symbol, coefficient) ∷ [] }
{
    form.terms();
    let term = Form::symbol(symbol).scale(coefficient).unwrap();
    form.add(&term).unwrap()
}

/// The number and `count` terms.
fn with_terms(
    bytes: &[u8],
    symbols: u32,
    constant: Form,
    count: u32,
    start: usize,
) -> Result<Form, Fail>
    requires few { symbols ≤ 8 }
    requires alone { constant.terms ≡ [] }
    requires short { length bytes.now < 2 ^ 32 }
    requires inside { start ≤ length bytes.now }
    ensures answer { let entries = spec.terms symbols bytes.now in
        Answers result (spec.judged (spec.fields_of entries [] count start)
        (spec.form_of constant.constant (spec.values_of entries count start))) }
    ensures whole { IfOk result (λ f. start + 12 * length f.terms ≤ length bytes.now) }
{
    let mut form = constant;
    let mut least = 0;
    let mut at = start;
    for _ in 0..count {
        let (symbol, coefficient) = term(bytes, symbols, least, at)?;
        form = longer(&form, symbol, coefficient);
        least = symbol + 1;
        at += 12;
    }
    Ok(form)
}

/// The constant of a requirement.
fn constant(bytes: &[u8], at: usize) -> Result<Form, Fail>
    requires short { at < 2 ^ 32 }
    ensures answer { let constant = spec.long_at bytes.now at in
        Answers result (spec.judged (spec.field bytes.now at 8 (is_small constant) ∷ []) (spec.form_of constant [])) }
    ensures whole { OnOk result (at + 8 ≤ length bytes.now) }
{
    let k = long(bytes, at)?;
    match Form::constant(k) {
        None => Err(wrong(at)),
        Some(form) => Ok(form),
    }
}

fn requirement(bytes: &[u8], symbols: u32, at: usize) -> Result<Form, Fail>
    requires few { symbols ≤ 8 }
    requires short { length bytes.now < 2 ^ 32 }
    requires inside { at ≤ length bytes.now }
    ensures answer { Answers result
        (spec.judged (spec.requirement_fields symbols bytes.now at) (spec.requirement_at symbols bytes.now at)) }
    ensures whole { IfOk result (λ f. at + 12 + 12 * length f.terms ≤ length bytes.now) }
{
    let constant = constant(bytes, at)?;
    let count = word(bytes, at + 8)?;
    with_terms(bytes, symbols, constant, count, at + 12)
}

/// The requirements, and the offset behind them.
pub fn requirements(
    alloc: Global,
    bytes: &[u8],
    symbols: u32,
    count: u32,
    start: usize,
) -> Result<(List<Form>, usize), Fail>
    requires few { symbols ≤ 8 }
    requires short { length bytes.now < 2 ^ 32 }
    requires inside { start ≤ length bytes.now }
    ensures answer { let entries = spec.requirements symbols bytes.now in
        Answers result (spec.judged (spec.fields_of entries [] count start)
        (spec.values_of entries count start, spec.end_of entries count start)) }
    ensures inside { IfOk result (λ r. r.1 ≤ length bytes.now) }
{
    let mut forms = List::new(alloc);
    let mut at = start;
    for _ in 0..count {
        let form = requirement(bytes, symbols, at)?;
        at += 12 + 12 * form.terms() as usize;
        forms.push(form)?;
    }
    Ok((forms, at))
}
