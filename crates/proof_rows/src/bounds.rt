//! Bounds, as `10 3*s1 2*s0*s1`.
use crate::forms::{known, long_of};
use cost_poly::{Poly, Term, Wide};
use row_cases::{Fault, number_of, numbers_of};
use std::alloc::Global;

/// The symbol behind `s`.
fn symbol_of(text: &str) -> Result<u32, Fault> {
    match text.strip_prefix("s") {
        Some(digits) => number_of(digits),
        None => Err(Fault::BadLine),
    }
}

/// The polynomial of the terms of a text in their order; none where a term can't stand behind the one before it.
fn poly_of(text: &str) -> Result<Option<Poly>, Fault> {
    let mut poly = Some(Poly::zero());
    for word in text.split_whitespace() {
        let (first, second, coefficient) = term_of(word)?;
        poly = match poly {
            Some(poly) => poly.with_term(first, second, coefficient),
            None => None,
        };
    }
    Ok(poly)
}

fn term_of(word: &str) -> Result<(Option<u32>, Option<u32>, u64), Fault> {
    let Some((coefficient, symbols)) = word.split_once('*') else {
        return Ok((None, None, long_of(word)?));
    };
    let coefficient = long_of(coefficient)?;
    match symbols.split_once('*') {
        None => Ok((Some(symbol_of(symbols)?), None, coefficient)),
        Some((first, second)) => Ok((
            Some(symbol_of(first)?),
            Some(symbol_of(second)?),
            coefficient,
        )),
    }
}

fn known_poly(text: &str) -> Result<Poly, Fault> {
    match poly_of(text)? {
        Some(poly) => Ok(poly),
        None => Err(Fault::BadLine),
    }
}

fn put_term(text: &mut String, term: &Term) -> Result<(), Fault> {
    write!(text, " {}", term.coefficient)?;
    if let Some(symbol) = term.first {
        write!(text, "*s{symbol}")?;
    }
    if let Some(symbol) = term.second {
        write!(text, "*s{symbol}")?;
    }
    Ok(())
}

/// The terms of a bound, `wide` with its degree and greatest coefficient where it passes a limit.
fn bound_text(alloc: Global, bound: Result<Poly, Wide>) -> Result<String, Fault> {
    match bound {
        Ok(poly) => {
            let mut text = String::from_str(alloc, "terms")?;
            for term in poly.terms() {
                put_term(&mut text, term)?;
            }
            Ok(text)
        }
        Err(wide) => wide_text(alloc, wide),
    }
}

fn wide_text(alloc: Global, wide: Wide) -> Result<String, Fault> {
    let Wide {
        degree,
        coefficient,
    } = wide;
    Ok(format!(in alloc; "wide {degree} {coefficient}")?)
}

/// A bound, the sum or the greater one of two, or the product of a bound and a form.
pub fn made(alloc: Global, word: &str, line: &str) -> Result<String, Fault> {
    let (first, second) = line.split_once(" | ").unwrap_or((line, ""));
    let Some(left) = poly_of(first)? else {
        return Ok(String::from_str(alloc, "none")?);
    };
    let found = match word.as_bytes() {
        b"plus" => left.add(&known_poly(second)?),
        b"greater" => Ok(left.max(&known_poly(second)?)),
        b"times" => left.scale(&known(second)?),
        _ => Ok(left),
    };
    bound_text(alloc, found)
}

/// The value of a bound at numbers, as `4 6 | 10 3*s1`.
pub fn value(alloc: Global, line: &str) -> Result<String, Fault> {
    let (numbers, bound) = line.split_once("| ").unwrap_or((line, ""));
    let numbers = numbers_of(alloc, numbers)?;
    let bound = known_poly(bound)?;
    number_text(alloc, bound.at(numbers.as_slice()))
}

fn number_text(alloc: Global, number: u128) -> Result<String, Fault> {
    Ok(format!(in alloc; "{number}")?)
}
