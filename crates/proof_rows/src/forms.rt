//! Forms, as `-1 2*s0`, and certificates, as `2 0:0:1` with a divisor and entries of kind, number and multiplier.
ghost use Rattle.std.specs.Prelude.{◌<◌, length};

use row_cases::{Fault, number_of};
use rup_base::List;
use side_certs::{Cert, Entry, Form, closes};
use std::alloc::Global;

/// A number with a sign.
fn signed_of(text: &str) -> Result<i64, Fault> {
    match text.parse::<i64>() {
        Ok(number) => Ok(number),
        Err(_) => Err(Fault::BadLine),
    }
}

/// A number without a sign.
pub fn long_of(text: &str) -> Result<u64, Fault> {
    match text.parse::<u64>() {
        Ok(number) => Ok(number),
        Err(_) => Err(Fault::BadLine),
    }
}

/// The form that is the sum of the parts of a text; none where a part or a sum passes a limit.
pub fn form_of(text: &str) -> Result<Option<Form>, Fault> {
    let mut form = Form::constant(0);
    for part in text.split_whitespace() {
        form = both(form, part_of(part)?);
    }
    Ok(form)
}

/// A constant, or a symbol with its coefficient.
fn part_of(part: &str) -> Result<Option<Form>, Fault> {
    match part.split_once("*s") {
        None => Ok(Form::constant(signed_of(part)?)),
        Some((k, s)) => Ok(Form::symbol(number_of(s)?).scale(signed_of(k)?)),
    }
}

fn both(left: Option<Form>, right: Option<Form>) -> Option<Form> {
    left?.add(&right?)
}

/// The form of a text that is within the limits.
pub fn known(text: &str) -> Result<Form, Fault> {
    match form_of(text)? {
        Some(form) => Ok(form),
        None => Err(Fault::BadLine),
    }
}

/// Puts a form behind a text: its constant, and each symbol with its coefficient.
pub fn put_form(text: &mut String, form: &Form) -> Result<(), Fault> {
    write!(text, "{}", form.constant_part())?;
    for k in 0..form.terms() {
        let (symbol, coefficient) = form.term_at(k);
        write!(text, " {coefficient}*s{symbol}")?;
    }
    Ok(())
}

/// The sum, the difference or the multiple of the two parts of a line, or `none`.
pub fn made(alloc: Global, word: &str, line: &str) -> Result<String, Fault> {
    let (first, second) = line.split_once(" | ").unwrap_or((line, ""));
    let right = known(second)?;
    let found = match word.as_bytes() {
        b"sum" => known(first)?.add(&right),
        b"difference" => known(first)?.sub(&right),
        _ => right.scale(signed_of(first)?),
    };
    let mut text = String::new(alloc);
    match found {
        Some(form) => put_form(&mut text, &form)?,
        None => text.push_str("none")?,
    }
    Ok(text)
}

/// Whether a certificate closes a goal, as `FACT; FACT | TOP TOP | GOAL | CERTIFICATE`.
pub fn closed(alloc: Global, line: &str) -> Result<String, Fault> {
    let (facts, rest) = line.split_once(" | ").unwrap_or((line, ""));
    let (tops, rest) = rest.split_once(" | ").unwrap_or((rest, ""));
    let (goal, cert) = rest.split_once(" | ").unwrap_or((rest, ""));
    let goal = known(goal)?;
    let facts = facts_of(alloc, facts)?;
    let tops = row_cases::numbers_of(alloc, tops)?;
    let cert = cert_of(alloc, cert)?;
    let answer = if closes(facts.as_slice(), tops.as_slice(), &goal, &cert) {
        "true"
    } else {
        "false"
    };
    Ok(String::from_str(alloc, answer)?)
}

fn facts_of(alloc: Global, text: &str) -> Result<Vec<Form>, Fault> {
    let mut facts = Vec::new(alloc);
    for fact in text.split("; ") {
        facts.push(known(fact)?)?;
    }
    Ok(facts)
}

fn cert_of(alloc: Global, text: &str) -> Result<Cert, Fault> {
    let mut cert = Cert {
        d: 0,
        entries: List::new(alloc),
    };
    for word in text.split_whitespace() {
        match word.split_once(':') {
            None => cert.d = long_of(word)?,
            Some((kind, rest)) => cert.entries.push(entry_of(kind, rest)?)?,
        }
    }
    Ok(cert)
}

fn entry_of(kind: &str, rest: &str) -> Result<Entry, Fault> {
    let (number, mult) = rest.split_once(':').unwrap_or((rest, ""));
    let Ok(kind) = kind.parse::<u8>() else {
        return Err(Fault::BadLine);
    };
    Ok(Entry {
        kind,
        number: number_of(number)?,
        mult: long_of(mult)?,
    })
}
