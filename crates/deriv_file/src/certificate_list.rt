//! The certificates of a node. They are read apart from the node, so that a file may give them in another way.
ghost use Rattle.std.specs.Prelude.{◌≡◌, Option, option_map, option_and_then, IfOk};
ghost use Rattle.serde_json.specs.Find.{as_array};
ghost use Rattle.serde_json.specs.View.{view, items_view};
ghost use Rattle.deriv_file.specs.CertificateList as spec;

use crate::number::number_in;
use rup_base::{List, NoMemory};
use serde_json::Value;
use side_certs::{Cert, Entry};
use std::alloc::Global;

/// The greatest divisor of a goal and multiplier of an entry.
const GREATEST_FACTOR: u64 = 1 << 32;

/// The greatest number of a fact or a symbol.
const GREATEST_NUMBER: u64 = (1 << 32) - 1;

#[tactic(auto, using(crate::proofs::Parts::three_of_none))]
fn three_of(items: &[Value]) -> Option<(&Value, &Value, &Value)>
    ensures { option_map (λ p. (view p.0.now, view p.1.now, view p.2.now)) result ≡ spec.three_of (items_view items.now) }
{
    match items {
        [first, second, third] => Some((first, second, third)),
        _ => None,
    }
}

#[tactic(auto, using(crate::proofs::Parts::two_of_none))]
fn two_of(items: &[Value]) -> Option<(&Value, &Value)>
    ensures { option_map (λ p. (view p.0.now, view p.1.now)) result ≡ spec.two_of (items_view items.now) }
{
    match items {
        [first, second] => Some((first, second)),
        _ => None,
    }
}

/// The entry `[kind, number, multiplier]`.
fn entry_of(value: &Value) -> Option<Entry>
    ensures { result ≡ spec.entry_of (view value.now) }
{
    let items = value.as_array()?;
    let (kind, number, mult) = three_of(items.as_slice())?;
    let kind = number_in(0, 2, kind)?;
    let number = number_in(0, GREATEST_NUMBER, number)?;
    let mult = number_in(0, GREATEST_FACTOR, mult)?;
    Some(Entry {
        kind: kind as u8,
        number: number as u32,
        mult,
    })
}

fn entries_of(alloc: Global, items: &[Value]) -> Result<Option<List<Entry>>, NoMemory>
    ensures { IfOk result (λ read. read ≡ spec.entries_of (items_view items.now)) }
{
    let mut entries = List::new(alloc);
    let mut left = items;
    while let [first, rest @ ..] = left {
        match entry_of(first) {
            Some(entry) => entries.push(entry)?,
            None => return Ok(None),
        }
        left = rest;
    }
    Ok(Some(entries))
}

/// The parts of a certificate `[d, entries]`: the divisor, and the list of entries.
fn cert_parts(value: &Value) -> Option<(&Value, &Value)>
    ensures { option_map (λ p. (view p.0.now, view p.1.now)) result ≡ option_and_then spec.two_of (as_array (view value.now)) }
{
    let items = value.as_array()?;
    two_of(items.as_slice())
}

fn cert_of(alloc: Global, value: &Value) -> Result<Option<Cert>, NoMemory>
    ensures { IfOk result (λ read. read ≡ spec.cert_of (view value.now)) }
{
    let Some((d, entries)) = cert_parts(value) else {
        return Ok(None);
    };
    cert_of_parts(alloc, d, entries)
}

fn cert_of_parts(alloc: Global, d: &Value, entries: &Value) -> Result<Option<Cert>, NoMemory>
    ensures { IfOk result (λ read. read ≡ spec.cert_of_parts (view d.now, view entries.now)) }
{
    let Some(d) = number_in(1, GREATEST_FACTOR, d) else {
        return Ok(None);
    };
    let Some(items) = entries.as_array() else {
        return Ok(None);
    };
    match entries_of(alloc, items.as_slice())? {
        Some(entries) => Ok(Some(Cert { d, entries })),
        None => Ok(None),
    }
}

/// The certificates of a node, in order.
pub fn certs_of(alloc: Global, items: &[Value]) -> Result<Option<List<Cert>>, NoMemory>
    ensures { IfOk result (λ read. read ≡ spec.certs_of (items_view items.now)) }
{
    let mut certs = List::new(alloc);
    let mut left = items;
    while let [first, rest @ ..] = left {
        match cert_of(alloc, first)? {
            Some(cert) => certs.push(cert)?,
            None => return Ok(None),
        }
        left = rest;
    }
    Ok(Some(certs))
}
