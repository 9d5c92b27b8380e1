//! The results: scalars and arrays of parameters.
ghost use Rattle.std.specs.Prelude.{◌≡◌, [], ◌+◌, ◌≤◌, ◌<◌, ◌^◌, length, OnOk, IfOk};
ghost use Rattle.rup_base.specs.Answers.{Answers};
ghost use Rattle.image_layout.specs.Reading as spec;

use crate::reading::fields::{symbol_of, word, wrong};
use rup_base::{Fail, Kind, List};
use std::alloc::Global;

/// The number of scalars among the results.
fn scalars(rets: &[Option<u32>]) -> usize
    ensures { result ≡ spec.scalars rets.now }
{
    let mut count = 0;
    let mut left = rets;
    'rets: while let [first, rest @ ..] = left {
        if first.is_none() {
            count += 1;
        }
        left = rest;
    }
    count
}

/// The array of this parameter is among the results.
fn has_array(p: u32, rets: &[Option<u32>]) -> bool
    ensures { result ≡ spec.has_array p rets.now }
{
    let mut left = rets;
    'rets: while let [first, rest @ ..] = left {
        if let Some(q) = first {
            if p == *q {
                return true;
            }
        }
        left = rest;
    }
    false
}

fn is_some_array(kind: Option<Kind>) -> bool
    ensures { result ≡ spec.is_some_array kind }
{
    matches!(kind, Some(Kind::Bytes(_) | Kind::Words(_)))
}

/// The result may stand behind those before it.
fn is_result(kinds: &[Kind], before: &[Option<u32>], ret: Option<u32>) -> bool
    ensures { result ≡ spec.is_result kinds.now before.now ret }
{
    match ret {
        None => scalars(before) < 2,
        Some(p) => is_some_array(kinds.get(p as usize).copied()) && !has_array(p, before),
    }
}

fn result_at(
    bytes: &[u8],
    kinds: &[Kind],
    before: &[Option<u32>],
    at: usize,
) -> Result<Option<u32>, Fail>
    requires short { at < 2 ^ 32 }
    ensures answer { let fields = spec.result_fields kinds.now bytes.now before.now at in
        Answers result (spec.judged fields (spec.result_at bytes.now at)) }
    ensures whole { OnOk result (at + 4 ≤ length bytes.now) }
{
    let ret = symbol_of(word(bytes, at)?);
    if !is_result(kinds, before, ret) {
        return Err(wrong(at));
    }
    Ok(ret)
}

/// The results, and the offset behind them.
pub fn results(
    alloc: Global,
    bytes: &[u8],
    kinds: &[Kind],
    count: u32,
    start: usize,
) -> Result<(List<Option<u32>>, usize), Fail>
    requires short { length bytes.now < 2 ^ 32 }
    requires inside { start ≤ length bytes.now }
    ensures answer { let entries = spec.results kinds.now bytes.now in
        Answers result (spec.judged (spec.fields_of entries [] count start)
        (spec.values_of entries count start, spec.end_of entries count start)) }
    ensures inside { IfOk result (λ r. r.1 ≤ length bytes.now) }
{
    let mut rets = List::new(alloc);
    let mut at = start;
    for _ in 0..count {
        let ret = result_at(bytes, kinds, rets.as_slice(), at)?;
        rets.push(ret)?;
        at += 4;
    }
    Ok((rets, at))
}
