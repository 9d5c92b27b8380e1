//! The parameters, their registers and their entry symbols.
ghost use Rattle.std.specs.Prelude.{◌≡◌, [], ◌∷◌, ◌+◌, ◌≤◌, ◌<◌, ◌^◌, length, OnOk, IfOk, sum_by};
ghost use Rattle.rup_base.specs.Answers.{Answers};
ghost use Rattle.image_layout.specs.Spelling.{registers_of, symbols_of, symbol_count};
ghost use Rattle.image_layout.specs.Reading as spec;

use crate::reading::fields::{word, wrong};
use rup_base::{Fail, Kind, List};
use std::alloc::Global;

/// The argument registers of a parameter of this code.
fn registers_for(code: u32) -> u32
    ensures { result ≡ spec.registers_for code }
{
    if code == 2 || code == 3 { 2 } else { 1 }
}

fn kind_of(code: u32, n: u32) -> Kind
    ensures kind { result ≡ spec.kind_of code n }
    ensures registers { registers_of result ≡ spec.registers_for code }
{
    match code {
        0 => Kind::Word,
        1 => Kind::Byte,
        2 => Kind::Bytes(None),
        3 => Kind::Words(None),
        4 => Kind::Bytes(Some(n)),
        _ => Kind::Words(Some(n)),
    }
}

/// The parameter's code, behind others that take so many registers.
fn parameter_code(bytes: &[u8], used: u32, at: usize) -> Result<u32, Fail>
    requires few { used ≤ 8 }
    requires short { at < 2 ^ 32 }
    ensures answer { Answers result (spec.judged (spec.kind_field bytes.now used at ∷ []) (spec.word_at bytes.now at)) }
    ensures room { IfOk result (λ code. used + spec.registers_for code ≤ 8) }
    ensures whole { OnOk result (at + 4 ≤ length bytes.now) }
{
    let code = word(bytes, at)?;
    if code >= 6 || used + registers_for(code) > 8 {
        return Err(wrong(at));
    }
    Ok(code)
}

fn parameter(bytes: &[u8], used: u32, at: usize) -> Result<Kind, Fail>
    requires few { used ≤ 8 }
    requires short { length bytes.now < 2 ^ 32 }
    requires inside { at ≤ length bytes.now }
    ensures answer { Answers result (spec.judged (spec.parameter_fields bytes.now used at) (spec.parameter_at bytes.now at)) }
    ensures room { IfOk result (λ kind. used + registers_of kind ≤ 8) }
    ensures whole { OnOk result (at + 8 ≤ length bytes.now) }
{
    let code = parameter_code(bytes, used, at)?;
    let n = word(bytes, at + 4)?;
    if code < 4 && n != 0 {
        return Err(wrong(at + 4));
    }
    Ok(kind_of(code, n))
}

/// The parameters, and the offset behind them.
pub fn parameters(
    alloc: Global,
    bytes: &[u8],
    count: u32,
    start: usize,
) -> Result<(List<Kind>, usize), Fail>
    requires short { length bytes.now < 2 ^ 32 }
    requires inside { start ≤ length bytes.now }
    ensures answer { let entries = spec.parameters bytes.now in
        Answers result (spec.judged (spec.fields_of entries [] count start)
        (spec.values_of entries count start, spec.end_of entries count start)) }
    ensures inside { IfOk result (λ r. r.1 ≤ length bytes.now) }
    ensures few { IfOk result (λ r. sum_by registers_of r.0 ≤ 8) }
{
    let mut kinds = List::new(alloc);
    let mut used = 0;
    let mut at = start;
    for _ in 0..count {
        let kind = parameter(bytes, used, at)?;
        used += registers(kind);
        kinds.push(kind)?;
        at += 8;
    }
    Ok((kinds, at))
}

/// The argument registers of a parameter.
fn registers(kind: Kind) -> u32
    ensures { result ≡ registers_of kind }
{
    match kind {
        Kind::Bytes(None) | Kind::Words(None) => 2,
        _ => 1,
    }
}

fn symbols_of(kind: Kind) -> u32
    ensures { result ≡ symbols_of kind }
{
    match kind {
        Kind::Bytes(Some(_)) | Kind::Words(Some(_)) => 0,
        _ => 1,
    }
}

/// The number of entry symbols of parameters that take at most eight registers.
pub fn symbol_count(kinds: &[Kind]) -> u32
    requires few { sum_by registers_of kinds.now ≤ 8 }
    ensures count { result ≡ symbol_count kinds.now }
    ensures few { result ≤ 8 }
{
    let mut count = 0;
    for kind in kinds {
        count += symbols_of(*kind);
    }
    count
}
