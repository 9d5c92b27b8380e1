//! Writing an image's bytes.
ghost use Rattle.std.specs.Prelude.{◌≡◌, ℕ, List, ◌++◌, ◌≤◌, ◌<◌, ◌^◌, length, take, drop, OnOk, IfOk};
ghost use Rattle.std.specs.List.{flat_map};
ghost use Rattle.image_layout.specs.Spelling as spec;

use crate::image::Image;
use byteorder::{ByteOrder, LittleEndian};
use cost_poly::Term;
use rup_base::{Kind, NoMemory, Text};
use side_certs::Form;
use std::alloc::Global;

/// The first four bytes of an image.
const MAGIC: &[u8] = b"RUP1";

/// The number that stands for no symbol and for a scalar.
pub(crate) const NONE: u32 = u32::MAX;

/// The length of the fields before the lists, in bytes.
const FIXED: usize = 48;

/// The one spelling of an image within the limits of the layout.
pub fn write_image(alloc: Global, i: &Image) -> Result<Text, NoMemory>
    requires { spec.IsWithinLimits i.now }
    ensures { IfOk result (λ bytes. spec.Layout i.now bytes) }
{
    let lists = write_lists(alloc, i)?;
    let header = FIXED + lists.as_slice().len();
    let code_offset = header.next_multiple_of(16);
    let code = i.code.as_slice();
    let tables = i.tables.as_slice();
    let mut out = Text::from_slice(alloc, MAGIC)?;
    put_numbers(
        &mut out,
        &[
            i.version as usize,
            code_offset + code.len() + tables.len(),
            code_offset,
            code.len(),
            tables.len(),
            i.entry as usize,
            i.stack as usize,
            i.params.len(),
            i.requires_.len(),
            i.rets.len(),
            i.bound.terms().len(),
        ],
    )?;
    out.extend_from_slice(lists.as_slice())?;
    out.extend_from_slice(&[0; 16][..code_offset - header])?;
    out.extend_from_slice(code)?;
    out.extend_from_slice(tables)?;
    Ok(out)
}

/// The lists of parameters, requirements, results and terms of the bound.
fn write_lists(alloc: Global, i: &Image) -> Result<Text, NoMemory>
    ensures { IfOk result (λ bytes. bytes ≡ spec.lists i.now) }
{
    let mut out = Text::new(alloc);
    put_params(&mut out, i.params.as_slice())?;
    put_requirements(&mut out, i.requires_.as_slice())?;
    put_results(&mut out, i.rets.as_slice())?;
    put_bound(&mut out, i.bound.terms())?;
    Ok(out)
}

fn put_numbers(out: &mut Text, numbers: &[usize]) -> Result<(), NoMemory>
    ensures { OnOk result (out.new ≡ out.old ++ flat_map spec.number numbers.now) }
{
    let mut left = numbers;
    'numbers: while let [first, rest @ ..] = left {
        put_length(out, *first)?;
        left = rest;
    }
    Ok(())
}

fn put_params(out: &mut Text, params: &[Kind]) -> Result<(), NoMemory>
    ensures { OnOk result (out.new ≡ out.old ++ flat_map spec.parameter params.now) }
{
    let mut left = params;
    'params: while let [first, rest @ ..] = left {
        put_parameter(out, *first)?;
        left = rest;
    }
    Ok(())
}

fn put_requirements(out: &mut Text, requires_: &[Form]) -> Result<(), NoMemory>
    ensures { OnOk result (out.new ≡ out.old ++ flat_map spec.requirement requires_.now) }
{
    let mut left = requires_;
    'forms: while let [first, rest @ ..] = left {
        put_requirement(out, first)?;
        left = rest;
    }
    Ok(())
}

fn put_results(out: &mut Text, rets: &[Option<u32>]) -> Result<(), NoMemory>
    ensures { OnOk result (out.new ≡ out.old ++ flat_map spec.symbol rets.now) }
{
    let mut left = rets;
    'rets: while let [first, rest @ ..] = left {
        put_symbol(out, *first)?;
        left = rest;
    }
    Ok(())
}

fn put_bound(out: &mut Text, terms: &[Term]) -> Result<(), NoMemory>
    ensures { OnOk result (out.new ≡ out.old ++ flat_map spec.bound_term terms.now) }
{
    let mut left = terms;
    'terms: while let [first, rest @ ..] = left {
        put_symbol(out, first.first)?;
        put_symbol(out, first.second)?;
        put_wide(out, first.coefficient)?;
        left = rest;
    }
    Ok(())
}

fn put_parameter(out: &mut Text, kind: Kind) -> Result<(), NoMemory>
    ensures { OnOk result (out.new ≡ out.old ++ spec.parameter kind) }
{
    let (code, length) = match kind {
        Kind::Word => (0, 0),
        Kind::Byte => (1, 0),
        Kind::Bytes(None) => (2, 0),
        Kind::Words(None) => (3, 0),
        Kind::Bytes(Some(n)) => (4, n),
        Kind::Words(Some(n)) => (5, n),
    };
    put_number(out, code)?;
    put_number(out, length)
}

fn put_requirement(out: &mut Text, form: &Form) -> Result<(), NoMemory>
    ensures { OnOk result (out.new ≡ out.old ++ spec.requirement form.now) }
{
    put_long(out, form.constant_part())?;
    put_number(out, form.terms())?;
    put_terms(out, form)
}

fn put_terms(out: &mut Text, form: &Form) -> Result<(), NoMemory>
    ensures { OnOk result (out.new ≡ out.old ++ flat_map spec.form_term form.now.terms) }
{
    for k in 0..form.terms() {
        put_form_term(out, form.term_at(k))?;
    }
    Ok(())
}

fn put_form_term(out: &mut Text, term: (u32, i64)) -> Result<(), NoMemory>
    ensures { OnOk result (out.new ≡ out.old ++ spec.form_term term) }
{
    put_number(out, term.0)?;
    put_long(out, term.1)
}

fn put_symbol(out: &mut Text, symbol: Option<u32>) -> Result<(), NoMemory>
    ensures { OnOk result (out.new ≡ out.old ++ spec.symbol symbol) }
{
    put_number(out, symbol.unwrap_or(NONE))
}

fn put_number(out: &mut Text, n: u32) -> Result<(), NoMemory>
    ensures { OnOk result (out.new ≡ out.old ++ spec.number n) }
{
    let mut bytes = [0; 4];
    LittleEndian::write_u32(&mut bytes, n);
    out.extend_from_slice(&bytes)
}

/// Puts the low four bytes of a length; each length of an image within the limits has room there.
fn put_length(out: &mut Text, n: usize) -> Result<(), NoMemory>
    ensures { OnOk result (out.new ≡ out.old ++ spec.number n) }
{
    let mut bytes = [0; 8];
    LittleEndian::write_u64(&mut bytes, n as u64);
    out.extend_from_slice(&bytes[..4])
}

fn put_wide(out: &mut Text, n: u64) -> Result<(), NoMemory>
    ensures { OnOk result (out.new ≡ out.old ++ spec.wide n) }
{
    let mut bytes = [0; 8];
    LittleEndian::write_u64(&mut bytes, n);
    out.extend_from_slice(&bytes)
}

fn put_long(out: &mut Text, n: i64) -> Result<(), NoMemory>
    ensures { OnOk result (out.new ≡ out.old ++ spec.long n) }
{
    let mut bytes = [0; 8];
    LittleEndian::write_i64(&mut bytes, n);
    out.extend_from_slice(&bytes)
}
