//! Whether an image may be called with arguments.
ghost use Rattle.std.specs.Prelude.{◌≡◌, ◌≤◌, ◌<◌, ◌+◌, ◌*◌, ◌-◌, ◌^◌, ◌++◌, ◌*ℤ◌, pos, length, negsuc, ◌≤ℤ◌, drop, OnOk, IfOk};
ghost use Rattle.rup_base.specs.Answers.{Answers};
ghost use Rattle.image_layout.specs.Spelling.{IsWithinLimits};
ghost use Rattle.side_certs.specs.LinearForm.{value_at, terms_at};
ghost use Rattle.run_setup.specs.Arguments.{array_limit};
ghost use Rattle.run_setup.specs.Judging as spec;

use image_layout::Image;
use model_syntax::is_of_kind;
use rup_base::{Arg, ArgFault, Fail, Kind, List, NoMemory, Refusal};
use side_certs::Form;
use std::alloc::Global;

/// The greatest number of bytes of all arrays.
const ARRAY_LIMIT: u64 = 67_108_864;

/// The image may be called with the arguments, or is refused for the first fault: their count, a parameter, the size
/// of all arrays, a requirement.
#[tactic(auto, using(image_layout::proofs::laws::Length::params_most))]
pub fn judge(alloc: Global, i: &Image, args: &[Arg]) -> Result<(), Fail>
    requires { IsWithinLimits i.now }
    ensures answer { Answers result (spec.judged i.now args.now) }
    ensures few { OnOk result (length args.now ≤ 8) }
    ensures small { OnOk result (spec.total_size args.now ≤ array_limit) }
{
    let kinds = i.params.as_slice();
    judge_count(kinds, args)?;
    judge_kinds(kinds, args)?;
    judge_size(args)?;
    let values = symbol_values(alloc, kinds, args)?;
    judge_requirements(i.requires_.as_slice(), values.as_slice())
}

fn judge_count(kinds: &[Kind], args: &[Arg]) -> Result<(), Fail>
    ensures answer { Answers result (spec.judged_count kinds.now args.now) }
    ensures count { OnOk result (length args.now ≡ length kinds.now) }
{
    if args.len() != kinds.len() {
        return Err(Fail::Refused(Refusal::BadArguments {
            which: ArgFault::Count,
        }));
    }
    Ok(())
}

fn judge_kinds(kinds: &[Kind], args: &[Arg]) -> Result<(), Fail>
    requires count { length args.now ≡ length kinds.now }
    requires few { length kinds.now < 2 ^ 32 }
    ensures { Answers result (spec.judged_kinds 0 kinds.now args.now) }
{
    for k in 0..kinds.len() {
        if !is_of_kind(kinds[k], &args[k]) {
            return Err(Fail::Refused(Refusal::BadArguments {
                which: ArgFault::Param(k as u32),
            }));
        }
    }
    Ok(())
}

/// The bytes of an array.
fn size_of(arg: &Arg) -> u64
    ensures { result ≡ spec.capped (spec.size_of arg.now) }
{
    match arg {
        Arg::Word(_) => 0,
        Arg::Bytes(bytes) => bytes.len() as u64,
        Arg::Words(words) => (words.len() as u64).saturating_mul(4),
    }
}

fn total_size(args: &[Arg]) -> u64
    ensures { result ≡ spec.capped (spec.total_size args.now) }
{
    let mut total: u64 = 0;
    let mut left = args;
    'each: while let [first, rest @ ..] = left {
        total = total.saturating_add(size_of(first));
        left = rest;
    }
    total
}

/// The arrays have at most 67,108,864 bytes in sum, or are refused as `ArraysTooLarge` with that sum, or with the
/// greatest number of 64 bits where it is greater.
pub fn judge_size(args: &[Arg]) -> Result<(), Fail>
    ensures answer { Answers result (spec.judged_size args.now) }
    ensures small { OnOk result (spec.total_size args.now ≤ array_limit) }
{
    let bytes = total_size(args);
    if bytes > ARRAY_LIMIT {
        return Err(Fail::Refused(Refusal::ArraysTooLarge { bytes }));
    }
    Ok(())
}

/// Puts the length of an array, where its parameter has a name for it.
pub fn put_length(values: &mut List<u32>, kind: Kind, length: usize) -> Result<(), NoMemory>
    requires { length < 2 ^ 32 }
    ensures { OnOk result (values.new ≡ values.old ++ spec.length_value kind length) }
{
    match kind {
        Kind::Bytes(None) => values.push(length as u32),
        Kind::Words(None) => values.push(length as u32),
        _ => Ok(()),
    }
}

fn put_symbols(values: &mut List<u32>, kind: Kind, arg: &Arg) -> Result<(), NoMemory>
    requires { spec.size_of arg.now < 2 ^ 32 }
    ensures { OnOk result (values.new ≡ values.old ++ spec.symbols_of kind arg.now) }
{
    match arg {
        Arg::Word(n) => values.push(*n),
        Arg::Bytes(bytes) => put_length(values, kind, bytes.len()),
        Arg::Words(words) => put_length(values, kind, words.len()),
    }
}

/// The values of the entry symbols, which stand for words, bytes and named lengths in the order of the parameters. An
/// image's bound and requirements are over them.
pub fn symbol_values(alloc: Global, kinds: &[Kind], args: &[Arg]) -> Result<List<u32>, NoMemory>
    requires { spec.total_size args.now < 2 ^ 32 }
    ensures { IfOk result (λ values. values ≡ spec.symbol_values kinds.now args.now) }
{
    let mut values = List::new(alloc);
    let mut kinds_left = kinds;
    let mut args_left = args;
    'each: while let [arg, args_rest @ ..] = args_left {
        match kinds_left {
            [] => return Ok(values),
            [kind, kinds_rest @ ..] => {
                put_symbols(&mut values, *kind, arg)?;
                kinds_left = kinds_rest;
            }
        }
        args_left = args_rest;
    }
    Ok(values)
}

fn judge_requirements(forms: &[Form], values: &[u32]) -> Result<(), Fail>
    requires { length forms.now ≤ 4096 }
    ensures { Answers result (spec.judged_requirements 0 values.now forms.now) }
{
    let mut k: u32 = 0;
    let mut left = forms;
    'forms: while let [first, rest @ ..] = left {
        if !holds(first, values) {
            return Err(Fail::Refused(Refusal::BadArguments {
                which: ArgFault::Require(k),
            }));
        }
        k += 1;
        left = rest;
    }
    Ok(())
}

/// The form is at least 0 at the values.
fn holds(form: &Form, values: &[u32]) -> bool
    ensures { result ≡ spec.holds values.now form.now }
{
    i128::from(form.constant_part()) + terms_value(form, values) >= 0
}

/// The value of a symbol, 0 past the end of the values.
fn value_of(values: &[u32], symbol: u32) -> u32
    ensures { result ≡ spec.by_symbol values.now symbol }
{
    values.get(symbol as usize).copied().unwrap_or(0)
}

/// A coefficient of 64 bits times a word.
fn product_is_small(coefficient: i64, value: u32)
    ensures low { negsuc (2 ^ 96) ≤ℤ (coefficient *ℤ pos value) }
    ensures high { (coefficient *ℤ pos value) ≤ℤ pos (2 ^ 96) }
{
    let _ = (coefficient, value);
}

fn term_value(coefficient: i64, value: u32) -> i128
    ensures product { result ≡ coefficient *ℤ pos value }
    ensures low { negsuc (2 ^ 96) ≤ℤ result }
    ensures high { result ≤ℤ pos (2 ^ 96) }
{
    product_is_small(coefficient, value);
    i128::from(coefficient) * i128::from(value)
}

/// The value of the terms of a form from number k on, of which the rest is the value of those behind it.
fn with_term(form: &Form, values: &[u32], k: u32, rest: i128) -> i128
    requires inside { k < length form.now.terms }
    requires few { k < 16 }
    requires rest { rest ≡ terms_at (spec.by_symbol values.now) (drop (k + 1) form.now.terms) }
    requires low { negsuc ((15 - k) * 2 ^ 97) ≤ℤ rest }
    requires high { rest ≤ℤ pos ((15 - k) * 2 ^ 97) }
    ensures value { result ≡ terms_at (spec.by_symbol values.now) (drop k form.now.terms) }
    ensures low { negsuc ((16 - k) * 2 ^ 97) ≤ℤ result }
    ensures high { result ≤ℤ pos ((16 - k) * 2 ^ 97) }
{
    let (symbol, coefficient) = form.term_at(k);
    term_value(coefficient, value_of(values, symbol)) + rest
}

/// The value of the terms of a form.
fn terms_value(form: &Form, values: &[u32]) -> i128
    ensures value { result ≡ terms_at (spec.by_symbol values.now) form.now.terms }
    ensures low { negsuc (2 ^ 101) ≤ℤ result }
    ensures high { result ≤ℤ pos (2 ^ 101) }
{
    let mut sum: i128 = 0;
    let mut k = form.terms();
    'terms: while k > 0 {
        k -= 1;
        sum = with_term(form, values, k, sum);
    }
    sum
}
