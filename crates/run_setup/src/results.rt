//! The results of a run.
ghost use Rattle.std.specs.Prelude.{◌≡◌, ◌++◌, ◌+◌, ◌≤◌, ◌<◌, ◌^◌, Ok, Some, length, take, slice_get, IfOk, OnOk};
ghost use Rattle.std.specs.List.{flat_map};
ghost use Rattle.run_setup.specs.Digits.{two_digits};
ghost use Rattle.run_setup.specs.Arguments.{array_limit, bytes_of_words};
ghost use Rattle.run_setup.specs.Results as spec;
ghost use Rattle.run_setup.specs.Judging.{judged, size_of, total_size};
ghost use Rattle.run_setup.specs.Loading as loading;
ghost use Rattle.image_layout.specs.Spelling.{IsWithinLimits};
ghost use Rattle.image_layout.specs.Reading.{scalars};
ghost use Rattle.rv_machine.specs.View.{state_of};

use crate::arguments::words_of;
use crate::digits::{put_bytes, put_word};
use crate::loading::{BASE, aligned, end_of};
use image_layout::{Image, image_length};
use rup_base::{Arg, Args, List, NoMemory, Results, Text};
use rv_machine::Machine;
use rv_memory::Memory;
use std::alloc::Global;

/// The results that the machine has where the image returned: scalars from a0 on, and each returned array where `load`
/// put its argument. The arguments are those that `load` took.
pub fn read_results(alloc: Global, m: &Machine, i: &Image, args: &Args) -> Result<Results, NoMemory>
    requires limits { IsWithinLimits i.now }
    requires judged { judged i.now args.now ≡ Ok tt }
    ensures { IfOk result (λ results. results ≡ spec.results_of (state_of m.now) i.now args.now) }
{
    let image_end = BASE + image_length(i);
    let args = args.as_slice();
    is_small(i, args);
    let mut results = List::new(alloc);
    let mut register: usize = 10;
    let mut left = i.rets.as_slice();
    has_few_scalars(i);
    'rets: while let [first, rest @ ..] = left {
        match *first {
            None => {
                results.push(Arg::Word(m.regs[register]))?;
                register += 1;
            }
            Some(p) => {
                let array = array_at(alloc, &m.mem, image_end, args, p as usize)?;
                results.push(array)?;
            }
        }
        left = rest;
    }
    Ok(results)
}

/// Arguments that `load` took are few, and their arrays small.
fn is_small(i: &Image, args: &[Arg])
    requires limits { IsWithinLimits i.now }
    requires judged { judged i.now args.now ≡ Ok tt }
    ensures few { length args.now ≤ 8 }
    ensures small { total_size args.now ≤ array_limit }
{
    let _ = i.entry;
    let _ = args.len();
}

/// An image has at most two scalar results.
fn has_few_scalars(i: &Image)
    requires { IsWithinLimits i.now }
    ensures { scalars i.now.rets ≤ 2 }
{
    let _ = i;
}

/// The array that stands in the place of argument p.
#[tactic(auto, using(std::proofs::lemmas::Option::slice_get_past))]
fn array_at(
    alloc: Global,
    mem: &Memory,
    image_end: u32,
    args: &[Arg],
    p: usize,
) -> Result<Arg, NoMemory>
    requires few { length args.now ≤ 8 }
    requires small { total_size args.now ≤ array_limit }
    requires near { image_end ≤ 2000000 }
    ensures { IfOk result (λ array. array
        ≡ spec.array_at mem.now (loading.aligned (loading.end_of image_end (take p args.now))) (slice_get args.now p)) }
{
    if p < args.len() {
        array_in_place(alloc, mem, image_end, args, p)
    } else {
        Ok(Arg::Bytes(Text::new(alloc)))
    }
}

#[tactic(auto, using(crate::proofs::laws::Places::total_before, crate::proofs::laws::Places::size_at))]
fn array_in_place(
    alloc: Global,
    mem: &Memory,
    image_end: u32,
    args: &[Arg],
    p: usize,
) -> Result<Arg, NoMemory>
    requires inside { p < length args.now }
    requires few { length args.now ≤ 8 }
    requires small { total_size args.now ≤ array_limit }
    requires near { image_end ≤ 2000000 }
    ensures { IfOk result (λ array. array
        ≡ spec.array_at mem.now (loading.aligned (loading.end_of image_end (take p args.now))) (slice_get args.now p)) }
{
    let place = aligned(end_of(image_end, &args[..p]));
    read_array(alloc, mem, place, &args[p])
}

/// The array that stands at an address in the place of an argument.
fn read_array(alloc: Global, mem: &Memory, place: u32, arg: &Arg) -> Result<Arg, NoMemory>
    requires { place + size_of arg.now ≤ 2 ^ 28 }
    ensures { IfOk result (λ array. array ≡ spec.array_at mem.now place (Some arg.now)) }
{
    match arg {
        Arg::Word(_) => Ok(Arg::Bytes(Text::new(alloc))),
        Arg::Bytes(bytes) => {
            let bytes = bytes_at(alloc, mem, place, bytes.len() as u32)?;
            Ok(Arg::Bytes(bytes))
        }
        Arg::Words(words) => {
            let bytes = bytes_at(alloc, mem, place, 4 * words.len() as u32)?;
            let words = words_of(alloc, bytes.as_slice())?;
            Ok(Arg::Words(words))
        }
    }
}

fn byte_of(byte: Option<u8>) -> u8
    ensures { result ≡ spec.byte_of byte }
{
    match byte {
        None => 0,
        Some(byte) => byte,
    }
}

/// So many bytes from an address on.
fn bytes_at(alloc: Global, mem: &Memory, address: u32, count: u32) -> Result<Text, NoMemory>
    requires { address + count ≤ 2 ^ 28 }
    ensures { IfOk result (λ bytes. bytes ≡ spec.bytes_at mem.now address count) }
{
    let mut bytes = Text::new(alloc);
    let mut at = address;
    let mut left = count;
    'bytes: while left > 0 {
        bytes.push(byte_of(mem.get(at)))?;
        at += 1;
        left -= 1;
    }
    Ok(bytes)
}

/// The results as text, each on a line of its own: a scalar as eight hexadecimal digits of lower case, an array as two
/// digits for each of its bytes in the order of memory.
pub fn print_results(alloc: Global, r: &Results) -> Result<Text, NoMemory>
    ensures { IfOk result (λ text. text ≡ spec.lines_of r.now) }
{
    let mut out = Text::new(alloc);
    put_lines(&mut out, r.as_slice())?;
    Ok(out)
}

fn put_lines(out: &mut Text, results: &[Arg]) -> Result<(), NoMemory>
    ensures { OnOk result (out.new ≡ out.old ++ spec.lines_of results.now) }
{
    let mut left = results;
    'results: while let [first, rest @ ..] = left {
        put_line(out, first)?;
        left = rest;
    }
    Ok(())
}

fn put_line(out: &mut Text, value: &Arg) -> Result<(), NoMemory>
    ensures { OnOk result (out.new ≡ out.old ++ spec.line_of value.now) }
{
    put_digits(out, value)?;
    out.push(b'\n')
}

fn put_digits(out: &mut Text, value: &Arg) -> Result<(), NoMemory>
    ensures { OnOk result (out.new ≡ out.old ++ spec.digits_of value.now) }
{
    match value {
        Arg::Word(n) => put_word(out, *n),
        Arg::Bytes(bytes) => put_bytes(out, bytes.as_slice()),
        Arg::Words(words) => put_words(out, words.as_slice()),
    }
}

fn put_words(out: &mut Text, words: &[u32]) -> Result<(), NoMemory>
    ensures { OnOk result (out.new ≡ out.old ++ flat_map two_digits (bytes_of_words words.now)) }
{
    let mut left = words;
    'words: while let [first, rest @ ..] = left {
        put_bytes(out, &first.to_le_bytes())?;
        left = rest;
    }
    Ok(())
}
