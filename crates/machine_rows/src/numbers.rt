//! Bytes and numbers in a memory of two regions, as a row asks for them.
use crate::bytes::put_bytes;
use crate::parts::hex_of;
use row_cases::{Fault, bytes_of, number_of};
use rup_base::{List, Text};
use rv_memory::Memory;
use std::alloc::Global;

/// The most bytes of a region.
const MOST: usize = 64;

/// A region: the address of its first byte, and its bytes.
#[derive(Drop)]
struct Part {
    at: u32,
    bytes: Text,
}

/// The region of a word, as `4094=0102`.
fn part_of(alloc: Global, word: &str) -> Result<Part, Fault> {
    let Some((at, bytes)) = word.split_once('=') else {
        return Err(Fault::BadLine);
    };
    let bytes = bytes_of(alloc, bytes)?;
    if bytes.len() > MOST {
        return Err(Fault::BadLine);
    }
    let at = number_of(at)?;
    Ok(Part { at, bytes })
}

/// The memory of two regions, of which the first ends where the second begins or before.
fn memory(alloc: Global, low: Part, high: Part) -> Result<Memory, Fault> {
    let Part {
        at: first,
        bytes: below,
    } = low;
    let Part {
        at: second,
        bytes: above,
    } = high;
    if below.len() > MOST || above.len() > MOST {
        return Err(Fault::BadLine);
    }
    if u64::from(first) + below.len() as u64 > u64::from(second) {
        return Err(Fault::BadLine);
    }
    if u64::from(second) + above.len() as u64 > 4_294_967_296 {
        return Err(Fault::BadLine);
    }
    let mut regions = List::new(alloc);
    regions.push((first, below))?;
    regions.push((second, above))?;
    Ok(Memory::new(alloc, regions)?)
}

/// A load or a store, as `4094=0102 4096=0304; four 4094`.
pub fn numbers(alloc: Global, line: &str) -> Result<String, Fault> {
    let (regions, call) = line.split_once("; ").unwrap_or((line, ""));
    let (low, high) = regions.split_once(' ').unwrap_or((regions, ""));
    let low = part_of(alloc, low)?;
    let high = part_of(alloc, high)?;
    let (first, below) = (low.at, low.bytes.len());
    let (second, above) = (high.at, high.bytes.len());
    let mut mem = memory(alloc, low, high)?;
    let (name, operands) = call.split_once(' ').unwrap_or((call, ""));
    let Some((at, value)) = operands.split_once(' ') else {
        return loaded(alloc, &mem, name, number_of(operands)?);
    };
    let done = store(&mut mem, name, number_of(at)?, hex_of(value)?)?;
    let mut text = String::from_str(alloc, if done { "done" } else { "outside" })?;
    put_bytes(&mut text, &mem, first, below)?;
    put_bytes(&mut text, &mem, second, above)?;
    Ok(text)
}

/// What stands at an address, in hexadecimal, or `none`.
fn loaded(alloc: Global, mem: &Memory, name: &str, at: u32) -> Result<String, Fault> {
    let found = match name.as_bytes() {
        b"one" => mem.get(at).map(u32::from),
        b"two" => mem.get_two(at).map(u32::from),
        b"four" => mem.get_four(at),
        _ => return Err(Fault::BadLine),
    };
    match found {
        Some(number) => Ok(format!(in alloc; "{number:x}")?),
        None => Ok(String::from_str(alloc, "none")?),
    }
}

/// Stores a number at an address, and says whether the memory has its bytes.
fn store(mem: &mut Memory, name: &str, at: u32, value: u32) -> Result<bool, Fault> {
    match name.as_bytes() {
        b"put1" => Ok(mem.set(at, (value & 0xff) as u8)),
        b"put2" => Ok(mem.set_two(at, (value & 0xffff) as u16)),
        b"put4" => Ok(mem.set_four(at, value)),
        _ => Err(Fault::BadLine),
    }
}
