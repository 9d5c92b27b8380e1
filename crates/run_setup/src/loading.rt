//! The state that a run starts from.
ghost use Rattle.std.specs.Prelude.{◌≡◌, ℕ, ◌≤◌, ◌<◌, ◌+◌, ◌*◌, ◌^◌, ◌++◌, Ok, Some, length, replicate, slice_index_or, OnOk};
ghost use Rattle.std.specs.Prelude.{IfOk};
ghost use Rattle.std.specs.List.{AllByRecursion};
ghost use Rattle.std.specs.FinMap.{get};
ghost use Rattle.rv_machine.specs.View.{state_of};
ghost use Rattle.rv_machine.specs.Machines.{IsMachine};
ghost use Rattle.image_layout.specs.Spelling.{IsWithinLimits, spelling};
ghost use Rattle.rv_memory.specs.Bytes.{bytes_of};
ghost use Rattle.run_setup.specs.Arguments.{bytes_of_words, array_limit};
ghost use Rattle.run_setup.specs.Judging.{judged, size_of, total_size};
ghost use Rattle.run_setup.specs.Loading as spec;

use crate::judging::{judge, put_length};
use image_layout::{Image, write_image};
use rup_base::{Arg, Args, Fail, Kind, List, NoMemory, Text};
use rv_machine::Machine;
use rv_memory::Memory;
use std::alloc::Global;

/// The address of the image.
pub const BASE: u32 = 0x1_0000;

/// The address to which the image returns, which is none of the memory's.
pub const RETURN_ADDRESS: u32 = 0x1000;

/// The state from which `run` calls an image with arguments. The image stands at 0x00010000, then the arrays in order,
/// each at the next multiple of 16, then the stack bytes, which are zeros, from the next multiple of 16. sp is their
/// end, ra is 0x00001000, a0 on hold the arguments, pc is the entry, and all other registers are 0.
///
/// The refusals, in this order: `count`, `param K`, that the arrays have more than 67,108,864 bytes in sum, and
/// `require K`.
pub fn load(alloc: Global, i: &Image, args: &Args) -> Result<Machine, Fail>
    requires { IsWithinLimits i.now }
    ensures state { spec.AnswersState result (spec.loaded i.now args.now) }
    ensures judged { OnOk result (judged i.now args.now ≡ Ok tt) }
    ensures starts { IfOk result (λ m. state_of m ≡ spec.start_state i.now args.now) }
    ensures small { OnOk result (total_size args.now ≤ array_limit) }
    ensures machine { IfOk result (λ m. IsMachine (state_of m)) }
{
    let arguments = args.as_slice();
    judge(alloc, i, arguments)?;
    Ok(start(alloc, i, arguments)?)
}

/// The state, where the image may be called with the arguments.
fn start(alloc: Global, i: &Image, args: &[Arg]) -> Result<Machine, NoMemory>
    requires limits { IsWithinLimits i.now }
    requires few { length args.now ≤ 8 }
    requires small { total_size args.now ≤ array_limit }
    ensures regs { IfOk result (λ m. m.regs ≡ spec.registers i.now args.now) }
    ensures pc { IfOk result (λ m. m.pc ≡ spec.base + i.now.entry) }
    ensures mem { IfOk result (λ m. m.mem ≡ bytes_of (spec.regions i.now args.now)) }
    ensures machine { IfOk result (λ m. IsMachine (state_of m)) }
{
    let image = image_bytes(alloc, i)?;
    let image_end = BASE + image.len() as u32;
    let regs = registers(alloc, i, args, image_end)?;
    let mem = memory(alloc, i, args, image)?;
    let pc = place_of_entry(i);
    are_words(&regs);
    Ok(Machine { regs, pc, mem })
}

/// The numbers are words, by their type.
fn are_words(words: &[u32])
    ensures { (k : ℕ) → slice_index_or words.now k 0 < 2 ^ 32 }
{
    let _ = words;
}

/// The numbers are bytes, by their type.
fn are_bytes(bytes: &[u8])
    ensures { spec.AreBytes bytes.now }
{
    let _ = bytes;
}

/// The regions hold bytes, by their type.
fn hold_bytes(regions: &[(u32, Text)])
    ensures { AllByRecursion (λ r. spec.AreBytes r.1) regions.now }
{
    let mut left = regions;
    'each: while let [first, rest @ ..] = left {
        are_bytes(first.1.as_slice());
        left = rest;
    }
}

/// The entry is an offset inside the image.
fn place_of_entry(i: &Image) -> u32
    requires { IsWithinLimits i.now }
    ensures { result ≡ spec.base + i.now.entry }
{
    BASE + i.entry
}

/// The bytes of the image, of which there are at most 1,600,000.
fn image_bytes(alloc: Global, i: &Image) -> Result<Text, NoMemory>
    requires { IsWithinLimits i.now }
    ensures bytes { IfOk result (λ bytes. bytes ≡ spelling i.now) }
    ensures small { IfOk result (λ bytes. length bytes ≤ 1600000) }
{
    let bytes = write_image(alloc, i)?;
    Ok(bytes)
}

/// The next address at which an array or the stack may begin.
pub fn aligned(address: u32) -> u32
    requires { address ≤ 2 ^ 29 }
    ensures { result ≡ spec.aligned address }
{
    address.next_multiple_of(16)
}

/// The end of everything with an argument behind it.
fn end_after(end: u32, arg: &Arg) -> u32
    requires { end + size_of arg.now ≤ 2 ^ 28 }
    ensures end { result ≡ spec.end_after end arg.now }
    ensures near { result ≤ end + 15 + size_of arg.now }
{
    match arg {
        Arg::Word(_) => end,
        Arg::Bytes(bytes) => aligned(end) + bytes.len() as u32,
        Arg::Words(words) => aligned(end) + 4 * words.len() as u32,
    }
}

/// The end of the arrays.
pub fn end_of(end: u32, args: &[Arg]) -> u32
    requires { end + 16 * length args.now + total_size args.now ≤ 2 ^ 28 }
    ensures end { result ≡ spec.end_of end args.now }
    ensures near { result ≤ end + 16 * length args.now + total_size args.now }
{
    let mut end = end;
    let mut left = args;
    'each: while let [first, rest @ ..] = left {
        end = end_after(end, first);
        left = rest;
    }
    end
}

/// The registers that the run starts with.
#[tactic(auto, unfolding(crate::specs::Loading::registers))]
fn registers(alloc: Global, i: &Image, args: &[Arg], image_end: u32) -> Result<[u32; 32], NoMemory>
    requires limits { IsWithinLimits i.now }
    requires few { length args.now ≤ 8 }
    requires small { total_size args.now ≤ array_limit }
    requires end { image_end ≡ spec.image_end i.now }
    requires near { image_end ≤ 2000000 }
    ensures { IfOk result (λ regs. regs ≡ spec.registers i.now args.now) }
{
    let values = argument_values(alloc, image_end, i.params.as_slice(), args)?;
    let stack_start = aligned(end_of(image_end, args));
    let mut regs = [0; 32];
    regs[1] = RETURN_ADDRESS;
    regs[2] = stack_start + i.stack;
    set_from(&mut regs, values.as_slice());
    Ok(regs)
}

/// Puts values into the registers from a0 on.
fn set_from(regs: &mut [u32; 32], values: &[u32])
    requires { length values.now ≤ 22 }
    ensures { regs.new ≡ spec.set_from regs.old 10 values.now }
{
    let mut register: usize = 10;
    let mut left = values;
    'values: while let [first, rest @ ..] = left {
        regs[register] = *first;
        register += 1;
        left = rest;
    }
}

/// What the registers of an argument hold, where it comes behind everything that ends at an address.
fn put_values(values: &mut List<u32>, end: u32, kind: Kind, arg: &Arg) -> Result<(), NoMemory>
    requires { end + size_of arg.now ≤ 2 ^ 28 }
    ensures { OnOk result (values.new ≡ values.old ++ spec.registers_with end kind arg.now) }
{
    match arg {
        Arg::Word(n) => values.push(*n),
        Arg::Bytes(bytes) => {
            values.push(aligned(end))?;
            put_length(values, kind, bytes.len())
        }
        Arg::Words(words) => {
            values.push(aligned(end))?;
            put_length(values, kind, words.len())
        }
    }
}

/// What the argument registers hold, in order.
fn argument_values(
    alloc: Global,
    end: u32,
    kinds: &[Kind],
    args: &[Arg],
) -> Result<List<u32>, NoMemory>
    requires { end + 16 * length args.now + total_size args.now ≤ 2 ^ 28 }
    ensures { IfOk result (λ values. values ≡ spec.argument_values end kinds.now args.now) }
{
    let mut values = List::new(alloc);
    let mut end = end;
    let mut kinds_left = kinds;
    let mut args_left = args;
    'each: while let [arg, args_rest @ ..] = args_left {
        match kinds_left {
            [] => return Ok(values),
            [kind, kinds_rest @ ..] => {
                put_values(&mut values, end, *kind, arg)?;
                kinds_left = kinds_rest;
            }
        }
        end = end_after(end, arg);
        args_left = args_rest;
    }
    Ok(values)
}

/// The memory that the run starts with.
fn memory(alloc: Global, i: &Image, args: &[Arg], image: Text) -> Result<Memory, NoMemory>
    requires limits { IsWithinLimits i.now }
    requires few { length args.now ≤ 8 }
    requires small { total_size args.now ≤ array_limit }
    requires image { image ≡ spelling i.now }
    requires near { length image ≤ 1600000 }
    ensures mem { IfOk result (λ mem. mem ≡ bytes_of (spec.regions i.now args.now)) }
    ensures bytes { IfOk result (λ mem. (address b : ℕ) → get mem address ≡ Some b → b < 2 ^ 8) }
{
    let regions = regions(alloc, i, args, image)?;
    hold_bytes(regions.as_slice());
    Memory::new(alloc, regions)
}

/// The image, the arrays and the stack, each with its address.
#[tactic(auto, unfolding(crate::specs::Loading::regions))]
fn regions(
    alloc: Global,
    i: &Image,
    args: &[Arg],
    image: Text,
) -> Result<List<(u32, Text)>, NoMemory>
    requires limits { IsWithinLimits i.now }
    requires few { length args.now ≤ 8 }
    requires small { total_size args.now ≤ array_limit }
    requires image { image ≡ spelling i.now }
    requires near { length image ≤ 1600000 }
    ensures { IfOk result (λ regions. regions ≡ spec.regions i.now args.now) }
{
    let image_end = BASE + image.len() as u32;
    let stack_start = aligned(end_of(image_end, args));
    let mut regions = List::new(alloc);
    regions.push((BASE, image))?;
    put_arrays(alloc, &mut regions, image_end, args)?;
    let stack = zeros(alloc, i.stack)?;
    regions.push((stack_start, stack))?;
    Ok(regions)
}

fn put_array(
    alloc: Global,
    regions: &mut List<(u32, Text)>,
    end: u32,
    arg: &Arg,
) -> Result<(), NoMemory>
    requires { end + size_of arg.now ≤ 2 ^ 28 }
    ensures { OnOk result (regions.new ≡ regions.old ++ spec.array_region end arg.now) }
{
    match arg {
        Arg::Word(_) => Ok(()),
        Arg::Bytes(bytes) => {
            let copy = Text::from_slice(alloc, bytes.as_slice())?;
            regions.push((aligned(end), copy))
        }
        Arg::Words(words) => {
            let bytes = bytes_of_words(alloc, words.as_slice())?;
            regions.push((aligned(end), bytes))
        }
    }
}

fn put_arrays(
    alloc: Global,
    regions: &mut List<(u32, Text)>,
    end: u32,
    args: &[Arg],
) -> Result<(), NoMemory>
    requires { end + 16 * length args.now + total_size args.now ≤ 2 ^ 28 }
    ensures { OnOk result (regions.new ≡ regions.old ++ spec.array_regions end args.now) }
{
    let mut end = end;
    let mut left = args;
    'each: while let [first, rest @ ..] = left {
        put_array(alloc, regions, end, first)?;
        end = end_after(end, first);
        left = rest;
    }
    Ok(())
}

/// The bytes of words, each in little endian.
fn bytes_of_words(alloc: Global, words: &[u32]) -> Result<Text, NoMemory>
    ensures { IfOk result (λ bytes. bytes ≡ bytes_of_words words.now) }
{
    let mut bytes = Text::new(alloc);
    let mut left = words;
    'words: while let [first, rest @ ..] = left {
        bytes.extend_from_slice(&first.to_le_bytes())?;
        left = rest;
    }
    Ok(bytes)
}

fn zeros(alloc: Global, count: u32) -> Result<Text, NoMemory>
    ensures { IfOk result (λ bytes. bytes ≡ replicate count 0) }
{
    let mut bytes = Text::new(alloc);
    for _ in 0..count {
        bytes.push(0)?;
    }
    Ok(bytes)
}
