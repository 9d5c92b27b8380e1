//! Emitted code on the machine: a command is flattened, given places, emitted and called.
ghost use Rattle.std.specs.Prelude.{◌+◌, ◌≤◌, IfOk};
ghost use Rattle.bed_syntax.specs.Shape.{cmd_size};
ghost use Rattle.bed_syntax.specs.Weight.{cmd_weight};
ghost use Rattle.flat_lang.specs.Count.{code_weight};
ghost use Rattle.flat_lang.specs.Whole.{IsWhole};

use crate::bytes::put_bytes;
use crate::command::command_of;
use bed_syntax::{Cmd, Weights};
use flat_lang::Flat;
use flatten::flatten;
use reg_alloc::{At, Plan, allocate, check_plan};
use row_cases::{Fault, bytes_of, number_of};
use rup_base::{List, Text};
use rv_code::{Instr, encode};
use rv_emit::{Emitted, emit};
use rv_machine::{End, Machine};
use rv_memory::Memory;
use std::alloc::Global;

/// Where the code and its tables, the stack and the bytes of a row stand, and where a call returns to.
const CODE: u32 = 0x1_0000;

const STACK: u32 = 0x10_0000;

const HELD: u32 = 0x20_0000;

const RETURN: u32 = 0x100;

/// The most steps of a call.
const STEPS: u64 = 1_000_000;

/// What a command is called with: its arguments, the locals that it returns, and the bytes at `HELD`.
#[derive(Drop)]
struct Call {
    args: List<u32>,
    rets: List<u32>,
    held: Text,
}

/// A call from words: numbers are arguments, `vN` a returned local, `mem=BYTES` the bytes.
fn call_of(alloc: Global, line: &str) -> Result<Call, Fault> {
    let mut call = Call {
        args: List::new(alloc),
        rets: List::new(alloc),
        held: Text::new(alloc),
    };
    for word in line.split(' ') {
        if let Some(local) = word.strip_prefix("v") {
            call.rets.push(number_of(local)?)?;
        } else if let Some(digits) = word.strip_prefix("mem=") {
            call.held = bytes_of(alloc, digits)?;
        } else {
            call.args.push(number_of(word)?)?;
        }
    }
    Ok(call)
}

/// Calls the code of a command, as `v2 7 8; (set v2 (add v0 v1))`: the results, and the bytes then.
pub fn called(alloc: Global, line: &str) -> Result<String, Fault> {
    let (line, text) = line.split_once("; ").unwrap_or((line, ""));
    let call = call_of(alloc, line)?;
    let emitted = emitted_of(alloc, text, call.args.len(), call.rets.as_slice())?;
    results(alloc, &emitted, call)
}

/// The code of the command of a text.
fn emitted_of(alloc: Global, text: &str, args: usize, rets: &[u32]) -> Result<Emitted, Fault> {
    let command = command_of(alloc, text)?;
    code_of(alloc, &command, args, rets)
}

/// The results of a call, and the bytes then.
fn results(alloc: Global, emitted: &Emitted, call: Call) -> Result<String, Fault> {
    let (count, held) = (call.rets.len(), call.held.len());
    let mut machine = machine(alloc, emitted, call)?;
    let End::Returned { .. } = machine.run(RETURN, STEPS) else {
        return Ok(String::from_str(alloc, "not returned")?);
    };
    results_text(alloc, &machine, count, held)
}

/// So many results from a0 on, and so many bytes.
fn results_text(
    alloc: Global,
    machine: &Machine,
    count: usize,
    held: usize,
) -> Result<String, Fault> {
    let mut text = String::from_str(alloc, "returned")?;
    for register in machine.regs.iter().skip(10).take(count) {
        write!(text, " {register}")?;
    }
    if held != 0 {
        put_bytes(&mut text, &machine.mem, HELD, held)?;
    }
    Ok(text)
}

/// The three-address code of a command with so many arguments.
fn flat_of(alloc: Global, command: &Cmd, args: usize, rets: &[u32]) -> Result<Flat, Fault>
    requires { cmd_size command.now + cmd_weight Weights.LARGE command.now ≤ 200000 }
    ensures whole { IfOk result (λ f. IsWhole f) }
    ensures few { IfOk result (λ f. f.vars ≤ 400) }
    ensures light { IfOk result (λ f. code_weight Weights.LARGE f.body ≤ 250000) }
{
    if args > 8 || rets.len() > 2 {
        return Err(Fault::BadLine);
    }
    let flat = flatten(alloc, command, args as u32, rets)?;
    if flat.vars > 400 {
        return Err(Fault::BadLine);
    }
    Ok(flat)
}

/// The code of a command with so many arguments.
fn code_of(alloc: Global, command: &Cmd, args: usize, rets: &[u32]) -> Result<Emitted, Fault>
    requires { cmd_size command.now + cmd_weight Weights.LARGE command.now ≤ 200000 }
{
    let flat = flat_of(alloc, command, args, rets)?;
    let plan = allocate(alloc, &flat)?;
    Ok(emit(alloc, &flat, &plan)?)
}

/// Whether the code of a command has fewer instructions with allocated places than with slots alone.
pub fn compared(alloc: Global, line: &str) -> Result<String, Fault> {
    let (line, text) = line.split_once("; ").unwrap_or((line, ""));
    let command = command_of(alloc, text)?;
    let call = call_of(alloc, line)?;
    let flat = flat_of(alloc, &command, call.args.len(), call.rets.as_slice())?;
    let plan = allocate(alloc, &flat)?;
    let allocated = emit(alloc, &flat, &plan)?.code.len();
    let plan = slots(alloc, flat.vars)?;
    if !check_plan(alloc, &flat, &plan)? {
        return Err(Fault::BadLine);
    }
    let alone = emit(alloc, &flat, &plan)?.code.len();
    let answer = if allocated < alone {
        "fewer"
    } else {
        "no fewer"
    };
    Ok(String::from_str(alloc, answer)?)
}

/// Each of so many variables in the slot of its own number.
fn slots(alloc: Global, vars: u32) -> Result<Plan, Fault> {
    let mut places = List::new(alloc);
    for x in 0..vars {
        places.push(At::Slot(x))?;
    }
    Ok(Plan { places })
}

/// The bytes of instructions.
fn code_bytes(alloc: Global, code: &[Instr]) -> Result<Text, Fault> {
    let mut bytes = Text::new(alloc);
    for instruction in code {
        bytes.extend_from_slice(&encode(*instruction).to_le_bytes())?;
    }
    Ok(bytes)
}

/// So many zeros.
fn zeros(alloc: Global, count: u32) -> Result<Text, Fault> {
    let mut bytes = Text::new(alloc);
    for _ in 0..count {
        bytes.push(0)?;
    }
    Ok(bytes)
}

/// The machine at the entry of the code.
fn machine(alloc: Global, emitted: &Emitted, call: Call) -> Result<Machine, Fault> {
    let Call { args, held, .. } = call;
    let mut regs = [0; 32];
    regs[1] = RETURN;
    regs[2] = STACK.wrapping_add(emitted.stack);
    for (j, argument) in args.as_slice().iter().enumerate() {
        if j >= 8 {
            return Err(Fault::BadLine);
        }
        regs[10 + j] = *argument;
    }
    let mem = memory(alloc, emitted, held)?;
    Ok(Machine {
        regs,
        pc: CODE,
        mem,
    })
}

/// The code and its tables, the stack and the bytes, each at its place.
fn memory(alloc: Global, emitted: &Emitted, held: Text) -> Result<Memory, Fault> {
    let mut image = code_bytes(alloc, emitted.code.as_slice())?;
    image.extend_from_slice(emitted.tables.as_slice())?;
    let stack = zeros(alloc, emitted.stack)?;
    if image.len() > 0xe_0000 || stack.len() > 0x1000 || held.len() > 0x1000 {
        return Err(Fault::BadLine);
    }
    let mut regions = List::new(alloc);
    regions.push((CODE, image))?;
    regions.push((STACK, stack))?;
    regions.push((HELD, held))?;
    Ok(Memory::new(alloc, regions)?)
}
