//! Steps and runs of the machine, over the words of a row and one byte at the last address.
use crate::registers::{BASE, Start, start_of};
use row_cases::Fault;
use rup_base::{List, Text};
use rv_machine::{End, Machine};
use rv_memory::Memory;
use std::alloc::Global;

/// The most bytes that the words may have.
const MOST: usize = 1024;

/// The machine of a start.
fn machine(alloc: Global, start: Start) -> Result<Machine, Fault> {
    let Start { code, regs, pc, .. } = start;
    if code.len() > MOST {
        return Err(Fault::BadLine);
    }
    let mut regions = List::new(alloc);
    regions.push((BASE, code))?;
    regions.push((0xffff_ffff, Text::from_slice(alloc, &[0x85])?))?;
    let mem = Memory::new(alloc, regions)?;
    Ok(Machine { regs, pc, mem })
}

/// One step: the registers that changed, the program counter and the bytes that changed, or the cause of a trap.
pub fn stepped(alloc: Global, line: &str) -> Result<String, Fault> {
    let start = start_of(alloc, line)?;
    let regs = start.regs;
    let before = Text::from_slice(alloc, start.code.as_slice())?;
    let mut machine = machine(alloc, start)?;
    if let Err(cause) = machine.step() {
        return Ok(format!(in alloc; "{cause}")?);
    }
    let mut text = String::new(alloc);
    put_registers(&mut text, &regs, &machine)?;
    write!(text, "pc={:x}", machine.pc)?;
    put_changes(&mut text, before.as_slice(), &machine)?;
    Ok(text)
}

/// Puts the registers that have another number than before behind a text.
fn put_registers(text: &mut String, before: &[u32; 32], machine: &Machine) -> Result<(), Fault> {
    for register in 0..32 {
        let now = machine.regs[register];
        if now != before[register] {
            write!(text, "x{register}={now:x} ")?;
        }
    }
    Ok(())
}

/// Puts the bytes of the words that are others than before behind a text.
fn put_changes(text: &mut String, before: &[u8], machine: &Machine) -> Result<(), Fault> {
    let mut at = BASE;
    for byte in before {
        if let Some(now) = machine.mem.get(at) {
            if now != *byte {
                write!(text, " {at:x}={now:02x}")?;
            }
        }
        at = at.wrapping_add(1);
    }
    Ok(())
}

/// A run: how it ends.
pub fn run(alloc: Global, line: &str) -> Result<String, Fault> {
    let start = start_of(alloc, line)?;
    let (stop, budget) = (start.stop, start.budget);
    let mut machine = machine(alloc, start)?;
    end_text(alloc, machine.run(stop, budget))
}

/// An end in words, an address in hexadecimal.
fn end_text(alloc: Global, end: End) -> Result<String, Fault> {
    Ok(match end {
        End::Returned { steps } => format!(in alloc; "returned {steps}")?,
        End::OutOfSteps { steps } => format!(in alloc; "out of steps {steps}")?,
        End::Trapped { cause, pc, steps } => format!(in alloc;
            "trapped {cause} at {pc:x} after {steps}"
        )?,
    })
}
