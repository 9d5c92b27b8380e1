//! Commands: their text, their operations, and their runs.
ghost use Rattle.std.specs.Prelude.{◌<◌, ◌^◌};
ghost use Rattle.bed_syntax.specs.Shape.{cmd_size};

use crate::bytes::put_bytes;
use crate::command::{command_of, operation_of};
use bed_meaning::{BEnd, BMem, Locals, exec};
use bed_syntax::{Cmd, print_cmd};
use row_cases::{Fault, bytes_of, escaped, number_of};
use rup_base::{List, Text};
use std::alloc::Global;

/// How many locals a run has.
const LOCALS: u32 = 16;

/// The text of a command.
pub fn printed(alloc: Global, text: &str) -> Result<String, Fault> {
    let command = command_of(alloc, text)?;
    text_of(alloc, &command)
}

/// A command as it is printed.
fn text_of(alloc: Global, command: &Cmd) -> Result<String, Fault> {
    let printed = print_cmd(alloc, command)?;
    Ok(escaped(alloc, printed.as_slice())?)
}

/// The result of an operation, as `add 4294967295 1`.
pub fn applied(alloc: Global, line: &str) -> Result<String, Fault> {
    let (name, operands) = line.split_once(' ').unwrap_or((line, ""));
    let (a, b) = operands.split_once(' ').unwrap_or((operands, ""));
    let Some(op) = operation_of(name) else {
        return Err(Fault::BadLine);
    };
    let result = op.apply(number_of(a)?, number_of(b)?);
    Ok(format!(in alloc; "{result}")?)
}

/// What a run begins with: its fuel, the locals that are set, and one region of memory.
#[derive(Drop)]
struct Start {
    fuel: u64,
    locals: Locals,
    at: u32,
    bytes: Text,
}

/// The start of a run from words: the fuel, and `vN=NUMBER` or `ADDRESS=BYTES`.
fn start_of(alloc: Global, line: &str) -> Result<Start, Fault> {
    let mut start = Start {
        fuel: 0,
        locals: Locals::new(alloc, LOCALS)?,
        at: 0,
        bytes: Text::new(alloc),
    };
    for word in line.split(' ') {
        let Some((key, value)) = word.split_once('=') else {
            start.fuel = u64::from(number_of(word)?);
            continue;
        };
        match key.strip_prefix("v") {
            Some(local) => {
                start.locals.set(number_of(local)?, number_of(value)?);
            }
            None => {
                start.at = number_of(key)?;
                start.bytes = bytes_of(alloc, value)?;
            }
        }
    }
    Ok(start)
}

/// Runs a command, as `2 v0=7 8=01020304; (seq (set v1 (load1 8)))`: how it ends, and the locals and bytes then.
pub fn executed(alloc: Global, line: &str) -> Result<String, Fault> {
    let (line, text) = line.split_once("; ").unwrap_or((line, ""));
    let start = start_of(alloc, line)?;
    ended(alloc, text, start)
}

/// Runs the command of a text.
fn ended(alloc: Global, text: &str, start: Start) -> Result<String, Fault> {
    let command = command_of(alloc, text)?;
    end(alloc, &command, start)
}

/// The end of a run.
fn end(alloc: Global, command: &Cmd, start: Start) -> Result<String, Fault>
    requires { cmd_size command.now < 2 ^ 32 }
{
    let Start {
        fuel,
        mut locals,
        at,
        bytes,
    } = start;
    let count = bytes.len();
    let mut mem = memory(alloc, at, bytes)?;
    match exec(fuel, command, &mut mem, &mut locals) {
        BEnd::Stuck => Ok(String::from_str(alloc, "stuck")?),
        BEnd::OutOfFuel => Ok(String::from_str(alloc, "out of fuel")?),
        BEnd::Done { ticks } => {
            let mut text = ticks_text(alloc, ticks)?;
            put_locals(&mut text, &locals)?;
            if count != 0 {
                put_bytes(&mut text, &mem, at, count)?;
            }
            Ok(text)
        }
    }
}

fn ticks_text(alloc: Global, ticks: u128) -> Result<String, Fault> {
    Ok(format!(in alloc; "done {ticks}")?)
}

/// The memory of one region.
fn memory(alloc: Global, at: u32, bytes: Text) -> Result<BMem, Fault> {
    if bytes.len() as u64 > 4_294_967_296 - u64::from(at) {
        return Err(Fault::BadLine);
    }
    let mut regions = List::new(alloc);
    regions.push((at, bytes))?;
    Ok(BMem::new(alloc, regions)?)
}

/// Puts the locals that are set behind a text.
fn put_locals(text: &mut String, locals: &Locals) -> Result<(), Fault> {
    for local in 0..LOCALS {
        if let Some(value) = locals.get(local) {
            write!(text, " v{local}={value}")?;
        }
    }
    Ok(())
}
