//! Operands as bytes, and answers as text.
ghost use Rattle.std.specs.Prelude.{◌≤◌, ◌^◌, length, IfOk};

use crate::fault::Fault;
use crate::parts::escaped;
use crate::written::bytes_written;
use rup_base::{Fail, Refusal, Text, refusal_line};
use std::alloc::Global;

/// The most bytes of an operand, which is the most that a reader takes.
const MOST: usize = 1 << 24;

/// The bytes of an operand, as `bytes_written` reads it.
pub fn operand(alloc: Global, text: &str) -> Result<Text, Fault>
    ensures { IfOk result (λ bytes. length bytes ≤ 2 ^ 24) }
{
    let bytes = bytes_written(alloc, text)?;
    if bytes.len() > MOST {
        return Err(Fault::BadLine);
    }
    Ok(bytes)
}

/// Bytes as an answer, without a line feed at their end.
pub fn shown(alloc: Global, bytes: &[u8]) -> Result<String, Fault> {
    let bytes = bytes.strip_suffix(b"\n").unwrap_or(bytes);
    Ok(escaped(alloc, bytes)?)
}

/// A refusal as an answer: its line.
pub fn refused(alloc: Global, fail: &Fail) -> Result<String, Fault> {
    let refusal = refusal_of(fail)?;
    let line = refusal_line(alloc, refusal)?;
    shown(alloc, line.as_slice())
}

/// A refusal as an answer: its sentence.
pub fn told(alloc: Global, fail: &Fail) -> Result<String, Fault> {
    let refusal = refusal_of(fail)?;
    Ok(format!(in alloc; "{refusal}")?)
}

fn refusal_of(fail: &Fail) -> Result<&Refusal, Fault> {
    match fail {
        Fail::Refused(refusal) => Ok(refusal),
        Fail::NoMemory => Err(Fault::NoMemory),
    }
}
