//! Instruction words both ways, and their fields.
use crate::fields::fields_of;
use crate::mnemonic::instruction_of;
use crate::parts::signed_of;
use row_cases::Fault;
use rv_code::{Bits12, Imm12, Imm13, Imm20, Imm21, Reg, Shamt, decode, encode};
use std::alloc::Global;

/// The instruction of a word in hexadecimal: its mnemonic and its fields, or `none`.
pub fn decoded(alloc: Global, digits: &str) -> Result<String, Fault> {
    let Ok(word) = u32::from_str_radix(digits, 16) else {
        return Err(Fault::BadLine);
    };
    let Some(instruction) = decode(word) else {
        return Ok(String::from_str(alloc, "none")?);
    };
    let shown = fields_of(instruction);
    let mut text = String::from_str(alloc, shown.name)?;
    for operand in shown.operands.into_iter().flatten() {
        write!(text, " {operand}")?;
    }
    Ok(text)
}

/// The word of an instruction, which is given as `decoded` shows it.
pub fn encoded(alloc: Global, line: &str) -> Result<String, Fault> {
    let mut words = line.split(' ');
    let name = words.next().unwrap_or("");
    let mut operands = [0i32; 3];
    let mut count = 0;
    for word in words {
        if count >= 3 {
            return Err(Fault::BadLine);
        }
        operands[count] = signed_of(word)?;
        count += 1;
    }
    match instruction_of(name, operands) {
        Some(instruction) => word_text(alloc, encode(instruction)),
        None => Err(Fault::BadLine),
    }
}

fn word_text(alloc: Global, word: u32) -> Result<String, Fault> {
    Ok(format!(in alloc; "{word:08x}")?)
}

/// A number as a field of a kind: the number, or `none` out of its range.
pub fn field(alloc: Global, line: &str) -> Result<String, Fault> {
    let (kind, number) = line.split_once(' ').unwrap_or((line, ""));
    let number = signed_of(number)?;
    let found = match kind.as_bytes() {
        b"reg" => Reg::new(number).map(|field| field.get()),
        b"shamt" => Shamt::new(number).map(|field| field.get()),
        b"imm12" => Imm12::new(number).map(|field| field.get()),
        b"imm13" => Imm13::new(number).map(|field| field.get()),
        b"imm20" => Imm20::new(number).map(|field| field.get()),
        b"imm21" => Imm21::new(number).map(|field| field.get()),
        b"bits12" => Bits12::new(number).map(|field| field.get()),
        _ => return Err(Fault::BadLine),
    };
    number_text(alloc, found)
}

fn number_text(alloc: Global, number: Option<i32>) -> Result<String, Fault> {
    match number {
        Some(number) => Ok(format!(in alloc; "{number}")?),
        None => Ok(String::from_str(alloc, "none")?),
    }
}
