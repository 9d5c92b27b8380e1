//! What a state of the machine begins with, as a row gives it.
use crate::parts::hex_of;
use row_cases::{Fault, number_of};
use rup_base::Text;
use std::alloc::Global;

/// Where the words of a row stand.
pub const BASE: u32 = 0x1000;

/// The words, the registers and the program counter, and for a run where it stops and how many steps it may take.
#[derive(Drop)]
pub struct Start {
    pub code: Text,
    pub regs: [u32; 32],
    pub pc: u32,
    pub stop: u32,
    pub budget: u64,
}

/// The start from a line such as `02c5c533 x11=7 pc=1000 stop=2000 budget=7`: the budget in decimal, and all else in
/// hexadecimal.
pub fn start_of(alloc: Global, line: &str) -> Result<Start, Fault> {
    let mut start = Start {
        code: Text::new(alloc),
        regs: [0; 32],
        pc: BASE,
        stop: 0,
        budget: 0,
    };
    for word in line.split(' ') {
        match word.split_once('=') {
            None => start.code.extend_from_slice(&hex_of(word)?.to_le_bytes())?,
            Some((key, value)) => set(&mut start, key, value)?,
        }
    }
    Ok(start)
}

/// Gives one part of a start its value.
fn set(start: &mut Start, key: &str, value: &str) -> Result<(), Fault> {
    match key.as_bytes() {
        b"pc" => start.pc = hex_of(value)?,
        b"stop" => start.stop = hex_of(value)?,
        b"budget" => start.budget = u64::from(number_of(value)?),
        _ => {
            let register = number_of(key.strip_prefix("x").unwrap_or("none"))? as usize;
            if register >= 32 {
                return Err(Fault::BadLine);
            }
            start.regs[register] = hex_of(value)?;
        }
    }
    Ok(())
}
