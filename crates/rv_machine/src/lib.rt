// The machine by which every image is judged: a state of thirty-two registers, a program counter and a memory, and
// one step of it, as the RISC-V Unprivileged ISA manual 20191213 states RV32I and the M extension.
// The definitions stand in specs/: `State`, the fields of an instruction word, `step` and `after`.
#![tactic(auto)]

mod access;
mod arithmetic;
mod cause;
mod machine;
mod running;

pub use cause::Cause;
pub use machine::Machine;
pub use running::{End, steps_keep_machines};

#[cfg(test)]
mod tests;
