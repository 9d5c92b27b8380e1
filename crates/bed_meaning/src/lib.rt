//! The meaning of Bedrock2 commands: how a command runs on a memory and numbered locals, with fuel that is
//! counted down and ticks that are counted up. `specs/Meaning.antt` defines it; `exec` runs it.
#![tactic(auto)]

mod access;
mod evaluation;
mod execution;
mod halt;
pub mod laws;
mod locals;

pub use execution::{BEnd, exec};
pub use halt::{Halt, Meter};
pub use laws::more_fuel_keeps;
pub use locals::Locals;
pub use rv_memory::Memory as BMem;

#[cfg(test)]
mod tests;
