// The memory of the machine: bytes by their addresses, in pages. Contracts see a finite map, and nothing of the
// pages (RISC-V Unprivileged ISA 20191213, section 1.4).
#![tactic(auto)]

mod byte_map;
mod cutting;
mod numbers;
mod page;

pub use byte_map::Memory;

#[cfg(test)]
mod tests;
