//! Three-address code as RV32IM instructions over a stack frame. `specs/Code.antt` and `specs/Whole.antt` say which
//! instructions, `specs/Ready.antt` from which states they may be called, and `specs/Returns.antt` what they do then.
#![tactic(auto)]

mod emission;
mod frame;
mod instructions;
mod statements;
mod tables;

pub use emission::{Emitted, emit};

#[cfg(test)]
mod tests;
