//! Commands to three-address code. `specs/Code.antt` says which code, and `specs/Keeps.antt` what it keeps.
#![tactic(auto)]

mod flattening;
mod names;

pub use flattening::flatten;

#[cfg(test)]
mod tests;
