//! The commands, a module each.
pub mod bench;
pub mod code;
pub mod compile;
pub mod derivations;
pub mod eval;
pub mod replay;
pub mod run;
pub mod show;
