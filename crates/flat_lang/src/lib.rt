//! Three-address code over numbered variables, with conditionals and loops that hold their statements.
//! `specs/Meaning.antt` says what it does, `specs/Count.antt` what it weighs and names, `specs/Whole.antt` which
//! code is whole.
#![tactic(auto)]

mod flat;

pub use flat::{FStmt, Flat};
