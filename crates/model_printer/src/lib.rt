//! Models and expressions to their canonical spelling, which is read back as the same model.
//!
//! `specs/Printing.antt` has the form of each part of a model; the text is the form, printed.
#![tactic(auto)]

mod expression_forms;
mod fact_forms;
mod forms;
mod model_forms;
mod printer;
mod round_trip;
mod statement_forms;

pub use printer::{print_expr, print_model};
pub use round_trip::printed_model_is_read;
