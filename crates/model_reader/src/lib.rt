//! The text of models: bytes to a model exactly where they are a text of one.
//!
//! The grammar stands in `specs/`: each rule is the list of its parts, in the order of the text. The
//! reader follows it part by part, and the first part that is refused says where the text is no model.
#![tactic(auto)]

mod expressions;
mod facts;
mod models;
mod names;
mod numbers;
mod parts;
mod reader;
mod statements;
mod words;

pub use expressions::read_expr;
pub use facts::{facts_of, read_fact};
pub use names::{read_element, read_name, read_names};
pub use numbers::read_number;
pub use parts::{
    Misread, behind, end, form_at, headed, kids_of, known, missing, place_of, text_of, wrong,
};
pub use reader::{form_is_of_formed_term, read_model, text_is_of_formed_model};
