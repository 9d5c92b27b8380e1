//! The words that every crate of the compiler speaks: lists, texts and boxes that contracts see as what
//! they hold, names, numbers, places, arguments, and the refusals that a user is told. `specs/Answers.antt` has the
//! words in which each exact contract is said.
#![tactic(auto)]

mod arg;
mod boxed;
mod fail;
mod line;
mod list;
mod name;
mod no_memory;
mod number;
mod refusal;
mod text;
mod word;

pub use arg::{Arg, Args, Kind, Place, Results};
pub use boxed::Box;
pub use fail::Fail;
pub use line::refusal_line;
pub use list::List;
pub use name::Name;
pub use no_memory::NoMemory;
pub use number::{hex_digit, number_of, numeral};
pub use refusal::{ArgFault, Goal, Limit, Refusal, TextWhy, TypePlace, TypeWhy};
pub use text::Text;
pub use word::{high_product, shift_signed, signed_less};

#[cfg(test)]
mod tests;
