//! S-expressions: bytes to forms with their places, and forms to their canonical spelling. Model texts,
//! lemma files and derivations' expressions are written in them.
//!
//! Space, tab, line feed and carriage return separate forms. `;` begins a comment that ends before the
//! next line feed and may hold any byte. An atom is a longest run of bytes 0x21 to 0x7e other than `(`,
//! `)` and `;`. A list is `(`, forms, `)`.
#![tactic(auto)]

mod byte_class;
mod printer;
mod reader;
mod round_trip;
mod tree;

pub use printer::print_form;
pub use reader::read_forms;
pub use round_trip::printed_form_is_read;
pub use tree::{Forms, Sx};

#[cfg(test)]
mod tests;
