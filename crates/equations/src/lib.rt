//! Equations between expressions. A `Book` rewrites the root of an expression by a numbered step and keeps its type and
//! its value; `WordBook` has eighteen equations of words.
#![tactic(auto)]

mod book;
mod sides;
mod word_book;

pub use book::Book;
pub use word_book::WordBook;

#[cfg(test)]
mod tests;
