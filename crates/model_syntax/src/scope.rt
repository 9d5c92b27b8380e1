//! What a name in scope is, and what it has: the words in which types and value are defined.
use crate::expr::Scalar;
use crate::program::Len;
use rup_base::{Arg, List, Name};

/// The type of a name. An array has the type of its elements and a length.
#[derive(Debug, Drop)]
pub enum NameType {
    Scalar(Scalar),
    Array(Scalar, Len),
}

/// A name in scope, with its type.
#[derive(Debug, Drop)]
pub struct Entry {
    pub name: Name,
    pub shape: NameType,
}

/// A name with its value. A byte or a flag is the word of its number.
#[derive(Debug, Drop)]
pub struct Binding {
    pub name: Name,
    pub value: Arg,
}

/// A name with a factor that is not 0.
#[derive(Debug, Drop)]
pub struct Term {
    pub name: Name,
    pub factor: u64,
}

/// A side of a requirement as a linear form: each name stands once.
#[derive(Debug, Drop)]
pub struct Linear {
    pub constant: u64,
    pub terms: List<Term>,
}
