//! Models and their parameters and results.
use crate::stmt::{Le, Stmt};
use rup_base::{List, Name};

/// The length of an array: a number of elements, or the name that has it.
#[derive(Debug, Drop)]
pub enum Len {
    Fixed(u32),
    Named(Name),
}

/// A parameter.
#[derive(Debug, Drop)]
pub enum Param {
    Word(Name),
    Byte(Name),
    /// An array of bytes.
    Bytes(Name, Len),
    /// An array of words.
    Words(Name, Len),
}

/// A result.
#[derive(Debug, Drop)]
pub enum Ret {
    Scalar(Name),
    /// `(a in P)`: the array `a`, which stands where the parameter `P` was.
    Array(Name, Name),
}

/// A model: `(model NAME (params P*) (require C*) (do S*) (ret R*))`.
#[derive(Debug, Drop)]
pub struct Model {
    pub name: Name,
    pub params: List<Param>,
    /// What the arguments must meet. (`requires` is a word of the language that this is written in.)
    pub requires_: List<Le>,
    pub body: List<Stmt>,
    pub rets: List<Ret>,
}
