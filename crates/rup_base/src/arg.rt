//! Arguments and results of a model or an image, and the kinds of parameters.
use crate::list::List;
use crate::text::Text;

/// A range of bytes of a text, from `start` up to and without `end`.
#[derive(Clone, Copy, Debug, PartialEq, Eq)]
pub struct Place {
    pub start: u32,
    pub end: u32,
}

/// What a parameter takes. An array of fixed length has its number of elements.
#[derive(Clone, Copy, Debug, PartialEq, Eq)]
pub enum Kind {
    Word,
    Byte,
    Bytes(Option<u32>),
    Words(Option<u32>),
}

/// An argument or a result. A byte or a flag is the word of its number.
#[derive(Debug, Drop)]
pub enum Arg {
    Word(u32),
    Bytes(Text),
    Words(List<u32>),
}

/// The arguments of a call, one for each parameter and in the order of them.
pub type Args = List<Arg>;

/// The results of a call, in the order of the model.
pub type Results = List<Arg>;
