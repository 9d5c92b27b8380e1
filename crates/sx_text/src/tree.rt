//! Forms.
use rup_base::{List, Place, Text};

/// A form and its place in the text that it was read from.
#[derive(Debug, Drop)]
pub enum Sx {
    /// An atom: its bytes, at least one.
    Atom(Place, Text),
    /// A list: the place from its `(` to behind its `)`, and the forms inside.
    Kids(Place, List<Sx>),
}

/// The forms of a text, in order.
pub type Forms = List<Sx>;
