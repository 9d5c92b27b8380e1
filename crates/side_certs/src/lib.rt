//! Linear forms over symbols, of which the side conditions of a derivation are made, their exact sum, difference
//! and multiples, and the certificates by which a form is at least 0. A form stands inside itself, and no call takes
//! memory.
#![tactic(auto)]

mod certificate;
mod closing;
mod combining;
mod form;
pub mod laws;

pub use certificate::{Cert, Entry};
pub use closing::closes;
pub use combining::{Combination, Part, judged, lesser};
pub use form::Form;
pub use laws::closing_gives_goal;

#[cfg(test)]
mod tests;
