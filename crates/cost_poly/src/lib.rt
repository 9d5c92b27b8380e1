//! Bounds of the steps of a call: polynomials of degree 2 over the entry symbols of an image, their sums, products
//! with linear forms, and greater ones. A polynomial stands inside itself, and no call takes memory.
#![tactic(auto)]

mod arithmetic;
mod coefficients;
mod poly;
mod term;
mod wide;

pub use poly::Poly;
pub use term::Term;
pub use wide::Wide;

#[cfg(test)]
mod tests;
