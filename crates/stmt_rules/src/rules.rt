//! The rules: what a node gives after its kids.
pub mod binding;
pub mod conditional;
pub mod counting;
pub mod folding;
pub mod mapping;
pub mod moving;
pub mod note;
pub mod put;
