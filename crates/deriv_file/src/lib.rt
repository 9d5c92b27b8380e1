//! The derivation file, which is what a user keeps beside a model: JSON by `serde_json`, with a header and the nodes of
//! the tree in preorder. `docs/DERIVATIONS.md` describes it. The nodes are judged from the first one on, each at its
//! place; the tree is grown from the last one. The printer lists the nodes again. `specs/` has the definitions.
#![tactic(auto)]

mod certificate_list;
mod forest;
mod header;
pub mod laws;
mod node;
mod node_list;
mod node_value;
mod number;
mod places;
mod printer;
mod reader;

pub use laws::{file_is_one, list_grows_back, text_is_file};
pub use printer::print_derivation;
pub use reader::read_derivation;

#[cfg(test)]
mod tests;
