use cost_poly::Poly;
use rup_base::{Kind, List, Text};
use side_certs::Form;

/// What a device loads and calls.
#[derive(Debug, Drop)]
pub struct Image {
    /// The version of the layout.
    pub version: u32,
    pub params: List<Kind>,
    /// Forms over the entry symbols that are at least 0 where the image may be called.
    pub requires_: List<Form>,
    /// For each result the number of its array parameter, or None for a scalar.
    pub rets: List<Option<u32>>,
    /// The most steps of a call.
    pub bound: Poly,
    /// The offset of the first instruction from the image's start, in bytes.
    pub entry: u32,
    /// The bytes of stack that a call takes.
    pub stack: u32,
    pub code: Text,
    pub tables: Text,
}
