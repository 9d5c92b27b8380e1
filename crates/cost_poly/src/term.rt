/// A coefficient, times the values of at most two entry symbols. For a constant both are None, for a linear
/// term the second.
#[derive(Clone, Copy, Debug, PartialEq, Eq)]
pub struct Term {
    pub first: Option<u32>,
    pub second: Option<u32>,
    pub coefficient: u64,
}
