/// What a sum or a product has that passes a limit.
#[derive(Clone, Copy, Debug, PartialEq, Eq)]
pub struct Wide {
    /// Of its terms whose coefficient isn't 0 the greatest degree, at most 3.
    pub degree: u32,
    /// Its greatest coefficient.
    pub coefficient: u128,
}
