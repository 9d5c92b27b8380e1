//! What holds of what the search finds.
ghost use Rattle.derive_search.specs.Instance.{DerivationsAreInstances, ExpressionsDerive};

/// What the search finds for an expression is an instance of the rules.
pub fn expressions_derive()
    ensures { ExpressionsDerive }
{}

/// The derivation that the search finds is whole, each node of it is in its row, and the conditions of the end hold.
pub fn derivations_are_instances()
    ensures { DerivationsAreInstances }
{}
