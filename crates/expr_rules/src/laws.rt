//! What holds of what a derivation gives.
ghost use Rattle.expr_rules.specs.Small.{CodesAreSmall};
ghost use Rattle.expr_rules.specs.Sound.{InstancesAreSound};

/// In each state that fits the context before, the code that an instance gives has the value of the expression, and the
/// state fits the context after; so have form and facts.
pub fn instances_are_sound()
    ensures { InstancesAreSound }
{}

/// The code that an instance gives has at most five nodes and one table for each node of the derivation, and no more bytes of
/// tables than the expression.
pub fn codes_are_small()
    ensures { CodesAreSmall }
{}
