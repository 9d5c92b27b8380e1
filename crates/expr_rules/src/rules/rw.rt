//! e-rw: a step of the book takes the expression to another one.
ghost use Rattle.std.specs.Prelude.{◌≡◌};
ghost use Rattle.expr_rules.specs.rules.Rw as spec;

use crate::words::in_range;

/// The number of the step.
pub fn step_of(args: &[i64]) -> Option<u32>
    ensures { result ≡ spec.step_of args.now }
{
    match args {
        [] => None,
        [step, ..] => in_range(0, u32::MAX, *step),
    }
}
