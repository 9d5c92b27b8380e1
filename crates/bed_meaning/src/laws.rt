//! What holds of the meaning itself.
ghost use Rattle.bed_syntax.specs.declared.weights.Weights.{Weights};
ghost use Rattle.bed_syntax.specs.declared.command.Cmd.{Cmd};
ghost use Rattle.bed_meaning.specs.MoreFuel.{KeepsWithMoreFuel};

/// More fuel keeps each end but `OutOfFuel`.
pub fn more_fuel_keeps()
    ensures { (w : Weights) → (c : Cmd) → KeepsWithMoreFuel w c }
{}
