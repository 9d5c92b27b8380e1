//! How a run stops before its end, and what it counts.
ghost use Rattle.std.specs.Prelude.{◌≡◌};
ghost use Rattle.bed_meaning.specs.Outcome.{Took, GivenBy};

/// Why a command has no end.
#[derive(Clone, Copy, Debug, PartialEq, Eq)]
pub enum Halt {
    /// It reads or writes what is not there.
    Stuck,
    OutOfFuel,
}

/// The fuel that is left, and the ticks so far.
#[derive(Clone, Copy, Debug, PartialEq, Eq)]
pub struct Meter {
    pub fuel: u64,
    pub ticks: u128,
}

/// Takes one from the fuel.
pub fn take_one(meter: &mut Meter) -> Result<(), Halt>
    ensures took { Took result meter.new.fuel meter.old.fuel }
    ensures ticks { meter.new.ticks ≡ meter.old.ticks }
{
    if meter.fuel == 0 {
        return Err(Halt::OutOfFuel);
    }
    meter.fuel -= 1;
    Ok(())
}

/// The value, where there is one.
pub fn given(value: Option<u32>) -> Result<u32, Halt>
    ensures { GivenBy result value }
{
    match value {
        Some(x) => Ok(x),
        None => Err(Halt::Stuck),
    }
}
