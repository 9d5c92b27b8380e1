//! What a command answers, made whole before the first write.
ghost use Rattle.std.specs.Prelude.{◌≡◌};

use run_setup::ArgsFail;
use rup_base::{Fail, NoMemory, Refusal, Text};

/// A status, the bytes for `out`, and the line for `notes`; an empty text is not written.
#[derive(Debug, Drop)]
pub struct Answer {
    pub status: u8,
    pub out: Text,
    pub note: Text,
}

/// Why a command ends before its last step.
#[derive(Debug, Drop)]
pub enum Stop {
    Refused(Refusal),
    /// The file of the word at this place could not be read.
    ReadFault { place: u32 },
    NoMemory,
}

impl From<NoMemory> for Stop {
    ghost use Rattle.std.specs.Prelude.{◌≡◌};
    ghost use Rattle.rup_top.specs.declared.answer.Stop.TheVariants as stop;

    ghost from_gives = { λ _ s. s ≡ stop.NoMemory };

    fn from(_error: NoMemory) -> Stop {
        Stop::NoMemory
    }
}

impl From<Fail> for Stop {
    ghost use Rattle.std.specs.Prelude.{◌≡◌};
    ghost use Rattle.rup_top.specs.Stops.{stop_of_fail};

    ghost from_gives = { λ fail s. s ≡ stop_of_fail fail };

    fn from(fail: Fail) -> Stop {
        match fail {
            Fail::Refused(refusal) => Stop::Refused(refusal),
            Fail::NoMemory => Stop::NoMemory,
        }
    }
}

impl From<ArgsFail> for Stop {
    ghost use Rattle.std.specs.Prelude.{◌≡◌};
    ghost use Rattle.rup_top.specs.Stops.{stop_of_args};

    ghost from_gives = { λ fail s. s ≡ stop_of_args fail };

    fn from(fail: ArgsFail) -> Stop {
        match fail {
            ArgsFail::Refused(refusal) => Stop::Refused(refusal),
            ArgsFail::ReadFault { word } => Stop::ReadFault { place: word },
            ArgsFail::NoMemory => Stop::NoMemory,
        }
    }
}
