//! How a call over outside input fails: it says why, or memory ran out.
ghost use Rattle.std.specs.Prelude.{◌≡◌};
ghost use Rattle.rup_base.specs.declared.fail.Fail.TheVariants as fail;

use crate::no_memory::NoMemory;
use crate::refusal::Refusal;
use std::alloc::{AllocError, AllocFailed};
use thiserror::Error;

/// A refusal, which the input determines, or want of memory, which it does not.
#[derive(Debug, Drop, Error)]
pub enum Fail {
    #[error(transparent)]
    Refused(Refusal),
    #[error("out of memory")]
    NoMemory,
}

impl From<Refusal> for Fail {
    ghost from_gives = { λ refusal f. f ≡ fail.Refused refusal };

    fn from(refusal: Refusal) -> Fail {
        Fail::Refused(refusal)
    }
}

impl From<NoMemory> for Fail {
    ghost from_gives = { λ _ f. f ≡ fail.NoMemory };

    fn from(_error: NoMemory) -> Fail {
        Fail::NoMemory
    }
}

impl From<AllocError> for Fail {
    ghost from_gives = { λ _ f. f ≡ fail.NoMemory };

    fn from(_error: AllocError) -> Fail {
        Fail::NoMemory
    }
}

impl<T: Drop> From<AllocFailed<T>> for Fail {
    ghost from_gives = { λ _ f. f ≡ fail.NoMemory };

    fn from(_refused: AllocFailed<T>) -> Fail {
        Fail::NoMemory
    }
}
