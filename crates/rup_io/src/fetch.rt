//! Files that are fetched whole, by name.
ghost use Rattle.std.specs.Prelude.{◌≡◌, ℕ, List, Option};
ghost use Rattle.rup_io.specs.Files.{FetchCause, FetchGives};

use rup_base::{NoMemory, Text};
use std::alloc::Global;

/// Why a fetch gives no bytes.
#[derive(Clone, Copy, Debug, PartialEq, Eq)]
pub enum FetchFault {
    /// The file could not be read. The count of faults rose, and the name is kept as the last one.
    Failed,
    /// The file has more bytes than the limit.
    TooLong,
    /// Memory ran out.
    NoMemory,
}

impl From<NoMemory> for FetchFault {
    ghost use Rattle.std.specs.Prelude.{◌≡◌};
    ghost use Rattle.rup_io.specs.declared.fetch.FetchFault.TheVariants.{NoMemory as out_of_memory};

    ghost from_gives = { λ _ fault. fault ≡ out_of_memory };

    fn from(_error: NoMemory) -> FetchFault {
        FetchFault::NoMemory
    }
}

/// A source of files.
pub trait Files {
    // The files by name, where they are told. The first pair with a name counts.
    ghost held: { Self → Option (List (List ℕ × List ℕ)) };

    // How many fetches failed, from 0 to 2^64 - 1, where the count stands still.
    ghost faults: { Self → ℕ };

    // The name of the last fetch that failed.
    ghost last: { Self → Option (List ℕ) };

    /// The bytes of the file with this name, of which there may be at most `limit`.
    fn fetch(&mut self, alloc: Global, name: &str, limit: u32) -> Result<Text, FetchFault>
        ensures held { held self.new ≡ held self.old }
        ensures cause { FetchCause (faults self.old) (faults self.new) (last self.old) (last self.new)
            name.now result }
        ensures gives { FetchGives (held self.old) name.now limit result };
}
