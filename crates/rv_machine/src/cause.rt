// Why a step can't be taken.

ghost use Rattle.std.specs.Prelude.{◌≡◌, Some};
ghost use Rattle.rv_machine.specs.Causes.{cause_text};

use std::fmt;

/// Why a step can't be taken. The causes are tested in the order in which they stand here.
#[derive(Clone, Copy, Debug, PartialEq, Eq)]
pub enum Cause {
    /// The program counter is no multiple of 4.
    FetchMisaligned,
    /// A byte of the instruction word lies outside the memory.
    FetchOutside,
    /// The word is none of the table.
    Illegal,
    /// The word is ECALL.
    Ecall,
    /// The word is EBREAK.
    Ebreak,
    /// A jump, or a branch that is taken, goes to an address that is no multiple of 4.
    JumpMisaligned,
    /// A load's address is no multiple of its size.
    LoadMisaligned,
    /// A byte of a load lies outside the memory.
    LoadOutside,
    /// A store's address is no multiple of its size.
    StoreMisaligned,
    /// A byte of a store lies outside the memory.
    StoreOutside,
}

/// The cause in the words of the trap's report.
impl fmt::Display for Cause {
    ghost output = { λ cause. Some (cause_text cause) };

    fn fmt<W: fmt::Write>(&self, f: &mut fmt::Formatter<W>) -> fmt::Result {
        f.write_str(match self {
            Cause::FetchMisaligned => "fetch-misaligned",
            Cause::FetchOutside => "fetch-outside",
            Cause::Illegal => "illegal",
            Cause::Ecall => "ecall",
            Cause::Ebreak => "ebreak",
            Cause::JumpMisaligned => "jump-misaligned",
            Cause::LoadMisaligned => "load-misaligned",
            Cause::LoadOutside => "load-outside",
            Cause::StoreMisaligned => "store-misaligned",
            Cause::StoreOutside => "store-outside",
        })
    }
}
