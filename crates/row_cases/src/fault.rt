//! Why a case gives no answer.
use rup_base::NoMemory;
use rup_io::FetchFault;
use std::alloc::{AllocError, AllocFailed};

/// A line can't be read, a file that it names isn't there, or memory ran out.
#[derive(Clone, Copy, Debug, PartialEq, Eq)]
pub enum Fault {
    BadLine,
    NoFile,
    NoMemory,
}

impl Fault {
    /// The fault in words, as the answer of a case.
    pub fn name(self) -> &'static str {
        match self {
            Fault::BadLine => "a line can't be read",
            Fault::NoFile => "a file isn't there",
            Fault::NoMemory => "out of memory",
        }
    }
}

impl From<NoMemory> for Fault {
    fn from(_error: NoMemory) -> Fault {
        Fault::NoMemory
    }
}

impl From<AllocError> for Fault {
    fn from(_error: AllocError) -> Fault {
        Fault::NoMemory
    }
}

impl<T: Drop> From<AllocFailed<T>> for Fault {
    fn from(_refused: AllocFailed<T>) -> Fault {
        Fault::NoMemory
    }
}

impl From<FetchFault> for Fault {
    fn from(fault: FetchFault) -> Fault {
        match fault {
            FetchFault::Failed | FetchFault::TooLong => Fault::NoFile,
            FetchFault::NoMemory => Fault::NoMemory,
        }
    }
}
