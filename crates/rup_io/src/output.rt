//! Sinks that take bytes.
ghost use Rattle.std.specs.Prelude.{ℕ, List, Option};
ghost use Rattle.rup_io.specs.Sink.{HasCause, Takes};

/// A sink did not take all bytes of a write. Its count of faults rose.
#[derive(Clone, Copy, Debug, PartialEq, Eq)]
pub struct SinkFailed;

/// What takes bytes, one write after another. A write takes no memory.
pub trait Sink {
    // The bytes that were taken so far, where they are told.
    ghost taken: { Self → Option (List ℕ) };

    // How many writes failed, from 0 to 2^64 - 1, where the count stands still.
    ghost faults: { Self → ℕ };

    /// Takes all bytes, or fails with a prefix of them taken.
    fn write(&mut self, bytes: &[u8]) -> Result<(), SinkFailed>
        ensures cause { HasCause (faults self.old) (faults self.new) result }
        ensures takes { Takes (taken self.old) (taken self.new) bytes.now result };
}
