//! A sink over a writer, as the standard output. What a terminal takes, no contract can say: this is a
//! trusted edge.
ghost use Rattle.std.specs.Prelude.{◌≡◌, None, is_ok, if◌then◌else◌};
ghost use Rattle.rup_io.specs.Count.{raised};
ghost use Rattle.rup_io.specs.Sink.{HasCause, Takes};

use crate::output::{Sink, SinkFailed};
use std::io::Write;
use std::marker::Model;

/// A writer, with the count of its faults. Callers over `Sink` are not told what it took.
#[derive(Drop)]
pub struct StdSink<W> {
    writer: W,
    faults: u64,
}

impl<W> Model for StdSink<W> {
    ghost use Rattle.std.specs.Prelude.{ℕ};
    ghost use Rattle.std.specs.Coded.{coded×, coded_ℕ};

    // the writer, and how many writes failed
    ghost Value = { W × ℕ };

    ghost coded = { coded× W.code coded_ℕ };

    ghost view = { λ s. (s.writer, s.faults) };
}

impl<W: Write + Drop> StdSink<W> {
    /// A sink whose bytes go to this writer.
    pub fn new(writer: W) -> StdSink<W>
        ensures { result ≡ (writer, 0) }
    {
        StdSink { writer, faults: 0 }
    }

    /// How many writes failed.
    pub fn faults(&self) -> u64
        ensures { result ≡ self.now.1 }
    {
        self.faults
    }
}

impl<W: Write + Drop> Sink for StdSink<W> {
    ghost taken = { λ _. None };

    ghost faults = { λ s. s.1 };

    fn write(&mut self, bytes: &[u8]) -> Result<(), SinkFailed>
        ensures cause { HasCause self.old.1 self.new.1 result }
        ensures takes { Takes None None bytes.now result }

        // where the writer's own bytes are known
        ensures hands_on { Takes (W.contents self.old.0) (W.contents self.new.0) bytes.now result }
        ensures after { self.new.1 ≡ (if is_ok result then self.old.1 else raised self.old.1) }
    {
        let answer = write_whole(&mut self.writer, bytes);
        if answer.is_err() {
            self.faults = self.faults.saturating_add(1);
        }
        answer
    }
}

/// Writes piece after piece. A write that takes nothing of a piece that is not empty fails, as one
/// that gives an error.
fn write_whole<W: Write>(writer: &mut W, bytes: &[u8]) -> Result<(), SinkFailed>
    ensures { Takes (W.contents writer.old) (W.contents writer.new) bytes.now result }
{
    let mut left = bytes;
    while !left.is_empty() {
        match writer.write(left) {
            Ok(0) | Err(_) => return Err(SinkFailed),
            Ok(count) => left = &left[count..],
        }
    }
    Ok(())
}
