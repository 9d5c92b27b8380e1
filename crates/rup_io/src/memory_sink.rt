//! A sink in memory, of which each answer is known.
ghost use Rattle.std.specs.Prelude.{◌≡◌, [], Some, IfOk, is_ok};
ghost use Rattle.rup_io.specs.Sink.{HasCause, Takes};
ghost use Rattle.rup_io.specs.MemorySink.{succeeds, after_write};

use crate::calls::is_listed;
use crate::output::{Sink, SinkFailed};
use rup_base::{List, NoMemory};
use std::alloc::Global;
use std::marker::Model;

/// The bytes taken so far, with room for a fixed number of them, and the numbers of the calls that
/// are to fail.
#[derive(Debug, Drop)]
pub struct MemSink {
    capacity: u32,
    fails: List<u32>,
    calls: u64,
    faults: u64,
    taken: Vec<u8>,
}

impl Model for MemSink {
    ghost use Rattle.std.specs.Prelude.{◌≤◌, vec_len, vec_capacity};
    ghost use Rattle.rup_io.specs.MemorySink.{MemorySink};

    ghost Value = { MemorySink };

    ghost view = { λ m. record {
      capacity = m.capacity;
      fails = m.fails;
      calls = m.calls;
      faults = m.faults;
      taken = m.taken.items;
    } };

    ghost invariant = { λ m. (vec_len m.taken ≤ m.capacity) × (m.capacity ≤ vec_capacity m.taken) };
}

impl MemSink {
    /// A sink with room for `capacity` bytes, which is reserved at once. The calls whose numbers, from 0,
    /// stand in `fails` fail.
    pub fn new(alloc: Global, capacity: u32, fails: List<u32>) -> Result<MemSink, NoMemory>
        ensures { IfOk result (λ sink. sink ≡ record {
          capacity = capacity;
          fails = fails;
          calls = 0;
          faults = 0;
          taken = [];
        }) }
    {
        let taken = Vec::with_capacity(alloc, capacity as usize)?;
        Ok(MemSink {
            capacity,
            fails,
            calls: 0,
            faults: 0,
            taken,
        })
    }

    /// The bytes taken so far.
    pub fn taken(&self) -> &[u8]
        ensures { result.now ≡ self.now.taken }
    {
        self.taken.as_slice()
    }

    /// How many calls came so far.
    pub fn calls(&self) -> u64
        ensures { result ≡ self.now.calls }
    {
        self.calls
    }

    /// How many calls failed.
    pub fn faults(&self) -> u64
        ensures { result ≡ self.now.faults }
    {
        self.faults
    }
}

impl Sink for MemSink {
    ghost taken = { λ m. Some m.taken };

    ghost faults = { λ m. m.faults };

    fn write(&mut self, bytes: &[u8]) -> Result<(), SinkFailed>
        ensures cause { HasCause self.old.faults self.new.faults result }
        ensures takes { Takes (Some self.old.taken) (Some self.new.taken) bytes.now result }

        // a write that fits and is not to fail succeeds; one that does not fit takes what fits
        ensures answer { is_ok result ≡ succeeds self.old bytes.now }
        ensures after { self.new ≡ after_write self.old bytes.now }
    {
        let is_to_fail = is_listed(self.fails.as_slice(), self.calls);
        self.calls = self.calls.saturating_add(1);
        let room = if is_to_fail {
            0
        } else {
            self.capacity as usize - self.taken.len()
        };
        let count = bytes.len().min(room);
        self.taken.extend_from_slice(&bytes[..count]).unwrap();
        if is_to_fail || count < bytes.len() {
            self.faults = self.faults.saturating_add(1);
            return Err(SinkFailed);
        }
        Ok(())
    }
}
