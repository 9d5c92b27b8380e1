//! The locals of a command.
ghost use Rattle.std.specs.Prelude.{◌≡◌, ◌<◌, ◌↔◌, length, replicate, IsTrue, IfOk, Some, None, slice_set, if◌then◌else◌};
ghost use Rattle.bed_meaning.specs.Locals.{local_at};

use rup_base::NoMemory;
use std::alloc::Global;
use std::marker::Model;

/// Locals by their numbers from 0. One that was not set has no value.
#[derive(Debug, Drop)]
pub struct Locals {
    values: Vec<Option<u32>>,
}

impl Model for Locals {
    ghost use Rattle.std.specs.Prelude.{ℕ, List, Option};

    ghost Value = { List (Option ℕ) };

    ghost view = { λ l. l.values.items };
}

impl Locals {
    /// So many locals, none of them set.
    pub fn new(alloc: Global, count: u32) -> Result<Locals, NoMemory>
        ensures { IfOk result (λ locals. locals ≡ replicate count None) }
    {
        let mut values = Vec::new(alloc);
        for _local in 0..count {
            values.push(None)?;
        }
        Ok(Locals { values })
    }

    /// The value of a local, `None` exactly where it was not set.
    pub fn get(&self, local: u32) -> Option<u32>
        ensures { result ≡ local_at self.now local }
    {
        match self.values.get(local as usize) {
            Some(value) => *value,
            None => None,
        }
    }

    /// Gives a local a value, and says whether it is one of these. Else nothing changes.
    pub fn set(&mut self, local: u32, value: u32) -> bool
        ensures found { IsTrue result ↔ (local < length self.old) }
        ensures value { self.new ≡ (if result then slice_set self.old local (Some value) else self.old) }
    {
        let i = local as usize;
        if i < self.values.len() {
            self.values[i] = Some(value);
            return true;
        }
        false
    }
}
