//! A value on the heap that contracts see as the value.
ghost use Rattle.std.specs.Prelude.{◌≡◌, IfOk};

use crate::no_memory::NoMemory;
use std::alloc::Global;
use std::boxed;
use std::marker::Model;
use std::ops::Deref;

/// A box through which a type may hold itself: a contract that compares trees compares their nodes, and
/// never where they are stored.
#[derive(Debug, Drop)]
pub struct Box<T> {
    at: boxed::Box<T>,
}

impl<T> Model for Box<T> {
    ghost Value = { T };

    ghost coded = { T.code };

    ghost view = { λ b. b.at.value };
}

impl<T> Box<T> {
    pub fn get(&self) -> &T
        ensures { result.now ≡ self.now }
    {
        &self.at
    }

    pub fn into_inner(self) -> T
        ensures { result ≡ self }
    {
        let Box { at } = self;
        boxed::Box::into_inner(at)
    }
}

impl<T: Drop> Box<T> {
    /// Moves `value` to the heap. Where there is no memory for it, it is dropped.
    pub fn new(alloc: Global, value: T) -> Result<Box<T>, NoMemory>
        ensures { IfOk result (λ b. b ≡ value) }
    {
        let at = boxed::Box::new(alloc, value)?;
        Ok(Box { at })
    }
}

impl<T> Deref for Box<T> {
    type Target = T;

    ghost deref_gives = { λ b value. value ≡ b };

    fn deref(&self) -> &T {
        &self.at
    }
}
