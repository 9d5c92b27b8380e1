//! A growable list that contracts see as the list of its elements.
ghost use Rattle.std.specs.Prelude.{◌≡◌, [], ◌∷◌, ◌++◌, ◌↔◌, length, IsTrue, OnOk, OnErr};

use crate::no_memory::NoMemory;
use std::alloc::Global;
use std::marker::Model;

/// A `Vec` in which the type of its elements may hold itself: a contract that compares trees compares
/// their nodes, and never where they are stored.
#[derive(Debug, Drop)]
pub struct List<T> {
    elements: Vec<T>,
}

impl<T> Model for List<T> {
    ghost use Rattle.std.specs.Prelude as prelude;
    ghost use Rattle.std.specs.Coded.{coded_list};

    ghost Value = { prelude.List T };

    ghost coded = { coded_list T.code };

    ghost view = { λ l. l.elements.items };
}

impl<T> List<T> {
    /// The empty list. It takes no memory until it grows.
    pub fn new(alloc: Global) -> List<T>
        ensures { result ≡ [] }
    {
        List {
            elements: Vec::new(alloc),
        }
    }

    pub fn from_vec(elements: Vec<T>) -> List<T>
        ensures { result ≡ elements.items }
    {
        List { elements }
    }

    pub fn as_slice(&self) -> &[T]
        ensures { result.now ≡ self.now }
    {
        self.elements.as_slice()
    }

    pub fn into_vec(self) -> Vec<T>
        ensures { result.items ≡ self }
    {
        let List { elements } = self;
        elements
    }

    pub fn len(&self) -> usize
        ensures { result ≡ length self.now }
    {
        self.elements.len()
    }

    pub fn is_empty(&self) -> bool
        ensures { IsTrue result ↔ (self.now ≡ []) }
    {
        self.elements.is_empty()
    }
}

impl<T: Drop> List<T> {
    /// Puts `element` behind the last one. Where there is no memory for it, it is dropped.
    pub fn push(&mut self, element: T) -> Result<(), NoMemory>
        ensures appended { OnOk result (self.new ≡ self.old ++ element ∷ []) }
        ensures no_memory { OnErr result (self.new ≡ self.old) }
    {
        self.elements.push(element)?;
        Ok(())
    }
}
