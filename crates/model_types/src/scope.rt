//! The names in scope and their types.
ghost use Rattle.std.specs.Prelude.{◌≡◌, [], length, IfOk};
ghost use Rattle.std.specs.Option.{option_copied};
ghost use Rattle.model_syntax.specs.Scope as spec;

use crate::shapes::copy_type;
use indexmap::IndexMap;
use model_syntax::{Entry, NameType};
use rup_base::{List, Name, NoMemory};
use std::alloc::Global;
use std::marker::Model;

/// A scope: its entries in the order in which they were bound. The last entry of a name counts, and a table finds it.
#[derive(Drop)]
pub struct Scope {
    entries: List<Entry>,
    types: IndexMap<Name, NameType>,
}

impl Model for Scope {
    ghost use Rattle.std.specs.Prelude.{List};
    ghost use Rattle.model_syntax.specs.declared.scope.Entry.{Entry};
    ghost use Rattle.model_types.specs.Told.{Tells};

    ghost Value = { List Entry };

    ghost view = { λ s. s.entries };

    ghost invariant = { λ s. Tells s.types s.entries };
}

impl Scope {
    /// The scope with no names.
    pub fn new(alloc: Global) -> Scope
        ensures { result ≡ [] }
    {
        Scope {
            entries: List::new(alloc),
            types: IndexMap::new(alloc),
        }
    }

    /// How many entries the scope has.
    pub fn len(&self) -> usize
        ensures { result ≡ length self.now }
    {
        self.entries.len()
    }

    /// The type of a name in scope: its last entry counts.
    pub fn look_up(&self, x: &Name) -> Option<&NameType>
        ensures { option_copied result ≡ spec.look_up self.now x.now }
    {
        self.types.get(x)
    }

    /// The scope in which a name has a type.
    pub fn bind(self, alloc: Global, x: &Name, shape: NameType) -> Result<Scope, NoMemory>
        ensures { IfOk result (λ after. after ≡ spec.bind x.now shape self) }
    {
        let Scope { entries, types } = self;
        let mut entries = entries;
        let mut types = types;
        types.insert(x.copy(alloc)?, copy_type(alloc, &shape)?)?;
        let name = x.copy(alloc)?;
        entries.push(Entry { name, shape })?;
        Ok(Scope { entries, types })
    }

    /// A scope of its own in which a name has a type besides.
    pub fn extended(&self, alloc: Global, x: &Name, shape: NameType) -> Result<Scope, NoMemory>
        ensures { IfOk result (λ after. after ≡ spec.bind x.now shape self.now) }
    {
        self.copy(alloc)?.bind(alloc, x, shape)
    }

    /// An equal scope.
    pub fn copy(&self, alloc: Global) -> Result<Scope, NoMemory>
        ensures { IfOk result (λ copy. copy ≡ self.now) }
    {
        let mut copy = Scope::new(alloc);
        for entry in self.entries.as_slice() {
            copy = copy.bind(alloc, &entry.name, copy_type(alloc, &entry.shape)?)?;
        }
        Ok(copy)
    }
}
