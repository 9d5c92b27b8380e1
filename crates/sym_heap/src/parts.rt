//! What a context is made of.
ghost use Rattle.std.specs.Prelude.{◌≡◌, IfOk};

use model_syntax::Scalar;
use rup_base::{Name, NoMemory};
use side_certs::Form;
use std::alloc::Global;

/// A scalar in scope: the local that has its number, and a form that has the same value.
#[derive(Debug, Drop)]
pub struct Held {
    pub name: Name,
    pub local: u32,
    pub form: Form,
    pub kind: Scalar,
}

/// The array that a parameter's range holds.
#[derive(Debug, Drop)]
pub struct Clause {
    /// The array's present name.
    pub name: Name,
    /// The number of the parameter, from 0.
    pub param: u32,
    /// The bytes of an element: 1 or 4.
    pub size: u32,
    /// The local that has the address of the first element.
    pub pointer: u32,
    /// The number of elements.
    pub length: Form,
    /// The local that has the number of elements, where that has a name.
    pub length_local: Option<u32>,
    /// How many statements wrote to the array; 0 says that it is still the argument.
    pub writes: u32,
}

impl Held {
    pub(crate) fn copy(&self, alloc: Global) -> Result<Held, NoMemory>
        ensures { IfOk result (λ copy. copy ≡ self.now) }
    {
        Ok(Held {
            name: self.name.copy(alloc)?,
            local: self.local,
            form: self.form.copy(),
            kind: self.kind,
        })
    }
}

impl Clause {
    pub(crate) fn copy(&self, alloc: Global) -> Result<Clause, NoMemory>
        ensures { IfOk result (λ copy. copy ≡ self.now) }
    {
        Ok(Clause {
            name: self.name.copy(alloc)?,
            param: self.param,
            size: self.size,
            pointer: self.pointer,
            length: self.length.copy(),
            length_local: self.length_local,
            writes: self.writes,
        })
    }
}
