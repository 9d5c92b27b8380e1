//! The context at the start of a model.
ghost use Rattle.std.specs.Prelude.{◌≡◌, ◌+◌, ◌≤◌, length, map, Some, pos, IfOk, OnOk};
ghost use Rattle.side_certs.specs.LinearForm.{constant, symbol};
ghost use Rattle.model_syntax.specs.Types.{Well};
ghost use Rattle.sym_heap.specs.Context.{top_of, with_fact, with_reserved};
ghost use Rattle.sym_heap.specs.Sides.{form_in, difference, AllFormed};
ghost use Rattle.sym_heap.specs.Start as spec;

use crate::context::Ctx;
use crate::parts::{Clause, Held};
use crate::sides::{number, requirement as required};
use model_syntax::{Le, Len, Model, Param, Scalar};
use rup_base::{Name, NoMemory};
use side_certs::Form;
use std::alloc::Global;

impl Ctx {
    /// The context of the first statement, which no statement has changed: argument k, in the order of registers, is
    /// local k. Pointer and length locals are reserved, and the facts are the requirements.
    pub fn start(alloc: Global, m: &Model) -> Result<Ctx, NoMemory>
        requires { Well m.now }
        ensures { IfOk result (λ start. start ≡ spec.start m.now) }
    {
        let mut context = Ctx::empty(alloc);
        context.declare(m.params.as_slice())?;
        context.count_entries();
        context.require(m.requires_.as_slice())?;
        Ok(context)
    }

    fn empty(alloc: Global) -> Ctx
        ensures { result ≡ spec.empty }
    {
        Ctx {
            alloc,
            scalars: Vec::new(alloc),
            clauses: Vec::new(alloc),
            facts: Vec::new(alloc),
            tops: Vec::new(alloc),
            entries: 0,
            reserved: Vec::new(alloc),
        }
    }

    /// The arguments of the parameters.
    #[tactic(auto, using(crate::proofs::Starting::after_param, crate::proofs::Starting::takes_one))]
    fn declare(&mut self, params: &[Param]) -> Result<(), NoMemory>
        requires { spec.next_local self.old + spec.registers params.now ≤ 8 }
        ensures { OnOk result (self.new ≡ spec.with_params 0 params.now self.old) }
    {
        let mut p = 0;
        for param in params {
            self.declare_param(p, param)?;
            p += 1;
        }
        Ok(())
    }

    /// The requirements, as facts.
    fn require(&mut self, requirements: &[Le]) -> Result<(), NoMemory>
        requires { AllFormed (form_in self.old.scalars) requirements.now }
        ensures { OnOk result (self.new ≡ spec.with_facts (map (difference (form_in self.old.scalars)) requirements.now) self.old) }
    {
        for requirement in requirements {
            let form = required(self.scalars(), requirement);
            self.put_fact(form)?;
        }
        Ok(())
    }

    fn put_fact(&mut self, form: Form) -> Result<(), NoMemory>
        ensures { OnOk result (self.new ≡ with_fact form self.old) }
    {
        self.facts.push(form)?;
        Ok(())
    }

    /// The symbols so far are the entry symbols, one for each scalar.
    fn count_entries(&mut self)
        requires { length self.old.scalars ≤ 8 }
        ensures { self.new ≡ spec.with_entries self.old }
    {
        self.entries = self.scalars.len() as u32;
    }

    /// The argument of the parameter of this number.
    fn declare_param(&mut self, p: u32, param: &Param) -> Result<(), NoMemory>
        requires { spec.next_local self.old + spec.registers_of param.now ≤ 8 }
        ensures { OnOk result (self.new ≡ spec.with_param p param.now self.old) }
    {
        match param {
            Param::Word(x) => self.declare_scalar(x, Scalar::Word),
            Param::Byte(x) => self.declare_scalar(x, Scalar::Byte),
            Param::Bytes(a, len) => self.declare_array(p, a, 1, len),
            Param::Words(a, len) => self.declare_array(p, a, 4, len),
        }
    }

    /// A pointer, and the length where it has a name.
    fn declare_array(&mut self, p: u32, a: &Name, size: u32, len: &Len) -> Result<(), NoMemory>
        requires { spec.next_local self.old + (1 + spec.length_registers len.now) ≤ 8 }
        ensures { OnOk result (self.new ≡ spec.with_array p a.now size len.now self.old) }
    {
        match len {
            Len::Fixed(n) => self.declare_pointer(p, a, size, number(*n), None),
            Len::Named(x) => {
                let local = self.next_local() + 1;
                let symbol = Form::symbol(self.scalars.len() as u32);
                self.declare_pointer(p, a, size, symbol, Some(local))?;
                self.declare_scalar(x, Scalar::Word)?;
                self.reserve_local(local)
            }
        }
    }

    /// A pointer takes the next local.
    fn declare_pointer(
        &mut self,
        p: u32,
        a: &Name,
        size: u32,
        length: Form,
        length_local: Option<u32>,
    ) -> Result<(), NoMemory>
        requires { spec.next_local self.old + 1 ≤ 8 }
        ensures { OnOk result (self.new ≡ spec.with_pointer p a.now size length length_local self.old) }
    {
        let name = a.copy(self.alloc)?;
        let pointer = self.next_local();
        self.clauses.push(Clause {
            name,
            param: p,
            size,
            pointer,
            length,
            length_local,
            writes: 0,
        })?;
        self.reserved.push(pointer)?;
        Ok(())
    }

    /// A word, a byte or a length takes the next local and the next symbol.
    fn declare_scalar(&mut self, x: &Name, kind: Scalar) -> Result<(), NoMemory>
        requires { spec.next_local self.old + 1 ≤ 8 }
        ensures { OnOk result (self.new ≡ spec.with_argument x.now kind self.old) }
    {
        let name = x.copy(self.alloc)?;
        let local = self.next_local();
        let form = Form::symbol(self.scalars.len() as u32);
        self.scalars.push(Held {
            name,
            local,
            form,
            kind,
        })?;
        self.tops.push(top_of(kind))?;
        Ok(())
    }

    fn next_local(&self) -> u32
        requires { spec.next_local self.now ≤ 8 }
        ensures { result ≡ spec.next_local self.now }
    {
        self.scalars.len() as u32 + self.clauses.len() as u32
    }
}

/// The greatest number of a word, a byte or a flag.
fn top_of(kind: Scalar) -> u32
    ensures { result ≡ top_of kind }
{
    match kind {
        Scalar::Word => 0xffff_ffff,
        Scalar::Byte => 255,
        Scalar::Flag => 1,
    }
}
