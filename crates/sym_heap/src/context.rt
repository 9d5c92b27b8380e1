//! A context and the calls that change it.
ghost use Rattle.std.specs.Prelude.{◌≡◌, ◌<◌, take, length, IfOk, OnOk, Some, is_some, if◌then◌else◌};
ghost use Rattle.std.specs.List.{list_all};
ghost use Rattle.std.specs.Option.{option_copied, ForSome};
ghost use Rattle.sym_heap.specs.Context as spec;

use crate::parts::{Clause, Held};
use crate::places::{
    copy_clauses, copy_forms, copy_scalars, find_scalar, is_among, place_of_clause, place_of_scalar,
};
use model_syntax::Scalar;
use rup_base::{Name, NoMemory};
use side_certs::Form;
use std::alloc::Global;
use std::marker::Model;

mod ends;
mod start;

pub use ends::Mark;

/// The greatest number of symbols.
const MOST_SYMBOLS: usize = 0xffff_ffff;

/// The greatest number of facts.
const MOST_FACTS: usize = 4096;

/// What is known at a point of a model. It grows by the allocator that it was made with.
#[derive(Debug, Drop)]
pub struct Ctx {
    alloc: Global,
    scalars: Vec<Held>,
    clauses: Vec<Clause>,
    facts: Vec<Form>,
    tops: Vec<u32>,
    entries: u32,
    reserved: Vec<u32>,
}

impl Model for Ctx {
    ghost use Rattle.sym_heap.specs.Context.{Context};

    ghost Value = { Context };

    ghost view = { λ c. record {
      scalars = c.scalars.items;
      clauses = c.clauses.items;
      facts = c.facts.items;
      tops = c.tops.items;
      entries = c.entries;
      reserved = c.reserved.items;
    } };
}

impl Ctx {
    /// An equal context.
    pub fn copy(&self) -> Result<Ctx, NoMemory>
        ensures { IfOk result (λ copy. copy ≡ self.now) }
    {
        Ok(Ctx {
            alloc: self.alloc,
            scalars: copy_scalars(self.alloc, &self.scalars)?,
            clauses: copy_clauses(self.alloc, &self.clauses)?,
            facts: copy_forms(self.alloc, &self.facts)?,
            tops: Vec::from_slice(self.alloc, &self.tops)?,
            entries: self.entries,
            reserved: Vec::from_slice(self.alloc, &self.reserved)?,
        })
    }

    /// The allocator that the context was made with and grows by. No clause says so, for it is no part of what a context
    /// is: `start` and `copy` set it, and no other call does.
    pub fn allocator(&self) -> Global {
        self.alloc
    }

    /// A further symbol, whose number is from 0 to `top`. None exactly where 4294967295 symbols stand; then nothing
    /// changes. A number is never used again.
    pub fn fresh(&mut self, top: u32) -> Result<Option<u32>, NoMemory>
        ensures symbol { IfOk result (λ symbol. symbol ≡ spec.next_symbol self.old) }
        ensures after { IfOk result (λ symbol. self.new ≡ (if is_some symbol then spec.with_top top self.old else self.old)) }
    {
        if self.tops.len() >= MOST_SYMBOLS {
            return Ok(None);
        }
        let symbol = self.tops.len() as u32;
        self.tops.push(top)?;
        Ok(Some(symbol))
    }

    /// Gives a scalar its local, form and type, in place of those that it had. False exactly where the local is not
    /// free for it; then nothing changes.
    pub fn bind(&mut self, x: &Name, local: u32, form: Form, kind: Scalar) -> Result<bool, NoMemory>
        ensures free { IfOk result (λ bound. bound ≡ spec.is_free self.old local (Some x.now)) }
        ensures after { IfOk result (λ bound. self.new
            ≡ (if bound then spec.with_scalar (spec.held x.now local form kind) self.old else self.old)) }
    {
        if !self.is_free(local, Some(x)) {
            return Ok(false);
        }
        self.set_scalar(x, local, form, kind)?;
        Ok(true)
    }

    /// Does as `bind`, whether or not the local is free.
    pub fn set_scalar(
        &mut self,
        x: &Name,
        local: u32,
        form: Form,
        kind: Scalar,
    ) -> Result<(), NoMemory>
        ensures { OnOk result (self.new ≡ spec.with_scalar (spec.held x.now local form kind) self.old) }
    {
        let name = x.copy(self.alloc)?;
        let place = place_of_scalar(&self.scalars, x);
        let held = Held {
            name,
            local,
            form,
            kind,
        };
        match place {
            Some(i) => self.scalars[i] = held,
            None => self.scalars.push(held)?,
        }
        Ok(())
    }

    /// Names the clause of `a` `b`. False exactly where `a` names no clause or `b` names another; then nothing changes.
    pub fn move_clause(&mut self, a: &Name, b: &Name) -> Result<bool, NoMemory>
        ensures can_move { IfOk result (λ moved. moved ≡ spec.can_move self.old a.now b.now) }
        ensures after { IfOk result (λ moved. self.new
            ≡ (if moved then spec.with_clause a.now (spec.renamed b.now) self.old else self.old)) }
    {
        if !self.can_move(a, b) {
            return Ok(false);
        }
        self.rename(a, b)?;
        Ok(true)
    }

    /// `a` names a clause, and `b` names no other.
    fn can_move(&self, a: &Name, b: &Name) -> bool
        ensures { result ≡ spec.can_move self.now a.now b.now }
    {
        self.own(a).is_some() && (a == b || self.own(b).is_none())
    }

    fn rename(&mut self, a: &Name, b: &Name) -> Result<(), NoMemory>
        ensures { OnOk result (self.new ≡ spec.with_clause a.now (spec.renamed b.now) self.old) }
    {
        let name = b.copy(self.alloc)?;
        if let Some(i) = place_of_clause(&self.clauses, a) {
            self.clauses[i].name = name;
        }
        Ok(())
    }

    /// A further fact. False exactly where 4,096 facts stand; then nothing changes.
    pub fn add_fact(&mut self, f: Form) -> Result<bool, NoMemory>
        ensures room { IfOk result (λ added. added ≡ spec.has_room self.old) }
        ensures after { IfOk result (λ added. self.new ≡ (if added then spec.with_fact f self.old else self.old)) }
    {
        if self.facts.len() >= MOST_FACTS {
            return Ok(false);
        }
        self.facts.push(f)?;
        Ok(true)
    }

    /// No scalar may take the local any more.
    pub fn reserve_local(&mut self, local: u32) -> Result<(), NoMemory>
        ensures { OnOk result (self.new ≡ spec.with_reserved local self.old) }
    {
        self.reserved.push(local)?;
        Ok(())
    }

    /// Counts a write to the array. False exactly where no clause has the name; then nothing changes.
    pub fn wrote(&mut self, a: &Name) -> bool
        requires { ForSome (spec.own self.old a.now) (λ k. k.writes < 4294967295) }
        ensures found { result ≡ is_some (spec.own self.old a.now) }
        ensures after { self.new ≡ (if result then spec.with_clause a.now spec.written self.old else self.old) }
    {
        match place_of_clause(&self.clauses, a) {
            None => false,
            Some(i) => {
                self.clauses[i].writes += 1;
                true
            }
        }
    }

    /// Takes the clause out. False exactly where no clause has the name; then nothing changes.
    pub fn drop_clause(&mut self, a: &Name) -> bool
        ensures found { result ≡ is_some (spec.own self.old a.now) }
        ensures after { self.new ≡ (if result then spec.without_clause a.now self.old else self.old) }
    {
        match place_of_clause(&self.clauses, a) {
            None => false,
            Some(i) => {
                let _ = self.clauses.remove(i);
                true
            }
        }
    }

    /// The scalars, clauses, facts and reserved locals are those of `old` again; the symbols and their tops stay.
    pub fn back_to(&mut self, old: Ctx)
        requires { take (length old.tops) self.old.tops ≡ old.tops }
        ensures { self.new ≡ spec.back_to old self.old }
    {
        let Ctx {
            alloc: _,
            scalars,
            clauses,
            facts,
            tops: _,
            entries: _,
            reserved,
        } = old;
        self.scalars = scalars;
        self.clauses = clauses;
        self.facts = facts;
        self.reserved = reserved;
    }

    /// The clause of a name.
    pub fn own(&self, a: &Name) -> Option<&Clause>
        ensures { option_copied result ≡ spec.own self.now a.now }
    {
        self.clauses.iter().find(|clause| clause.name == *a)
    }

    /// The scalar of a name.
    pub fn scalar(&self, x: &Name) -> Option<&Held>
        ensures { option_copied result ≡ spec.scalar self.now x.now }
    {
        find_scalar(&self.scalars, x)
    }

    /// The scalars, each once.
    pub fn scalars(&self) -> &[Held]
        ensures { result.now ≡ self.now.scalars }
    {
        self.scalars.as_slice()
    }

    /// The number of entry symbols, which stand for the word and byte arguments and the named lengths.
    pub fn entries(&self) -> u32
        ensures { result ≡ self.now.entries }
    {
        self.entries
    }

    /// The clauses, in the order of the parameters.
    pub fn clauses(&self) -> &[Clause]
        ensures { result.now ≡ self.now.clauses }
    {
        self.clauses.as_slice()
    }

    /// The forms that are at least 0, in the order of their numbers.
    pub fn facts(&self) -> &[Form]
        ensures { result.now ≡ self.now.facts }
    {
        self.facts.as_slice()
    }

    /// The greatest number of each symbol.
    pub fn tops(&self) -> &[u32]
        ensures { result.now ≡ self.now.tops }
    {
        self.tops.as_slice()
    }

    /// Whether the local is not reserved and no scalar has it; the scalar of the name, where one is given, may.
    pub fn is_free(&self, local: u32, x: Option<&Name>) -> bool
        ensures { result ≡ spec.is_free self.now local (option_copied x.entry) }
    {
        !is_among(&self.reserved, local) && all_leave_free(&self.scalars, local, x)
    }
}

fn all_leave_free(scalars: &[Held], local: u32, x: Option<&Name>) -> bool
    ensures { result ≡ list_all (spec.leaves_free local (option_copied x.entry)) scalars.now }
{
    scalars.iter().all(|held| leaves_free(held, local, x))
}

fn leaves_free(held: &Held, local: u32, x: Option<&Name>) -> bool
    ensures { result ≡ spec.leaves_free local (option_copied x.entry) held.now }
{
    match x {
        None => held.local != local,
        Some(name) => held.local != local || held.name == *name,
    }
}
