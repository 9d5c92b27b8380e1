//! Ends of blocks.
ghost use Rattle.std.specs.Prelude.{◌≡◌, IfOk, OnOk};
ghost use Rattle.std.specs.Option.{option_copied};
ghost use Rattle.model_syntax.specs.Names.{listed};
ghost use Rattle.sym_heap.specs.Ends as spec;

use crate::context::Ctx;
use crate::parts::{Clause, Held};
use crate::places::{copy_clauses, copy_scalars};
use rup_base::{Name, NoMemory};
use std::alloc::Global;
use std::marker::Model;
use std::mem;

/// What the end of a block goes back to: the scalars and clauses at a point, and how many facts and reserved locals
/// there were. Facts and reserved locals are added at the end alone, so no copy of them is kept.
#[derive(Debug, Drop)]
pub struct Mark {
    scalars: Vec<Held>,
    clauses: Vec<Clause>,
    facts: usize,
    reserved: usize,
}

impl Model for Mark {
    ghost use Rattle.sym_heap.specs.Ends.{Standing};

    ghost Value = { Standing };

    ghost view = { λ m. record {
      scalars = m.scalars.items;
      clauses = m.clauses.items;
      facts = m.facts;
      reserved = m.reserved;
    } };
}

impl Mark {
    /// The scalars that stood.
    pub fn scalars(&self) -> &[Held]
        ensures { result.now ≡ self.now.scalars }
    {
        self.scalars.as_slice()
    }

    /// The clauses that stood, in the order of the parameters.
    pub fn clauses(&self) -> &[Clause]
        ensures { result.now ≡ self.now.clauses }
    {
        self.clauses.as_slice()
    }
}

impl Ctx {
    /// What stands now.
    pub fn mark(&self) -> Result<Mark, NoMemory>
        ensures { IfOk result (λ mark. mark ≡ spec.standing self.now) }
    {
        Ok(Mark {
            scalars: copy_scalars(self.alloc, &self.scalars)?,
            clauses: copy_clauses(self.alloc, &self.clauses)?,
            facts: self.facts.len(),
            reserved: self.reserved.len(),
        })
    }

    /// The scalars and clauses are those of the mark again, and there are as many facts and reserved locals as there were;
    /// the symbols and their tops stay. The answer is what stood at the end.
    pub fn end_block(&mut self, start: Mark) -> Mark
        ensures end { result ≡ spec.standing self.old }
        ensures after { self.new ≡ spec.restored start self.old }
    {
        let Mark {
            scalars,
            clauses,
            facts,
            reserved,
        } = start;
        let end = Mark {
            facts: self.facts.len(),
            reserved: self.reserved.len(),
            scalars: mem::replace(&mut self.scalars, scalars),
            clauses: mem::replace(&mut self.clauses, clauses),
        };
        self.facts.truncate(facts);
        self.reserved.truncate(reserved);
        end
    }

    /// Each array that has a listed name at the first end of two has that name, and the greater writes of both ends. After
    /// one block both ends are its end.
    pub fn take_over(&mut self, names: &[Name], one: &Mark, two: &Mark) -> Result<(), NoMemory>
        ensures { OnOk result (self.new ≡ spec.with_ends names.now one.now two.now self.old) }
    {
        let mut clauses = Vec::new(self.alloc);
        for clause in &self.clauses {
            clauses.push(at_ends(self.alloc, clause, names, one, two)?)?;
        }
        self.clauses = clauses;
        Ok(())
    }
}

fn at_ends(
    alloc: Global,
    clause: &Clause,
    names: &[Name],
    one: &Mark,
    two: &Mark,
) -> Result<Clause, NoMemory>
    ensures { IfOk result (λ k. k ≡ spec.at_ends names.now one.now two.now clause.now) }
{
    let first = of_param(&one.clauses, clause.param);
    let second = of_param(&two.clauses, clause.param);
    let mut after = clause.copy(alloc)?;
    if let (Some(first), Some(second)) = (first, second) {
        if is_listed(names, &first.name) {
            after.name = first.name.copy(alloc)?;
            after.writes = greater(first.writes, second.writes);
        }
    }
    Ok(after)
}

fn of_param(clauses: &[Clause], param: u32) -> Option<&Clause>
    ensures { option_copied result ≡ spec.of_param param clauses.now }
{
    clauses.iter().find(|clause| clause.param == param)
}

fn is_listed(names: &[Name], x: &Name) -> bool
    ensures { result ≡ listed x.now names.now }
{
    names.iter().any(|name| x == name)
}

fn greater(n: u32, m: u32) -> u32
    ensures { result ≡ spec.greater n m }
{
    if n < m { m } else { n }
}
