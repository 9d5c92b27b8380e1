//! Where a name stands among scalars and clauses, and copies of lists.
ghost use Rattle.std.specs.Prelude.{◌≡◌, IfOk};
ghost use Rattle.std.specs.List.{find, position_from};
ghost use Rattle.std.specs.Option.{option_copied};
ghost use Rattle.sym_heap.specs.Context.{is_scalar, is_clause, has};

use crate::parts::{Clause, Held};
use rup_base::{Name, NoMemory};
use side_certs::Form;
use std::alloc::Global;

/// The scalar of this name.
pub fn find_scalar<'a>(scalars: &'a [Held], x: &Name) -> Option<&'a Held>
    ensures { option_copied result ≡ find (is_scalar x.now) scalars.now }
{
    scalars.iter().find(|held| held.name == *x)
}

/// The place of the scalar of this name.
pub fn place_of_scalar(scalars: &[Held], x: &Name) -> Option<usize>
    ensures { result ≡ position_from (is_scalar x.now) 0 scalars.now }
{
    scalars.iter().position(|held| held.name == *x)
}

/// The place of the clause of this name.
pub fn place_of_clause(clauses: &[Clause], a: &Name) -> Option<usize>
    ensures { result ≡ position_from (is_clause a.now) 0 clauses.now }
{
    clauses.iter().position(|clause| clause.name == *a)
}

/// Whether one of the numbers is this one.
pub fn is_among(numbers: &[u32], n: u32) -> bool
    ensures { result ≡ has n numbers.now }
{
    numbers.contains(&n)
}

pub fn copy_scalars(alloc: Global, scalars: &[Held]) -> Result<Vec<Held>, NoMemory>
    ensures { IfOk result (λ copy. copy.items ≡ scalars.now) }
{
    let mut copies = Vec::new(alloc);
    for held in scalars {
        copies.push(held.copy(alloc)?)?;
    }
    Ok(copies)
}

pub fn copy_clauses(alloc: Global, clauses: &[Clause]) -> Result<Vec<Clause>, NoMemory>
    ensures { IfOk result (λ copy. copy.items ≡ clauses.now) }
{
    let mut copies = Vec::new(alloc);
    for clause in clauses {
        copies.push(clause.copy(alloc)?)?;
    }
    Ok(copies)
}

pub fn copy_forms(alloc: Global, forms: &[Form]) -> Result<Vec<Form>, NoMemory>
    ensures { IfOk result (λ copy. copy.items ≡ forms.now) }
{
    let mut copies = Vec::new(alloc);
    for form in forms {
        copies.push(form.copy())?;
    }
    Ok(copies)
}
