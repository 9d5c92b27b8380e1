//! The walk over statements from the end to the start.
ghost use Rattle.std.specs.Prelude.{◌≡◌, OnOk, map};
ghost use Rattle.reg_alloc.specs.Visit.{visit, visits, code_visit};

use crate::marks::{copy, empty, mark, union};
use crate::watch::{Watch, see};
use flat_lang::FStmt;
use rup_base::{List, NoMemory};
use std::alloc::Global;

/// Makes of what is live after a statement what is live before it.
#[cycle(back)]
pub fn back(alloc: Global, s: &FStmt, set: &mut Vec<bool>) -> Result<(), NoMemory>
    ensures { OnOk result (set.new.items ≡ (visit s.now).back set.old.items) }
{
    match s {
        FStmt::Lit(x, _) => mark(set, *x, false),
        FStmt::Copy(x, y) | FStmt::Load(_, x, y) | FStmt::Table(_, x, _, y) => {
            mark(set, *x, false);
            mark(set, *y, true);
        }
        FStmt::Bin(_, x, y, z) => {
            mark(set, *x, false);
            mark(set, *z, true);
            mark(set, *y, true);
        }
        FStmt::Store(_, x, y) => {
            mark(set, *y, true);
            mark(set, *x, true);
        }
        FStmt::If(x, a, b) => {
            let mut second = copy(alloc, set.as_slice())?;
            back_all(alloc, b.as_slice(), &mut second)?;
            back_all(alloc, a.as_slice(), set)?;
            *set = union(alloc, set.as_slice(), second.as_slice())?;
            mark(set, *x, true);
        }
        FStmt::While(a, x, b) => {
            let mut turn = empty(alloc, set.len())?;
            back_all(alloc, b.as_slice(), &mut turn)?;
            *set = union(alloc, set.as_slice(), turn.as_slice())?;
            mark(set, *x, true);
            back_all(alloc, a.as_slice(), set)?;
        }
    }
    Ok(())
}

/// The same of statements one after another.
#[cycle(back)]
pub fn back_all(alloc: Global, body: &[FStmt], set: &mut Vec<bool>) -> Result<(), NoMemory>
    ensures { OnOk result (set.new.items ≡ (code_visit body.now).back set.old.items) }
{
    let mut i = body.len();
    while i > 0 {
        i -= 1;
        back(alloc, &body[i], set)?;
    }
    Ok(())
}

/// Makes of what is live after a statement what is live before it, and keeps what is to be kept on the way.
#[cycle(walk)]
pub fn walk(
    alloc: Global,
    s: &FStmt,
    set: &mut Vec<bool>,
    watch: &mut Watch,
) -> Result<(), NoMemory>
    ensures live { OnOk result (set.new.items ≡ (visit s.now).back set.old.items) }
    ensures kept { OnOk result (watch.new ≡ (visit s.now).note set.old.items watch.old) }
{
    match s {
        FStmt::Lit(x, _)
        | FStmt::Copy(x, _)
        | FStmt::Bin(_, x, _, _)
        | FStmt::Load(_, x, _)
        | FStmt::Table(_, x, _, _) => {
            see(alloc, Some(*x), set.as_slice(), watch)?;
            back(alloc, s, set)?;
        }
        FStmt::Store(_, _, _) => {
            see(alloc, None, set.as_slice(), watch)?;
            back(alloc, s, set)?;
        }
        FStmt::If(x, a, b) => {
            let after = copy(alloc, set.as_slice())?;
            let mut second = copy(alloc, set.as_slice())?;
            walk_all(alloc, b.as_slice(), &mut second, watch)?;
            walk_all(alloc, a.as_slice(), set, watch)?;
            see(alloc, None, after.as_slice(), watch)?;
            *set = union(alloc, set.as_slice(), second.as_slice())?;
            mark(set, *x, true);
        }
        FStmt::While(a, x, b) => {
            let after = copy(alloc, set.as_slice())?;
            back(alloc, s, set)?;
            let mut turn = copy(alloc, set.as_slice())?;
            walk_all(alloc, b.as_slice(), &mut turn, watch)?;
            let mut test = union(alloc, after.as_slice(), turn.as_slice())?;
            mark(&mut test, *x, true);
            walk_all(alloc, a.as_slice(), &mut test, watch)?;
            see(alloc, None, after.as_slice(), watch)?;
        }
    }
    Ok(())
}

/// The same of statements one after another.
#[cycle(walk)]
pub fn walk_all(
    alloc: Global,
    body: &[FStmt],
    set: &mut Vec<bool>,
    watch: &mut Watch,
) -> Result<(), NoMemory>
    ensures live { OnOk result (set.new.items ≡ (code_visit body.now).back set.old.items) }
    ensures kept { OnOk result (watch.new ≡ (code_visit body.now).note set.old.items watch.old) }
{
    let mut i = body.len();
    while i > 0 {
        i -= 1;
        walk(alloc, &body[i], set, watch)?;
    }
    Ok(())
}
