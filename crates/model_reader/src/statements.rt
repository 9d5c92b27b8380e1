//! Statements and blocks.
ghost use Rattle.std.specs.Prelude.{◌≡◌, ◌<◌, ◌^◌, map};
ghost use Rattle.model_reader.specs.Yields.{Yields};
ghost use Rattle.model_reader.specs.Parts as parts;
ghost use Rattle.model_reader.specs.Statements as spec;
ghost use Rattle.model_reader.specs.Reading.{reading};

use crate::expressions::expr_at;
use crate::facts::facts_of;
use crate::names::{name_at, read_element, read_names};
use crate::parts::{Misread, behind, beside, finished, form_at, headed, kids_of, known};
use crate::words::{StmtWord, stmt_word};
use model_syntax::{Expr, Le, Stmt};
use rup_base::{List, Name, Place};
use std::alloc::Global;
use sx_text::Sx;

fn read_keep(alloc: Global, form: &Sx) -> Result<List<Le>, Misread>
    ensures { Yields result (spec.keep (reading form.now)) }
{
    let (p, kids) = kids_of(form)?;
    facts_of(alloc, b"keep", p, kids)
}

#[cycle(stmt)]
fn read_stmt(alloc: Global, form: &Sx) -> Result<Stmt, Misread>
    ensures { Yields result (spec.stmt (reading form.now)) }
{
    let (p, kids) = kids_of(form)?;
    let (head, args) = headed(p, kids)?;
    match known(p, stmt_word(head))? {
        StmtWord::Let => let_of(alloc, p, args),
        StmtWord::Put => put_of(alloc, p, args),
        StmtWord::Move => move_of(alloc, p, args),
        StmtWord::If => if_of(alloc, p, args),
        StmtWord::For => for_of(alloc, p, args),
        StmtWord::Map => map_of(alloc, p, args),
        StmtWord::Fold => fold_of(alloc, p, args),
    }
}

fn let_of(alloc: Global, p: Place, args: &[Sx]) -> Result<Stmt, Misread>
    ensures { Yields result (spec.let_of p (map reading args.now)) }
{
    let x = name_at(alloc, p, args, 0)?;
    let value = expr_at(alloc, p, args, 1)?;
    finished(Stmt::Let(x, value), args, 2)
}

fn put_of(alloc: Global, p: Place, args: &[Sx]) -> Result<Stmt, Misread>
    ensures { Yields result (spec.put_of p (map reading args.now)) }
{
    let a = name_at(alloc, p, args, 0)?;
    let index = expr_at(alloc, p, args, 1)?;
    let (index, value) = beside(index, expr_at(alloc, p, args, 2))?;
    finished(Stmt::Put(a, index, value), args, 3)
}

fn move_of(alloc: Global, p: Place, args: &[Sx]) -> Result<Stmt, Misread>
    ensures { Yields result (spec.move_of p (map reading args.now)) }
{
    let b = name_at(alloc, p, args, 0)?;
    let a = name_at(alloc, p, args, 1)?;
    let index = expr_at(alloc, p, args, 2)?;
    let (index, value) = beside(index, expr_at(alloc, p, args, 3))?;
    finished(Stmt::Move(b, a, index, value), args, 4)
}

/// The names that a block hands on, from number `i` on, and the facts that are kept.
fn carried(
    alloc: Global,
    p: Place,
    args: &[Sx],
    i: usize,
) -> Result<(List<Name>, List<Le>), Misread>
    requires { i < 2 ^ 32 }
    ensures { Yields result (spec.carried i p (map reading args.now)) }
{
    let names = read_names(alloc, form_at(p, args, i)?)?;
    let keep = read_keep(alloc, form_at(p, args, i + 1)?)?;
    Ok((names, keep))
}

/// What stands before the blocks of an if.
fn choice_of(alloc: Global, p: Place, args: &[Sx]) -> Result<(Expr, List<Name>, List<Le>), Misread>
    ensures { Yields result (spec.choice_of p (map reading args.now)) }
{
    let test = expr_at(alloc, p, args, 0)?;
    let (test, (names, keep)) = beside(test, carried(alloc, p, args, 1))?;
    Ok((test, names, keep))
}

#[cycle(stmt)]
fn if_of(alloc: Global, p: Place, args: &[Sx]) -> Result<Stmt, Misread>
    ensures { Yields result (spec.if_of p (map reading args.now)) }
{
    let choice = choice_of(alloc, p, args)?;
    let (choice, first) = beside(choice, block_at(alloc, p, args, 3))?;
    let ((test, names, keep), second) = beside(choice, block_at(alloc, p, args, 4))?;
    finished(Stmt::If(test, names, keep, first, second), args, 5)
}

/// The name of a loop and its ends.
fn range_of(alloc: Global, p: Place, args: &[Sx]) -> Result<(Name, Expr, Expr), Misread>
    ensures { Yields result (spec.range_of p (map reading args.now)) }
{
    let x = name_at(alloc, p, args, 0)?;
    let low = expr_at(alloc, p, args, 1)?;
    let (low, high) = beside(low, expr_at(alloc, p, args, 2))?;
    Ok((x, low, high))
}

#[cycle(stmt)]
fn for_of(alloc: Global, p: Place, args: &[Sx]) -> Result<Stmt, Misread>
    ensures { Yields result (spec.for_of p (map reading args.now)) }
{
    let range = range_of(alloc, p, args)?;
    let (range, (names, keep)) = beside(range, carried(alloc, p, args, 3))?;
    let ((x, low, high), body) = beside(range, block_at(alloc, p, args, 5))?;
    finished(Stmt::For(x, low, high, names, keep, body), args, 6)
}

/// The form with a number in the list at a place, as the name of an element.
fn element_at(alloc: Global, p: Place, args: &[Sx], i: usize) -> Result<Name, Misread>
    ensures { Yields result (parts.nth i spec.element p (map reading args.now)) }
{
    read_element(alloc, form_at(p, args, i)?)
}

fn map_of(alloc: Global, p: Place, args: &[Sx]) -> Result<Stmt, Misread>
    ensures { Yields result (spec.map_of p (map reading args.now)) }
{
    let a = name_at(alloc, p, args, 0)?;
    let x = element_at(alloc, p, args, 1)?;
    let value = expr_at(alloc, p, args, 2)?;
    finished(Stmt::Map(a, x, value), args, 3)
}

fn fold_of(alloc: Global, p: Place, args: &[Sx]) -> Result<Stmt, Misread>
    ensures { Yields result (spec.fold_of p (map reading args.now)) }
{
    let scalar = name_at(alloc, p, args, 0)?;
    let a = name_at(alloc, p, args, 1)?;
    let x = element_at(alloc, p, args, 2)?;
    let value = expr_at(alloc, p, args, 3)?;
    finished(Stmt::Fold(scalar, a, x, value), args, 4)
}

#[cycle(stmt)]
#[tactic(auto, using(crate::proofs::Nth::size_in))]
fn each_stmt(alloc: Global, forms: &[Sx]) -> Result<List<Stmt>, Misread>
    ensures { Yields result (parts.each spec.stmt (map reading forms.now)) }
{
    let mut stmts = List::new(alloc);
    for form in forms {
        stmts.push(read_stmt(alloc, form)?)?;
    }
    Ok(stmts)
}

/// The form with a number in the list at a place, as a block.
#[cycle(stmt)]
pub fn block_at(alloc: Global, p: Place, args: &[Sx], i: usize) -> Result<List<Stmt>, Misread>
    ensures { Yields result (parts.nth i spec.block p (map reading args.now)) }
{
    read_block(alloc, form_at(p, args, i)?)
}

/// `(do S*)`
#[cycle(stmt)]
fn read_block(alloc: Global, form: &Sx) -> Result<List<Stmt>, Misread>
    ensures { Yields result (spec.block (reading form.now)) }
{
    let (p, kids) = kids_of(form)?;
    each_stmt(alloc, behind(b"do", p, kids)?)
}
