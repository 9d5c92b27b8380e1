//! Expressions.
ghost use Rattle.std.specs.Prelude.{◌≡◌, map};
ghost use Rattle.model_reader.specs.Yields.{Yields};
ghost use Rattle.model_reader.specs.Parts as parts;
ghost use Rattle.model_reader.specs.Expressions as spec;
ghost use Rattle.model_reader.specs.Reading.{reading};

use crate::names::name_at;
use crate::numbers::read_number;
use crate::parts::{
    Misread, finished, form_at, headed, kids_of, known, missing, place_of, text_of, wrong,
};
use crate::words::{ExprWord, expr_word, scalar_of};
use model_syntax::{Expr, Scalar};
use rup_base::{Box, List, Name, Place, number_of};
use std::alloc::Global;
use sx_text::Sx;

/// The expression that a form is.
#[cycle(expr)]
pub fn read_expr(alloc: Global, form: &Sx) -> Result<Expr, Misread>
    ensures { Yields result (spec.expr (reading form.now)) }
{
    if let Sx::Atom(p, text) = form {
        return atom_expr(alloc, *p, text.as_slice());
    }
    let (p, kids) = kids_of(form)?;
    let (head, args) = headed(p, kids)?;
    let word = known(p, expr_word(head))?;
    worded_expr(alloc, word, p, args)
}

fn atom_expr(alloc: Global, p: Place, text: &[u8]) -> Result<Expr, Misread>
    ensures { Yields result (spec.atom_expr p text.now) }
{
    if let Some(number) = number_of(text) {
        return Ok(Expr::Lit(number));
    }
    match Name::read(alloc, text)? {
        Some(x) => Ok(Expr::Var(x)),
        None => Err(wrong(p)),
    }
}

#[cycle(expr)]
fn worded_expr(alloc: Global, word: ExprWord, p: Place, args: &[Sx]) -> Result<Expr, Misread>
    ensures { Yields result (spec.worded_expr word p (map reading args.now)) }
{
    match word {
        ExprWord::Bin(op) => {
            let (left, right) = two_of(alloc, p, args)?;
            Ok(Expr::Bin(op, left, right))
        }
        ExprWord::Test(cmp) => {
            let (left, right) = two_of(alloc, p, args)?;
            Ok(Expr::Test(cmp, left, right))
        }
        ExprWord::Length => length_of(alloc, p, args),
        ExprWord::Not => Ok(Expr::Not(one_of(alloc, p, args)?)),
        ExprWord::Both => {
            let (left, right) = two_of(alloc, p, args)?;
            Ok(Expr::Both(left, right))
        }
        ExprWord::Either => {
            let (left, right) = two_of(alloc, p, args)?;
            Ok(Expr::Either(left, right))
        }
        ExprWord::ToWord => Ok(Expr::ToWord(one_of(alloc, p, args)?)),
        ExprWord::ToByte => Ok(Expr::ToByte(one_of(alloc, p, args)?)),
        ExprWord::Get => get_of(alloc, p, args),
        ExprWord::Tab => tab_of(alloc, p, args),
    }
}

#[cycle(expr)]
fn one_of(alloc: Global, p: Place, args: &[Sx]) -> Result<Box<Expr>, Misread>
    ensures { Yields result (spec.one_of p (map reading args.now)) }
{
    let operand = operand_at(alloc, p, args, 0)?;
    finished(operand, args, 1)
}

#[cycle(expr)]
fn two_of(alloc: Global, p: Place, args: &[Sx]) -> Result<(Box<Expr>, Box<Expr>), Misread>
    ensures { Yields result (spec.two_of p (map reading args.now)) }
{
    let left = operand_at(alloc, p, args, 0)?;
    let right = operand_at(alloc, p, args, 1)?;
    finished((left, right), args, 2)
}

/// The form with a number in the list at a place, as an expression that is part of another.
#[cycle(expr)]
fn operand_at(alloc: Global, p: Place, args: &[Sx], i: usize) -> Result<Box<Expr>, Misread>
    ensures { Yields result (parts.nth i spec.expr p (map reading args.now)) }
{
    let operand = read_expr(alloc, form_at(p, args, i)?)?;
    Ok(Box::new(alloc, operand)?)
}

/// The form with a number in the list at a place, as an expression.
pub fn expr_at(alloc: Global, p: Place, args: &[Sx], i: usize) -> Result<Expr, Misread>
    ensures { Yields result (parts.nth i spec.expr p (map reading args.now)) }
{
    read_expr(alloc, form_at(p, args, i)?)
}

fn length_of(alloc: Global, p: Place, args: &[Sx]) -> Result<Expr, Misread>
    ensures { Yields result (spec.length_of p (map reading args.now)) }
{
    let a = name_at(alloc, p, args, 0)?;
    finished(Expr::Length(a), args, 1)
}

#[cycle(expr)]
fn get_of(alloc: Global, p: Place, args: &[Sx]) -> Result<Expr, Misread>
    ensures { Yields result (spec.get_of p (map reading args.now)) }
{
    let a = name_at(alloc, p, args, 0)?;
    let index = operand_at(alloc, p, args, 1)?;
    finished(Expr::Get(a, index), args, 2)
}

#[cycle(expr)]
fn tab_of(alloc: Global, p: Place, args: &[Sx]) -> Result<Expr, Misread>
    ensures { Yields result (spec.tab_of p (map reading args.now)) }
{
    let scalar = table_scalar(p, args)?;
    let entries = table_entries(alloc, scalar, p, args)?;
    let index = operand_at(alloc, p, args, 2)?;
    finished(Expr::Tab(scalar, entries, index), args, 3)
}

/// The type that a table names first.
fn table_scalar(p: Place, args: &[Sx]) -> Result<Scalar, Misread>
    ensures { Yields result (parts.nth 0 spec.table_scalar p (map reading args.now)) }
{
    let form = form_at(p, args, 0)?;
    known(place_of(form), scalar_of(text_of(form)))
}

/// The entries of a table of this type.
fn table_entries(alloc: Global, scalar: Scalar, p: Place, args: &[Sx]) -> Result<List<u32>, Misread>
    ensures { Yields result (parts.nth 1 (spec.entries scalar) p (map reading args.now)) }
{
    read_entries(alloc, scalar, form_at(p, args, 1)?)
}

/// The entry fits the type that the table names.
fn fits(scalar: Scalar, entry: u32) -> bool
    ensures { result ≡ spec.fits scalar entry }
{
    match scalar {
        Scalar::Word => true,
        Scalar::Byte => entry <= 255,
        Scalar::Flag => false,
    }
}

fn read_entry(scalar: Scalar, form: &Sx) -> Result<u32, Misread>
    ensures { Yields result (spec.entry scalar (reading form.now)) }
{
    let entry = read_number(form)?;
    if fits(scalar, entry) {
        Ok(entry)
    } else {
        Err(wrong(place_of(form)))
    }
}

fn each_entry(alloc: Global, scalar: Scalar, forms: &[Sx]) -> Result<List<u32>, Misread>
    ensures { Yields result (parts.each (spec.entry scalar) (map reading forms.now)) }
{
    let mut entries = List::new(alloc);
    for form in forms {
        entries.push(read_entry(scalar, form)?)?;
    }
    Ok(entries)
}

fn read_entries(alloc: Global, scalar: Scalar, form: &Sx) -> Result<List<u32>, Misread>
    ensures { Yields result (spec.entries scalar (reading form.now)) }
{
    let (p, forms) = kids_of(form)?;
    match forms {
        [] => Err(missing(p)),
        [_, ..] => each_entry(alloc, scalar, forms),
    }
}
