//! Requirements and kept facts.
ghost use Rattle.std.specs.Prelude.{◌≡◌, map};
ghost use Rattle.model_reader.specs.Yields.{Yields};
ghost use Rattle.model_reader.specs.Parts as parts;
ghost use Rattle.model_reader.specs.Facts as spec;
ghost use Rattle.model_reader.specs.Reading.{reading};

use crate::numbers::number_at;
use crate::parts::{Misread, behind, beside, finished, form_at, headed, kids_of, wrong};
use crate::words::is;
use model_syntax::{Le, Lin};
use rup_base::{Box, List, Name, Place, number_of};
use std::alloc::Global;
use sx_text::Sx;

#[cycle(side)]
pub fn read_side(alloc: Global, form: &Sx) -> Result<Lin, Misread>
    ensures { Yields result (spec.side (reading form.now)) }
{
    if let Sx::Atom(p, text) = form {
        return atom_side(alloc, *p, text.as_slice());
    }
    let (p, kids) = kids_of(form)?;
    let (word, args) = headed(p, kids)?;
    if is(word, b"add") {
        sum_of(alloc, p, args)
    } else if is(word, b"mul") {
        scale_of(alloc, p, args)
    } else {
        Err(wrong(p))
    }
}

fn atom_side(alloc: Global, p: Place, text: &[u8]) -> Result<Lin, Misread>
    ensures { Yields result (spec.atom_side p text.now) }
{
    if let Some(number) = number_of(text) {
        return Ok(Lin::Const(number));
    }
    match Name::read(alloc, text)? {
        Some(x) => Ok(Lin::Var(x)),
        None => Err(wrong(p)),
    }
}

#[cycle(side)]
fn sum_of(alloc: Global, p: Place, args: &[Sx]) -> Result<Lin, Misread>
    ensures { Yields result (spec.sum_of p (map reading args.now)) }
{
    let left = part_at(alloc, p, args, 0)?;
    let right = part_at(alloc, p, args, 1)?;
    finished(Lin::Sum(left, right), args, 2)
}

#[cycle(side)]
fn scale_of(alloc: Global, p: Place, args: &[Sx]) -> Result<Lin, Misread>
    ensures { Yields result (spec.scale_of p (map reading args.now)) }
{
    let factor = number_at(p, args, 0)?;
    let part = part_at(alloc, p, args, 1)?;
    finished(Lin::Scale(factor, part), args, 2)
}

/// The form with a number in the list at a place, as a side that is part of another.
#[cycle(side)]
fn part_at(alloc: Global, p: Place, args: &[Sx], i: usize) -> Result<Box<Lin>, Misread>
    ensures { Yields result (parts.nth i spec.side p (map reading args.now)) }
{
    let part = read_side(alloc, form_at(p, args, i)?)?;
    Ok(Box::new(alloc, part)?)
}

fn side_at(alloc: Global, p: Place, args: &[Sx], i: usize) -> Result<Lin, Misread>
    ensures { Yields result (parts.nth i spec.side p (map reading args.now)) }
{
    read_side(alloc, form_at(p, args, i)?)
}

/// `(le L L)`: the requirement that a side is at most another.
pub fn read_fact(alloc: Global, form: &Sx) -> Result<Le, Misread>
    ensures { Yields result (spec.fact (reading form.now)) }
{
    let (p, kids) = kids_of(form)?;
    let args = behind(b"le", p, kids)?;
    let low = side_at(alloc, p, args, 0)?;
    let (low, high) = beside(low, side_at(alloc, p, args, 1))?;
    finished(Le { low, high }, args, 2)
}

fn each_fact(alloc: Global, forms: &[Sx]) -> Result<List<Le>, Misread>
    ensures { Yields result (parts.each spec.fact (map reading forms.now)) }
{
    let mut facts = List::new(alloc);
    for form in forms {
        facts.push(read_fact(alloc, form)?)?;
    }
    Ok(facts)
}

/// A word, and then each form as a fact.
pub fn facts_of(alloc: Global, word: &[u8], p: Place, kids: &[Sx]) -> Result<List<Le>, Misread>
    ensures { Yields result (spec.facts_of word.now p (map reading kids.now)) }
{
    each_fact(alloc, behind(word, p, kids)?)
}
