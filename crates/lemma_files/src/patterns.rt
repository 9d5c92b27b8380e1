//! Patterns.
ghost use Rattle.std.specs.Prelude.{◌≡◌, map, IfOk};
ghost use Rattle.model_reader.specs.Yields.{Yields};
ghost use Rattle.model_reader.specs.Parts as model;
ghost use Rattle.model_reader.specs.Expressions as expressions;
ghost use Rattle.model_reader.specs.Reading.{reading};
ghost use Rattle.lemma_files.specs.Patterns as spec;
ghost use Rattle.lemma_files.specs.Reading.{part};

use crate::parts::{end, form_at, headed, kids_of};
use crate::terms::Pattern;
use crate::words::{Word, scalar_of, word_of};
use model_reader::{Misread, known, missing, read_name, read_number, wrong};
use model_syntax::Scalar;
use rup_base::{Box, List, Name, NoMemory, Place, number_of};
use std::alloc::Global;
use sx_text::Sx;

/// The pattern that a form is.
#[cycle(pattern)]
pub(crate) fn read_pattern(alloc: Global, form: &Sx) -> Result<Pattern, Misread>
    ensures { Yields result (part form.now).pattern }
{
    if let Sx::Atom(p, text) = form {
        return atom_pattern(alloc, *p, text.as_slice());
    }
    let (p, kids) = kids_of(form)?;
    let (head, args) = headed(p, kids)?;
    let word = known(p, word_of(head))?;
    worded_pattern(alloc, word, p, args)
}

fn atom_pattern(alloc: Global, p: Place, text: &[u8]) -> Result<Pattern, Misread>
    ensures { Yields result (spec.atom_pattern p text.now) }
{
    if let Some(number) = number_of(text) {
        return Ok(Pattern::Lit(number));
    }
    match Name::read(alloc, text)? {
        Some(x) => Ok(Pattern::Var(x)),
        None => Ok(Pattern::Hole(known(p, hole_of(alloc, text)?)?)),
    }
}

/// The name behind a `?`.
fn hole_of(alloc: Global, text: &[u8]) -> Result<Option<Name>, NoMemory>
    ensures { IfOk result (λ hole. hole ≡ spec.hole_of text.now) }
{
    match text {
        [] => Ok(None),
        [first, name @ ..] => {
            if *first == b'?' {
                Name::read(alloc, name)
            } else {
                Ok(None)
            }
        }
    }
}

#[cycle(pattern)]
fn worded_pattern(alloc: Global, word: Word, p: Place, args: &[Sx]) -> Result<Pattern, Misread>
    ensures { Yields result (spec.worded_pattern word p (map part args.now)) }
{
    match word {
        Word::Bin(op) => {
            let (left, right) = two_of(alloc, p, args)?;
            Ok(Pattern::Bin(op, left, right))
        }
        Word::Test(cmp) => {
            let (left, right) = two_of(alloc, p, args)?;
            Ok(Pattern::Test(cmp, left, right))
        }
        Word::Length => length_of(alloc, p, args),
        Word::Not => Ok(Pattern::Not(one_of(alloc, p, args)?)),
        Word::Both => {
            let (left, right) = two_of(alloc, p, args)?;
            Ok(Pattern::Both(left, right))
        }
        Word::Either => {
            let (left, right) = two_of(alloc, p, args)?;
            Ok(Pattern::Either(left, right))
        }
        Word::ToWord => Ok(Pattern::ToWord(one_of(alloc, p, args)?)),
        Word::ToByte => Ok(Pattern::ToByte(one_of(alloc, p, args)?)),
        Word::Get => get_of(alloc, p, args),
        Word::Tab => tab_of(alloc, p, args),
    }
}

#[cycle(pattern)]
fn one_of(alloc: Global, p: Place, args: &[Sx]) -> Result<Box<Pattern>, Misread>
    ensures { Yields result (spec.one_of p (map part args.now)) }
{
    let operand = read_pattern(alloc, form_at(p, args, 0)?)?;
    end(args, 1)?;
    Ok(Box::new(alloc, operand)?)
}

#[cycle(pattern)]
fn two_of(alloc: Global, p: Place, args: &[Sx]) -> Result<(Box<Pattern>, Box<Pattern>), Misread>
    ensures { Yields result (spec.two_of p (map part args.now)) }
{
    let left = read_pattern(alloc, form_at(p, args, 0)?)?;
    let right = read_pattern(alloc, form_at(p, args, 1)?)?;
    end(args, 2)?;
    let left = Box::new(alloc, left)?;
    let right = Box::new(alloc, right)?;
    Ok((left, right))
}

fn length_of(alloc: Global, p: Place, args: &[Sx]) -> Result<Pattern, Misread>
    ensures { Yields result (spec.length_of p (map part args.now)) }
{
    let a = read_name(alloc, form_at(p, args, 0)?)?;
    end(args, 1)?;
    Ok(Pattern::Length(a))
}

#[cycle(pattern)]
fn get_of(alloc: Global, p: Place, args: &[Sx]) -> Result<Pattern, Misread>
    ensures { Yields result (spec.get_of p (map part args.now)) }
{
    let a = read_name(alloc, form_at(p, args, 0)?)?;
    let index = read_pattern(alloc, form_at(p, args, 1)?)?;
    end(args, 2)?;
    Ok(Pattern::Get(a, Box::new(alloc, index)?))
}

#[cycle(pattern)]
fn tab_of(alloc: Global, p: Place, args: &[Sx]) -> Result<Pattern, Misread>
    ensures { Yields result (spec.tab_of p (map part args.now)) }
{
    let scalar = read_scalar(form_at(p, args, 0)?)?;
    let entries = read_entries(alloc, scalar, form_at(p, args, 1)?)?;
    let index = read_pattern(alloc, form_at(p, args, 2)?)?;
    end(args, 3)?;
    Ok(Pattern::Tab(scalar, entries, Box::new(alloc, index)?))
}

fn read_scalar(form: &Sx) -> Result<Scalar, Misread>
    ensures { Yields result (expressions.table_scalar (reading form.now)) }
{
    known(
        model_reader::place_of(form),
        scalar_of(model_reader::text_of(form)),
    )
}

/// The entry fits the type that the table names.
fn is_entry(scalar: Scalar, entry: u32) -> bool
    ensures { result ≡ expressions.fits scalar entry }
{
    match scalar {
        Scalar::Word => true,
        Scalar::Byte => entry <= 255,
        Scalar::Flag => false,
    }
}

fn read_entry(scalar: Scalar, form: &Sx) -> Result<u32, Misread>
    ensures { Yields result (expressions.entry scalar (reading form.now)) }
{
    let entry = read_number(form)?;
    if is_entry(scalar, entry) {
        Ok(entry)
    } else {
        Err(wrong(model_reader::place_of(form)))
    }
}

fn each_entry(alloc: Global, scalar: Scalar, forms: &[Sx]) -> Result<List<u32>, Misread>
    ensures { Yields result (model.each (expressions.entry scalar) (map reading forms.now)) }
{
    let mut entries = List::new(alloc);
    for form in forms {
        entries.push(read_entry(scalar, form)?)?;
    }
    Ok(entries)
}

fn read_entries(alloc: Global, scalar: Scalar, form: &Sx) -> Result<List<u32>, Misread>
    ensures { Yields result (expressions.entries scalar (reading form.now)) }
{
    let (p, forms) = model_reader::kids_of(form)?;
    match forms {
        [] => Err(missing(p)),
        [_, ..] => each_entry(alloc, scalar, forms),
    }
}
