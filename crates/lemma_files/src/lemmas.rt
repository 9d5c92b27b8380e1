//! Lemmas and their files.
ghost use Rattle.std.specs.Prelude.{◌≡◌, map};
ghost use Rattle.model_reader.specs.Parts as lists;
ghost use Rattle.model_reader.specs.Yields.{Yields};
ghost use Rattle.lemma_files.specs.Parts as parts;
ghost use Rattle.lemma_files.specs.Lemmas as spec;
ghost use Rattle.lemma_files.specs.Reading.{part};

use crate::parts::{behind, behind_two, end, form_at, headed, kids_of, place_of, text_of, up_to};
use crate::patterns::read_pattern;
use crate::terms::{Lemma, Shape};
use crate::words::is;
use model_reader::{Misread, known, missing, read_fact, read_name, wrong};
use model_syntax::Le;
use rup_base::{List, Name, Place, number_of};
use std::alloc::Global;
use sx_text::Sx;

/// The greatest number of steps.
const MOST_STEPS: usize = 8;

fn read_number(form: &Sx) -> Result<u32, Misread>
    ensures { Yields result (parts.number (part form.now)) }
{
    known(place_of(form), number_of(text_of(form)))
}

fn each_number(alloc: Global, forms: &[Sx]) -> Result<List<u32>, Misread>
    ensures { Yields result (lists.each parts.number (map part forms.now)) }
{
    let mut numbers = List::new(alloc);
    for form in forms {
        numbers.push(read_number(form)?)?;
    }
    Ok(numbers)
}

fn some_numbers(alloc: Global, p: Place, forms: &[Sx]) -> Result<List<u32>, Misread>
    ensures { Yields result (lists.some parts.number p (map part forms.now)) }
{
    match forms {
        [] => Err(missing(p)),
        [_, ..] => each_number(alloc, forms),
    }
}

/// `(steps number+)`
fn read_steps(alloc: Global, form: &Sx) -> Result<List<u32>, Misread>
    ensures { Yields result (part form.now).steps }
{
    let (p, kids) = kids_of(form)?;
    let numbers = behind(b"steps", p, kids)?;
    let steps = some_numbers(alloc, p, up_to(numbers, MOST_STEPS))?;
    end(numbers, MOST_STEPS)?;
    Ok(steps)
}

/// The one name of a shape.
fn one_name(alloc: Global, p: Place, args: &[Sx]) -> Result<Name, Misread>
    ensures { Yields result (spec.one_name p (map part args.now)) }
{
    let x = read_name(alloc, form_at(p, args, 0)?)?;
    end(args, 1)?;
    Ok(x)
}

fn worded_shape(alloc: Global, word: &[u8], p: Place, args: &[Sx]) -> Result<Shape, Misread>
    ensures { Yields result (spec.worded_shape word.now p (map part args.now)) }
{
    if is(word, b"let") {
        Ok(Shape::Let(one_name(alloc, p, args)?))
    } else if is(word, b"put") {
        Ok(Shape::Put(one_name(alloc, p, args)?))
    } else if is(word, b"move") {
        Ok(Shape::Move(one_name(alloc, p, args)?))
    } else if is(word, b"map") {
        Ok(Shape::Map(one_name(alloc, p, args)?))
    } else if is(word, b"fold") {
        Ok(Shape::Fold(one_name(alloc, p, args)?))
    } else if is(word, b"for") {
        Ok(Shape::For(one_name(alloc, p, args)?))
    } else if is(word, b"if") {
        end(args, 0)?;
        Ok(Shape::If)
    } else {
        Err(wrong(p))
    }
}

fn read_shape(alloc: Global, form: &Sx) -> Result<Shape, Misread>
    ensures { Yields result (part form.now).shape }
{
    let (p, kids) = kids_of(form)?;
    let (word, args) = headed(p, kids)?;
    worded_shape(alloc, word, p, args)
}

fn fact_of(alloc: Global, form: &Sx) -> Result<Le, Misread>
    ensures { Yields result (parts.fact (part form.now)) }
{
    read_fact(alloc, form)
}

fn each_fact(alloc: Global, forms: &[Sx]) -> Result<List<Le>, Misread>
    ensures { Yields result (lists.each parts.fact (map part forms.now)) }
{
    let mut facts = List::new(alloc);
    for form in forms {
        facts.push(fact_of(alloc, form)?)?;
    }
    Ok(facts)
}

fn some_facts(alloc: Global, p: Place, forms: &[Sx]) -> Result<List<Le>, Misread>
    ensures { Yields result (lists.some parts.fact p (map part forms.now)) }
{
    match forms {
        [] => Err(missing(p)),
        [_, ..] => each_fact(alloc, forms),
    }
}

/// `(rewrite NAME PATTERN (steps number+))`
fn rewrite_of(alloc: Global, p: Place, args: &[Sx]) -> Result<Lemma, Misread>
    ensures { Yields result (spec.rewrite_of p (map part args.now)) }
{
    let name = read_name(alloc, form_at(p, args, 0)?)?;
    let pattern = read_pattern(alloc, form_at(p, args, 1)?)?;
    let steps = read_steps(alloc, form_at(p, args, 2)?)?;
    end(args, 3)?;
    Ok(Lemma::Rewrite(name, pattern, steps))
}

/// `(note NAME SHAPE C+)`
fn note_of(alloc: Global, p: Place, args: &[Sx]) -> Result<Lemma, Misread>
    ensures { Yields result (spec.note_of p (map part args.now)) }
{
    let name = read_name(alloc, form_at(p, args, 0)?)?;
    let shape = read_shape(alloc, form_at(p, args, 1)?)?;
    let facts = some_facts(alloc, p, behind_two(args))?;
    Ok(Lemma::Note(name, shape, facts))
}

fn read_lemma(alloc: Global, form: &Sx) -> Result<Lemma, Misread>
    ensures { Yields result (part form.now).lemma }
{
    let (p, kids) = kids_of(form)?;
    let (word, args) = headed(p, kids)?;
    if is(word, b"rewrite") {
        rewrite_of(alloc, p, args)
    } else if is(word, b"note") {
        note_of(alloc, p, args)
    } else {
        Err(wrong(p))
    }
}

fn each_lemma(alloc: Global, forms: &[Sx]) -> Result<List<Lemma>, Misread>
    ensures { Yields result (lists.each spec.lemma (map part forms.now)) }
{
    let mut lemmas = List::new(alloc);
    for form in forms {
        lemmas.push(read_lemma(alloc, form)?)?;
    }
    Ok(lemmas)
}

/// `(lemmas LEMMA*)`
fn read_file(alloc: Global, form: &Sx) -> Result<List<Lemma>, Misread>
    ensures { Yields result (part form.now).file }
{
    let (p, kids) = kids_of(form)?;
    each_lemma(alloc, behind(b"lemmas", p, kids)?)
}

/// The lemmas of a text's forms.
pub(crate) fn whole(alloc: Global, p: Place, forms: &[Sx]) -> Result<List<Lemma>, Misread>
    ensures { Yields result (spec.whole p (map part forms.now)) }
{
    let lemmas = read_file(alloc, form_at(p, forms, 0)?)?;
    end(forms, 1)?;
    Ok(lemmas)
}
