//! Calls of a context, one after the other, as `fresh 9; bind x 2 byte 0 1*s1; scalars | (model ..)`: what each answers.
ghost use Rattle.std.specs.Prelude.{◌≡◌, ◌<◌, take, length, IsTrue};
ghost use Rattle.std.specs.Option.{ForSome};
ghost use Rattle.sym_heap.specs.Context.{own};

use crate::contexts::{
    add_facts, freedom, put_arrays, put_context, put_facts, put_scalars, put_tops, start_of,
};
use crate::forms::known;
use model_syntax::Scalar;
use row_cases::{Fault, number_of};
use rup_base::Name;
use std::alloc::Global;
use sym_heap::{Ctx, Mark};

/// A context, the copy that it goes back to, the start of a block, and the ends of blocks.
#[derive(Drop)]
struct Walk {
    context: Ctx,
    copy: Option<Ctx>,
    start: Option<Mark>,
    ends: Vec<Mark>,
}

/// The answers to the calls.
pub fn answers(alloc: Global, line: &str) -> Result<String, Fault> {
    let (calls, text) = line.split_once(" | ").unwrap_or((line, ""));
    let mut walk = Walk {
        context: start_of(alloc, text)?,
        copy: None,
        start: None,
        ends: Vec::new(alloc),
    };
    let mut answers = String::new(alloc);
    for call in calls.split("; ") {
        if !answers.is_empty() {
            answers.push_str("; ")?;
        }
        put_answer(alloc, &mut answers, &mut walk, call)?;
    }
    Ok(answers)
}

fn put_answer(
    alloc: Global,
    answers: &mut String,
    walk: &mut Walk,
    call: &str,
) -> Result<(), Fault> {
    match call.as_bytes() {
        b"all" => put_context(answers, &walk.context),
        b"scalars" => put_scalars(answers, &walk.context),
        b"arrays" => put_arrays(answers, &walk.context),
        b"facts" => put_facts(answers, &walk.context),
        b"tops" => put_tops(answers, &walk.context),
        b"count" => put_number(answers, walk.context.facts().len()),
        b"copy" | b"back" | b"mark" | b"end" => {
            block(walk, call)?;
            Ok(answers.push_str("done")?)
        }
        _ => put_change(alloc, answers, walk, call),
    }
}

fn put_number(answers: &mut String, number: usize) -> Result<(), Fault> {
    write!(answers, "{number}")?;
    Ok(())
}

/// A copy, or the start or the end of a block.
fn block(walk: &mut Walk, call: &str) -> Result<(), Fault> {
    match call.as_bytes() {
        b"copy" => walk.copy = Some(walk.context.copy()?),
        b"mark" => walk.start = Some(walk.context.mark()?),
        b"end" => {
            let Some(start) = walk.start.take() else {
                return Err(Fault::BadLine);
            };
            let end = walk.context.end_block(start);
            walk.ends.push(end)?;
        }
        _ => {
            let Some(copy) = walk.copy.take() else {
                return Err(Fault::BadLine);
            };
            go_back(&mut walk.context, copy)?;
        }
    }
    Ok(())
}

fn go_back(context: &mut Ctx, old: Ctx) -> Result<(), Fault> {
    if !begins(context.tops(), old.tops()) {
        return Err(Fault::BadLine);
    }
    context.back_to(old);
    Ok(())
}

/// Whether these are the first of the numbers.
#[tactic(auto, using(crate::proofs::Beginnings::first_taken))]
fn begins(numbers: &[u32], first: &[u32]) -> bool
    ensures { IsTrue result → take (length first.now) numbers.now ≡ first.now }
{
    numbers.starts_with(first)
}

/// A call with operands.
fn put_change(
    alloc: Global,
    answers: &mut String,
    walk: &mut Walk,
    call: &str,
) -> Result<(), Fault> {
    let (word, rest) = call.split_once(' ').unwrap_or((call, ""));
    match word.as_bytes() {
        b"fresh" => put_fresh(answers, &mut walk.context, rest),
        b"many" => put_many(answers, &mut walk.context, rest),
        b"over" => {
            take_over(alloc, &mut walk.context, walk.ends.as_slice(), rest)?;
            Ok(answers.push_str("done")?)
        }
        _ => {
            let answer = change(alloc, &mut walk.context, word, rest)?;
            Ok(answers.push_str(answer)?)
        }
    }
}

/// So many facts, and how many of them there is room for.
fn put_many(answers: &mut String, context: &mut Ctx, count: &str) -> Result<(), Fault> {
    let taken = add_facts(context, number_of(count)?)?;
    write!(answers, "{taken}")?;
    Ok(())
}

/// The number of a further symbol, as `s1`, or `none`.
fn put_fresh(answers: &mut String, context: &mut Ctx, top: &str) -> Result<(), Fault> {
    match context.fresh(number_of(top)?)? {
        Some(symbol) => write!(answers, "s{symbol}")?,
        None => answers.push_str("none")?,
    }
    Ok(())
}

/// The listed arrays take over what they are at the first end and the last.
fn take_over(alloc: Global, context: &mut Ctx, ends: &[Mark], names: &str) -> Result<(), Fault> {
    let mut listed = Vec::new(alloc);
    for name in names.split_whitespace() {
        listed.push(name_of(alloc, name)?)?;
    }
    match (ends.first(), ends.last()) {
        (Some(one), Some(two)) => Ok(context.take_over(listed.as_slice(), one, two)?),
        _ => Err(Fault::BadLine),
    }
}

/// A call that answers in a word.
fn change(alloc: Global, context: &mut Ctx, word: &str, rest: &str) -> Result<&'static str, Fault> {
    match word.as_bytes() {
        b"bind" | b"set" => place(alloc, context, word, rest),
        b"fact" => Ok(yes(context.add_fact(known(rest)?)?)),
        b"reserve" => {
            context.reserve_local(number_of(rest)?)?;
            Ok("done")
        }
        b"free" => {
            let (local, name) = rest.split_once(' ').unwrap_or((rest, ""));
            freedom(alloc, context, local, name)
        }
        _ => array(alloc, context, word, rest),
    }
}

/// `bind` or `set` of a name, a local, a type and a form, as `x 2 byte 0 1*s1`.
fn place(alloc: Global, context: &mut Ctx, word: &str, rest: &str) -> Result<&'static str, Fault> {
    let (name, rest) = rest.split_once(' ').unwrap_or((rest, ""));
    let (local, rest) = rest.split_once(' ').unwrap_or((rest, ""));
    let (kind, form) = rest.split_once(' ').unwrap_or((rest, ""));
    let name = name_of(alloc, name)?;
    let local = number_of(local)?;
    let kind = kind_of(kind)?;
    let form = known(form)?;
    match word.as_bytes() {
        b"bind" => Ok(yes(context.bind(&name, local, form, kind)?)),
        _ => {
            context.set_scalar(&name, local, form, kind)?;
            Ok("done")
        }
    }
}

/// A call on an array.
fn array(alloc: Global, context: &mut Ctx, word: &str, rest: &str) -> Result<&'static str, Fault> {
    let (name, new) = rest.split_once(' ').unwrap_or((rest, rest));
    let name = name_of(alloc, name)?;
    let new = name_of(alloc, new)?;
    match word.as_bytes() {
        b"move" => Ok(yes(context.move_clause(&name, &new)?)),
        b"drop" => Ok(yes(context.drop_clause(&name))),
        b"wrote" => wrote(context, &name),
        _ => Err(Fault::BadLine),
    }
}

fn wrote(context: &mut Ctx, name: &Name) -> Result<&'static str, Fault> {
    if !can_count(context, name) {
        return Err(Fault::BadLine);
    }
    Ok(yes(context.wrote(name)))
}

/// Whether a further write to the array can be counted, where there is one.
fn can_count(context: &Ctx, name: &Name) -> bool
    ensures { IsTrue result → ForSome (own context.now name.now) (λ k. k.writes < 4294967295) }
{
    match context.own(name) {
        Some(clause) => clause.writes < u32::MAX,
        None => true,
    }
}

fn yes(answer: bool) -> &'static str {
    if answer { "yes" } else { "no" }
}

fn name_of(alloc: Global, text: &str) -> Result<Name, Fault> {
    match Name::read(alloc, text.as_bytes())? {
        Some(name) => Ok(name),
        None => Err(Fault::BadLine),
    }
}

fn kind_of(text: &str) -> Result<Scalar, Fault> {
    match text.as_bytes() {
        b"word" => Ok(Scalar::Word),
        b"byte" => Ok(Scalar::Byte),
        b"flag" => Ok(Scalar::Flag),
        _ => Err(Fault::BadLine),
    }
}
