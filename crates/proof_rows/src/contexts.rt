//! Contexts at the start of a model.
use crate::forms::put_form;
use model_reader::read_model;
use model_syntax::Scalar;
use model_types::check_types;
use row_cases::{Fault, number_of, operand};
use rup_base::Name;
use side_certs::Form;
use std::alloc::Global;
use sym_heap::{Clause, Ctx, Held};

/// The context at the start of a well typed model.
pub fn start_of(alloc: Global, text: &str) -> Result<Ctx, Fault> {
    let bytes = operand(alloc, text)?;
    let Ok(model) = read_model(alloc, 1, bytes.as_slice()) else {
        return Err(Fault::BadLine);
    };
    let Ok(typed) = check_types(alloc, model) else {
        return Err(Fault::BadLine);
    };
    Ok(Ctx::start(alloc, typed.model())?)
}

/// The parts of a start: scalars, arrays, facts, tops, and the number of entry symbols.
pub fn started(alloc: Global, text: &str) -> Result<String, Fault> {
    let context = start_of(alloc, text)?;
    let mut line = String::new(alloc);
    put_context(&mut line, &context)?;
    Ok(line)
}

/// Puts the parts of a context behind a line.
pub fn put_context(line: &mut String, context: &Ctx) -> Result<(), Fault> {
    put_scalars(line, context)?;
    line.push_str("; ")?;
    put_arrays(line, context)?;
    line.push_str("; ")?;
    put_facts(line, context)?;
    line.push_str("; ")?;
    put_tops(line, context)?;
    write!(line, "; entries {}", context.entries())?;
    Ok(())
}

pub fn put_scalars(line: &mut String, context: &Ctx) -> Result<(), Fault> {
    line.push_str("scalars")?;
    for held in context.scalars() {
        put_held(line, held)?;
    }
    Ok(())
}

pub fn put_arrays(line: &mut String, context: &Ctx) -> Result<(), Fault> {
    line.push_str("arrays")?;
    for clause in context.clauses() {
        put_clause(line, clause)?;
    }
    Ok(())
}

pub fn put_facts(line: &mut String, context: &Ctx) -> Result<(), Fault> {
    line.push_str("facts")?;
    for fact in context.facts() {
        line.push_str(" [")?;
        put_form(line, fact)?;
        line.push_str("]")?;
    }
    Ok(())
}

pub fn put_tops(line: &mut String, context: &Ctx) -> Result<(), Fault> {
    line.push_str("tops")?;
    for top in context.tops() {
        write!(line, " {top}")?;
    }
    Ok(())
}

fn put_name(line: &mut String, name: &Name) -> Result<(), Fault> {
    for byte in name.text() {
        line.push(char::from(*byte))?;
    }
    Ok(())
}

/// A scalar: its name, local, type and form.
fn put_held(line: &mut String, held: &Held) -> Result<(), Fault> {
    line.push_str(" ")?;
    put_name(line, &held.name)?;
    let kind = match held.kind {
        Scalar::Word => "word",
        Scalar::Byte => "byte",
        Scalar::Flag => "flag",
    };
    write!(line, " v{} {kind} [", held.local)?;
    put_form(line, &held.form)?;
    line.push_str("]")?;
    Ok(())
}

/// An array: its name, parameter, size, pointer, length's local if it has one, writes and length.
fn put_clause(line: &mut String, clause: &Clause) -> Result<(), Fault> {
    line.push_str(" ")?;
    put_name(line, &clause.name)?;
    write!(
        line,
        " {} {} v{}",
        clause.param, clause.size, clause.pointer
    )?;
    match clause.length_local {
        Some(local) => write!(line, " v{local}")?,
        None => line.push_str(" -")?,
    }
    write!(line, " {} [", clause.writes)?;
    put_form(line, &clause.length)?;
    line.push_str("]")?;
    Ok(())
}

/// Whether a local is free, as `1 | k | (model ..)`, or without a name `1 | - | (model ..)`.
pub fn free(alloc: Global, line: &str) -> Result<String, Fault> {
    let (local, rest) = line.split_once(" | ").unwrap_or((line, ""));
    let (name, text) = rest.split_once(" | ").unwrap_or((rest, ""));
    let context = start_of(alloc, text)?;
    let answer = freedom(alloc, &context, local, name)?;
    Ok(String::from_str(alloc, answer)?)
}

/// Whether a local is free for a name, or for none, in words.
pub fn freedom(
    alloc: Global,
    context: &Ctx,
    local: &str,
    name: &str,
) -> Result<&'static str, Fault> {
    let local = number_of(local)?;
    let name = Name::read(alloc, name.as_bytes())?;
    Ok(if context.is_free(local, name.as_ref()) {
        "free"
    } else {
        "taken"
    })
}

/// How many of so many facts there is room for, as `4097 | (model ..)`.
pub fn facts(alloc: Global, line: &str) -> Result<String, Fault> {
    let (count, text) = line.split_once(" | ").unwrap_or((line, ""));
    let mut context = start_of(alloc, text)?;
    let taken = add_facts(&mut context, number_of(count)?)?;
    Ok(format!(in alloc; "{taken}")?)
}

/// Adds so many facts, and counts those that there is room for.
pub fn add_facts(context: &mut Ctx, count: u32) -> Result<u32, Fault> {
    let mut taken = 0u32;
    for _fact in 0..count {
        if context.add_fact(Form::symbol(0))? {
            taken = taken.saturating_add(1);
        }
    }
    Ok(taken)
}
