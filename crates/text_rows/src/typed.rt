//! Types of models.
use model_reader::read_model;
use model_types::{Typed, check_types};
use row_cases::{Fault, operand, refused, told};
use rup_base::{Fail, Kind};
use std::alloc::Global;

/// The typed model of an operand, or its refusal.
pub fn typed(alloc: Global, text: &str) -> Result<Result<Typed, Fail>, Fault> {
    let bytes = operand(alloc, text)?;
    match read_model(alloc, 1, bytes.as_slice()) {
        Ok(model) => Ok(check_types(alloc, model)),
        Err(fail) => Ok(Err(fail)),
    }
}

/// The kinds of a well typed model's parameters, or why the text is none.
pub fn kinds(alloc: Global, text: &str) -> Result<String, Fault> {
    let typed = match typed(alloc, text)? {
        Ok(typed) => typed,
        Err(fail) => return refused(alloc, &fail),
    };
    let kinds = typed.kinds(alloc)?;
    let mut line = String::from_str(alloc, "well typed")?;
    for kind in kinds.as_slice() {
        put_kind(&mut line, *kind)?;
    }
    Ok(line)
}

fn put_kind(line: &mut String, kind: Kind) -> Result<(), Fault> {
    match kind {
        Kind::Word => line.push_str(" word")?,
        Kind::Byte => line.push_str(" byte")?,
        Kind::Bytes(None) => line.push_str(" bytes")?,
        Kind::Words(None) => line.push_str(" words")?,
        Kind::Bytes(Some(length)) => write!(line, " bytes/{length}")?,
        Kind::Words(Some(length)) => write!(line, " words/{length}")?,
    }
    Ok(())
}

/// The sentence of the refusal of an operand.
pub fn sentence(alloc: Global, text: &str) -> Result<String, Fault> {
    match typed(alloc, text)? {
        Ok(_) => Ok(String::from_str(alloc, "well typed")?),
        Err(fail) => told(alloc, &fail),
    }
}
