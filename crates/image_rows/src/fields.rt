//! Images and their fields.
use cost_poly::Term;
use image_layout::{Image, read_image, write_image};
use row_cases::{Fault, number_of, refused};
use rup_base::{Kind, Text};
use side_certs::Form;
use std::alloc::Global;

/// The bytes of words in hexadecimal, each in little endian.
pub fn bytes_of_words(alloc: Global, text: &str) -> Result<Text, Fault> {
    let mut bytes = Text::new(alloc);
    for digits in text.split_whitespace() {
        let Ok(word) = u32::from_str_radix(digits, 16) else {
            return Err(Fault::BadLine);
        };
        bytes.extend_from_slice(&word.to_le_bytes())?;
    }
    Ok(bytes)
}

/// The fields of an image, and whether it is written as the same bytes, or why the bytes are none.
pub fn shown(alloc: Global, bytes: &[u8]) -> Result<String, Fault> {
    let image = match read_image(alloc, bytes) {
        Ok(image) => image,
        Err(fail) => return refused(alloc, &fail),
    };
    let mut line = sizes(alloc, &image)?;
    put_lists(&mut line, &image)?;
    let again = write_image(alloc, &image)?;
    line.push_str(if again.as_slice() == bytes {
        "; written as it was"
    } else {
        "; written otherwise"
    })?;
    Ok(line)
}

fn sizes(alloc: Global, image: &Image) -> Result<String, Fault> {
    let (version, entry, stack) = (image.version, image.entry, image.stack);
    let (code, tables) = (image.code.len(), image.tables.len());
    Ok(format!(in alloc;
        "version {version} entry {entry} stack {stack} code {code} tables {tables}"
    )?)
}

/// Puts the parameters, requirements, results and bound behind a line.
fn put_lists(line: &mut String, image: &Image) -> Result<(), Fault> {
    line.push_str("; params")?;
    for kind in image.params.as_slice() {
        put_kind(line, *kind)?;
    }
    line.push_str("; requires")?;
    for form in image.requires_.as_slice() {
        put_form(line, form)?;
    }
    line.push_str("; results")?;
    for ret in image.rets.as_slice() {
        match ret {
            None => line.push_str(" scalar")?,
            Some(param) => write!(line, " array {param}")?,
        }
    }
    line.push_str("; bound")?;
    for term in image.bound.terms() {
        put_term(line, term)?;
    }
    Ok(())
}

fn put_kind(line: &mut String, kind: Kind) -> Result<(), Fault> {
    match kind {
        Kind::Word => line.push_str(" word")?,
        Kind::Byte => line.push_str(" byte")?,
        Kind::Bytes(None) => line.push_str(" bytes")?,
        Kind::Words(None) => line.push_str(" words")?,
        Kind::Bytes(Some(length)) => write!(line, " bytes/{length}")?,
        Kind::Words(Some(length)) => write!(line, " words/{length}")?,
    }
    Ok(())
}

fn put_form(line: &mut String, form: &Form) -> Result<(), Fault> {
    write!(line, " [{}", form.constant_part())?;
    for k in 0..form.terms() {
        let (symbol, coefficient) = form.term_at(k);
        write!(line, " {coefficient}*s{symbol}")?;
    }
    line.push_str("]")?;
    Ok(())
}

fn put_term(line: &mut String, term: &Term) -> Result<(), Fault> {
    write!(line, " {}", term.coefficient)?;
    if let Some(symbol) = term.first {
        write!(line, "*s{symbol}")?;
    }
    if let Some(symbol) = term.second {
        write!(line, "*s{symbol}")?;
    }
    Ok(())
}

/// What the first so many bytes of an image are.
pub fn cut(alloc: Global, bytes: &[u8], count: &str) -> Result<String, Fault> {
    let Some(part) = bytes.get(..number_of(count)? as usize) else {
        return Err(Fault::BadLine);
    };
    shown(alloc, part)
}

/// What an image is with another word at a place, as `2 45` for the third word.
pub fn changed(alloc: Global, bytes: &[u8], line: &str) -> Result<String, Fault> {
    let (place, digits) = line.split_once(' ').unwrap_or((line, ""));
    let start = (number_of(place)? as usize).saturating_mul(4);
    let Some(before) = bytes.get(..start) else {
        return Err(Fault::BadLine);
    };
    let mut other = Text::from_slice(alloc, before)?;
    other.extend_from_slice(bytes_of_words(alloc, digits)?.as_slice())?;
    if let Some(behind) = bytes.get(start.saturating_add(4)..) {
        other.extend_from_slice(behind)?;
    }
    shown(alloc, other.as_slice())
}
