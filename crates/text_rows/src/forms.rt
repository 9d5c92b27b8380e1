//! Names and forms.
use row_cases::{Fault, operand, refused, shown};
use rup_base::{Name, Place, Text};
use std::alloc::Global;
use sx_text::{Sx, print_form, read_forms};

/// Whether the bytes are a name, and their copy is the same one.
pub fn name(alloc: Global, text: &str) -> Result<String, Fault> {
    let bytes = operand(alloc, text)?;
    let Some(name) = Name::read(alloc, bytes.as_slice())? else {
        return Ok(String::from_str(alloc, "no name")?);
    };
    let copy = name.copy(alloc)?;
    shown(alloc, copy.text())
}

/// The forms of a text, each with its place and its canonical spelling, or why it has none.
pub fn forms(alloc: Global, text: &str) -> Result<String, Fault> {
    let bytes = operand(alloc, text)?;
    let forms = match read_forms(alloc, 1, bytes.as_slice()) {
        Ok(forms) => forms,
        Err(fail) => return refused(alloc, &fail),
    };
    let mut spelled = Text::new(alloc);
    for form in forms.as_slice() {
        put_place(&mut spelled, place_of(form))?;
        print_form(&mut spelled, form)?;
        spelled.push(b';')?;
    }
    shown(alloc, spelled.as_slice())
}

fn place_of(form: &Sx) -> Place {
    match form {
        Sx::Atom(place, _) => *place,
        Sx::Kids(place, _) => *place,
    }
}

fn put_place(text: &mut Text, place: Place) -> Result<(), Fault> {
    text.push_number(u128::from(place.start))?;
    text.push(b'-')?;
    text.push_number(u128::from(place.end))?;
    text.push(b' ')?;
    Ok(())
}
