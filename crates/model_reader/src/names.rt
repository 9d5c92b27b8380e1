//! Names, and lists of names.
ghost use Rattle.std.specs.Prelude.{◌≡◌, map};
ghost use Rattle.model_reader.specs.Yields.{Yields};
ghost use Rattle.model_reader.specs.Parts as parts;
ghost use Rattle.model_reader.specs.Statements as spec;
ghost use Rattle.model_reader.specs.Reading.{reading};

use crate::parts::{Misread, finished, form_at, kids_of, known, place_of, text_of};
use rup_base::{List, Name, Place};
use std::alloc::Global;
use sx_text::Sx;

/// The name that a form is.
pub fn read_name(alloc: Global, form: &Sx) -> Result<Name, Misread>
    ensures { Yields result (parts.name (reading form.now)) }
{
    known(place_of(form), Name::read(alloc, text_of(form))?)
}

/// The form with a number in the list at a place, as a name.
pub fn name_at(alloc: Global, p: Place, args: &[Sx], i: usize) -> Result<Name, Misread>
    ensures { Yields result (parts.nth i parts.name p (map reading args.now)) }
{
    read_name(alloc, form_at(p, args, i)?)
}

fn each_name(alloc: Global, forms: &[Sx]) -> Result<List<Name>, Misread>
    ensures { Yields result (parts.each parts.name (map reading forms.now)) }
{
    let mut names = List::new(alloc);
    for form in forms {
        names.push(read_name(alloc, form)?)?;
    }
    Ok(names)
}

/// `(NAME*)`
pub fn read_names(alloc: Global, form: &Sx) -> Result<List<Name>, Misread>
    ensures { Yields result (spec.names (reading form.now)) }
{
    let (_, forms) = kids_of(form)?;
    each_name(alloc, forms)
}

/// `(NAME)`, the name of an element.
pub fn read_element(alloc: Global, form: &Sx) -> Result<Name, Misread>
    ensures { Yields result (spec.element (reading form.now)) }
{
    let (p, forms) = kids_of(form)?;
    finished(name_at(alloc, p, forms, 0)?, forms, 1)
}
