//! Numbers of the text.
ghost use Rattle.std.specs.Prelude.{map};
ghost use Rattle.model_reader.specs.Yields.{Yields};
ghost use Rattle.model_reader.specs.Parts as parts;
ghost use Rattle.model_reader.specs.Reading.{reading};

use crate::parts::{Misread, form_at, known, place_of, text_of};
use rup_base::{Place, number_of};
use sx_text::Sx;

/// The number that a form is.
pub fn read_number(form: &Sx) -> Result<u32, Misread>
    ensures { Yields result (parts.number (reading form.now)) }
{
    known(place_of(form), number_of(text_of(form)))
}

/// The form with a number in the list at a place, as a number of the text.
pub fn number_at(p: Place, args: &[Sx], i: usize) -> Result<u32, Misread>
    ensures { Yields result (parts.nth i parts.number p (map reading args.now)) }
{
    read_number(form_at(p, args, i)?)
}
