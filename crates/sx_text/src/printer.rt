//! Forms to bytes.
ghost use Rattle.std.specs.Prelude.{◌≡◌, ◌++◌, OnOk, map};
ghost use Rattle.sx_text.specs.Spelling as spelling;

use crate::tree::Sx;
use rup_base::{NoMemory, Text};

/// Puts the canonical spelling of `form` behind the last byte of `out`: one space between forms, none
/// beside a parenthesis's inside.
#[cycle(print)]
pub fn print_form(out: &mut Text, form: &Sx) -> Result<(), NoMemory>
    ensures { OnOk result (out.new ≡ out.old ++ spelling.text form.now) }
{
    match form {
        Sx::Atom(_, bytes) => out.extend_from_slice(bytes.as_slice()),
        Sx::Kids(_, kids) => {
            out.push(b'(')?;
            print_spaced(out, kids.as_slice())?;
            out.push(b')')
        }
    }
}

#[cycle(print)]
fn print_spaced(out: &mut Text, forms: &[Sx]) -> Result<(), NoMemory>
    ensures { OnOk result (out.new ≡ out.old ++ spelling.spaced (map spelling.text forms.now)) }
{
    match forms {
        [] => Ok(()),
        [first, rest @ ..] => {
            print_form(out, first)?;
            for form in rest {
                out.push(b' ')?;
                print_form(out, form)?;
            }
            Ok(())
        }
    }
}
