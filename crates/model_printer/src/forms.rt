//! Forms of words, names and numbers, at no place.
ghost use Rattle.std.specs.Prelude.{◌≡◌, [], ◌∷◌, map, true, IfOk, OnOk};
ghost use Rattle.rup_base.specs.Name.{is_name};
ghost use Rattle.sx_text.specs.Forms.{place};
ghost use Rattle.model_syntax.specs.Formed as formed;
ghost use Rattle.model_syntax.specs.Kinds.{is_word};
ghost use Rattle.model_printer.specs.Printing as printing;

use rup_base::{List, Name, NoMemory, Place, Text};
use std::alloc::Global;
use sx_text::Sx;

fn nowhere() -> Place
    ensures { result ≡ place 0 0 }
{
    Place { start: 0, end: 0 }
}

pub fn atom(alloc: Global, bytes: &[u8]) -> Result<Sx, NoMemory>
    ensures { IfOk result (λ form. form ≡ printing.atom bytes.now) }
{
    Ok(Sx::Atom(nowhere(), Text::from_slice(alloc, bytes)?))
}

pub fn list(forms: List<Sx>) -> Sx
    ensures { result ≡ printing.list forms }
{
    Sx::Kids(nowhere(), forms)
}

pub fn name_form(alloc: Global, x: &Name) -> Result<Sx, NoMemory>
    ensures form { IfOk result (λ form. form ≡ printing.atom x.now) }
    ensures formed { OnOk result (is_name x.now ≡ true) }
{
    atom(alloc, x.text())
}

pub fn number_form(alloc: Global, n: u32) -> Result<Sx, NoMemory>
    ensures form { IfOk result (λ form. form ≡ printing.number n) }
    ensures formed { OnOk result (is_word n ≡ true) }
{
    let digits = format!(in alloc; "{n}")?;
    atom(alloc, digits.as_bytes())
}

/// A list that a word begins, to be gone on with.
pub fn begun(alloc: Global, word: &[u8]) -> Result<List<Sx>, NoMemory>
    ensures { IfOk result (λ forms. forms ≡ printing.atom word.now ∷ []) }
{
    let mut forms = List::new(alloc);
    forms.push(atom(alloc, word)?)?;
    Ok(forms)
}

/// A list of a word and two forms.
pub fn pair(alloc: Global, word: &[u8], left: Sx, right: Sx) -> Result<Sx, NoMemory>
    ensures { IfOk result (λ form. form ≡ printing.worded word.now (left ∷ right ∷ [])) }
{
    let mut forms = begun(alloc, word)?;
    forms.push(left)?;
    forms.push(right)?;
    Ok(list(forms))
}

/// A list of names.
pub fn names_form(alloc: Global, names: &[Name]) -> Result<Sx, NoMemory>
    ensures form { IfOk result (λ form. form ≡ printing.names names.now) }
    ensures formed { OnOk result (formed.names_formed names.now ≡ true) }
{
    let mut forms = List::new(alloc);
    for name in names {
        forms.push(name_form(alloc, name)?)?;
    }
    Ok(list(forms))
}

/// A list of numbers.
pub fn numbers_form(alloc: Global, numbers: &[u32]) -> Result<Sx, NoMemory>
    ensures form { IfOk result (λ form. form ≡ printing.numbers numbers.now) }
    ensures formed { OnOk result (formed.numbers_formed numbers.now ≡ true) }
{
    let mut forms = List::new(alloc);
    for number in numbers {
        forms.push(number_form(alloc, *number)?)?;
    }
    Ok(list(forms))
}
