//! The parts of a list: its forms by number, and what is refused of them.
ghost use Rattle.std.specs.Prelude.{◌≡◌, ◌+◌, ◌≤◌, ◌-◌, map, Ok, Err, IfOk, IfErr};
ghost use Rattle.model_reader.specs.declared.parts.Misread.TheVariants as misread;
ghost use Rattle.model_reader.specs.Parts as parts;
ghost use Rattle.model_reader.specs.Reading.{reading, atom_reading, list_reading};
ghost use Rattle.model_reader.specs.Sizes.{size, sizes};
ghost use Rattle.model_reader.specs.Yields.{Yields};

use crate::words::is;
use rup_base::{NoMemory, Place};
use sx_text::Sx;

/// Why forms are not read.
#[derive(Debug, Drop)]
pub enum Misread {
    /// The form at this offset is not of the kind that its place asks for, or it is missing or surplus there.
    At(u32),
    NoMemory,
}

impl From<NoMemory> for Misread {
    ghost from_gives = { λ _ m. m ≡ misread.NoMemory };

    fn from(_error: NoMemory) -> Misread {
        Misread::NoMemory
    }
}

/// The form at a place is not of the kind that is expected there.
pub fn wrong(p: Place) -> Misread
    ensures { result ≡ misread.At p.start }
{
    Misread::At(p.start)
}

/// A form is missing in the list at a place: at its closing parenthesis.
pub fn missing(p: Place) -> Misread
    ensures { result ≡ misread.At (p.end - 1) }
{
    Misread::At(p.end.saturating_sub(1))
}

/// Where a form stands.
pub fn place_of(form: &Sx) -> Place
    ensures { result ≡ (reading form.now).at }
{
    match form {
        Sx::Atom(p, _) => *p,
        Sx::Kids(p, _) => *p,
    }
}

/// The bytes of an atom, none of a list.
pub fn text_of(form: &Sx) -> &[u8]
    ensures { result.now ≡ (reading form.now).text }
{
    match form {
        Sx::Atom(_, text) => text.as_slice(),
        Sx::Kids(_, _) => &[],
    }
}

/// What is there; else the form at a place is not of the kind that is expected there.
pub fn known<T: Drop>(p: Place, found: Option<T>) -> Result<T, Misread>
    ensures { Yields result (parts.known p found) }
{
    match found {
        Some(value) => Ok(value),
        None => Err(wrong(p)),
    }
}

/// The place of a list, and its forms; an atom is no list.
pub fn kids_of(form: &Sx) -> Result<(Place, &[Sx]), Misread>
    ensures list { IfOk result (λ r. reading form.now ≡ list_reading r.0 (map reading r.1.now)) }
    ensures smaller { IfOk result (λ r. 3 + sizes r.1.now ≤ size form.now) }
    ensures atom { IfErr result (λ e. e ≡ misread.At (reading form.now).at.start) }
    ensures atoms { IfErr result (λ e. reading form.now ≡ atom_reading (reading form.now).at (reading form.now).text) }
{
    match form {
        Sx::Atom(p, _) => Err(wrong(*p)),
        Sx::Kids(p, kids) => Ok((*p, kids.as_slice())),
    }
}

/// The bytes of a list's first form, and the forms behind it.
pub fn headed<'a>(p: Place, kids: &'a [Sx]) -> Result<(&'a [u8], &'a [Sx]), Misread>
    ensures ok { IfOk result (λ r. parts.headed p (map reading kids.now) ≡ Ok (r.0.now, map reading r.1.now)) }
    ensures smaller { IfOk result (λ r. sizes r.1.now ≤ sizes kids.now) }
    ensures wrong { IfErr result (λ e. (e ≡ misread.At p.start)
        × (parts.headed p (map reading kids.now) ≡ parts.wrong p)) }
{
    match kids {
        [] => Err(wrong(p)),
        [head, rest @ ..] => Ok((text_of(head), rest)),
    }
}

/// The forms behind a word that begins a list.
pub fn behind<'a>(word: &[u8], p: Place, kids: &'a [Sx]) -> Result<&'a [Sx], Misread>
    ensures ok { IfOk result (λ r. parts.behind word.now p (map reading kids.now) ≡ Ok (map reading r.now)) }
    ensures smaller { IfOk result (λ r. sizes r.now ≤ sizes kids.now) }
    ensures wrong { IfErr result (λ e. (e ≡ misread.At p.start)
        × (parts.behind word.now p (map reading kids.now) ≡ parts.wrong p)) }
{
    let (head, rest) = headed(p, kids)?;
    if is(head, word) {
        Ok(rest)
    } else {
        Err(wrong(p))
    }
}

/// The form with a number in the list at a place. Where it is missing, the list's closing parenthesis is refused.
#[tactic(auto, using(crate::proofs::Nth::form_in, crate::proofs::Nth::form_out, crate::proofs::Nth::size_in))]
pub fn form_at<'a>(p: Place, kids: &'a [Sx], i: usize) -> Result<&'a Sx, Misread>
    ensures form { IfOk result (λ form. parts.form i p (map reading kids.now) ≡ Ok (reading form.now)) }
    ensures smaller { IfOk result (λ form. size form.now ≤ sizes kids.now) }
    ensures missing { IfErr result (λ e. (e ≡ misread.At (p.end - 1))
        × (parts.form i p (map reading kids.now) ≡ parts.missing p)) }
{
    if i < kids.len() {
        Ok(&kids[i])
    } else {
        Err(missing(p))
    }
}

/// Refuses the first form from number `i` on.
#[tactic(auto, using(crate::proofs::Nth::end_in, crate::proofs::Nth::end_out))]
pub fn end(kids: &[Sx], i: usize) -> Result<(), Misread>
    ensures { Yields result (parts.end i (map reading kids.now)) }
{
    if i < kids.len() {
        Err(wrong(place_of(&kids[i])))
    } else {
        Ok(())
    }
}

/// What the forms before number `i` were read as; the first form from there on is refused.
pub fn finished<T: Drop>(value: T, kids: &[Sx], i: usize) -> Result<T, Misread>
    ensures { Yields result (parts.finished value i (map reading kids.now)) }
{
    end(kids, i)?;
    Ok(value)
}

/// What is held and what was read after it; where that was refused, what is held is let go.
pub fn beside<A: Drop, B>(held: A, read: Result<B, Misread>) -> Result<(A, B), Misread>
    ensures both { IfOk result (λ r. (r.0 ≡ held) × (read ≡ Ok r.1)) }
    ensures refused { IfErr result (λ e. read ≡ Err e) }
{
    match read {
        Ok(value) => Ok((held, value)),
        Err(misread) => Err(misread),
    }
}
