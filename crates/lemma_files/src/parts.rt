//! The parts of a list: its forms by number, and what is refused of them.
ghost use Rattle.std.specs.Prelude.{◌≡◌, ◌+◌, ◌≤◌, ◌-◌, map, take, drop, Ok, IfOk, IfErr};
ghost use Rattle.model_reader.specs.Parts as lists;
ghost use Rattle.model_reader.specs.declared.parts.Misread.TheVariants as misread;
ghost use Rattle.model_reader.specs.Parts.{wrong, missing};
ghost use Rattle.model_reader.specs.Reading.{reading};
ghost use Rattle.model_reader.specs.Sizes.{size, sizes};
ghost use Rattle.model_reader.specs.Yields.{Yields};
ghost use Rattle.lemma_files.specs.Parts as parts;
ghost use Rattle.lemma_files.specs.Reading.{part, atom_part, list_part};

use crate::words::is;
use model_reader::{Misread, missing, wrong};
use rup_base::Place;
use sx_text::Sx;

/// Where a form stands.
pub(crate) fn place_of(form: &Sx) -> Place
    ensures { result ≡ (part form.now).model.at }
{
    match form {
        Sx::Atom(p, _) => *p,
        Sx::Kids(p, _) => *p,
    }
}

/// The bytes of an atom, none of a list.
pub(crate) fn text_of(form: &Sx) -> &[u8]
    ensures { result.now ≡ (part form.now).model.text }
{
    match form {
        Sx::Atom(_, text) => text.as_slice(),
        Sx::Kids(_, _) => &[],
    }
}

/// The place of a list, and its forms; an atom is no list.
pub(crate) fn kids_of(form: &Sx) -> Result<(Place, &[Sx]), Misread>
    ensures list { IfOk result (λ r. part form.now ≡ list_part r.0 (map part r.1.now)) }
    ensures smaller { IfOk result (λ r. 3 + sizes r.1.now ≤ size form.now) }
    ensures atom { IfErr result (λ e. e ≡ misread.At (part form.now).model.at.start) }
    ensures atoms { IfErr result (λ e. part form.now ≡ atom_part (part form.now).model.at (part form.now).model.text) }
{
    match form {
        Sx::Atom(p, _) => Err(wrong(*p)),
        Sx::Kids(p, kids) => Ok((*p, kids.as_slice())),
    }
}

/// The bytes of a list's first form, and the forms behind it.
pub(crate) fn headed<'a>(p: Place, kids: &'a [Sx]) -> Result<(&'a [u8], &'a [Sx]), Misread>
    ensures ok { IfOk result (λ r. parts.headed p (map part kids.now) ≡ Ok (r.0.now, map part r.1.now)) }
    ensures smaller { IfOk result (λ r. sizes r.1.now ≤ sizes kids.now) }
    ensures wrong { IfErr result (λ e. (e ≡ misread.At p.start) × (parts.headed p (map part kids.now) ≡ wrong p)) }
{
    match kids {
        [] => Err(wrong(p)),
        [head, rest @ ..] => Ok((text_of(head), rest)),
    }
}

/// The forms behind a word that begins a list.
pub(crate) fn behind<'a>(word: &[u8], p: Place, kids: &'a [Sx]) -> Result<&'a [Sx], Misread>
    ensures ok { IfOk result (λ r. parts.behind word.now p (map part kids.now) ≡ Ok (map part r.now)) }
    ensures wrong { IfErr result (λ e. (e ≡ misread.At p.start)
        × (parts.behind word.now p (map part kids.now) ≡ wrong p)) }
{
    let (head, rest) = headed(p, kids)?;
    if is(head, word) {
        Ok(rest)
    } else {
        Err(wrong(p))
    }
}

/// The form with a number in the list at a place. Where it is missing, the list's closing parenthesis is refused.
#[tactic(auto, using(crate::proofs::Nth::form_in, crate::proofs::Nth::form_out, crate::proofs::Nth::size_in, crate::proofs::AsModel::as_model))]
pub(crate) fn form_at<'a>(p: Place, kids: &'a [Sx], i: usize) -> Result<&'a Sx, Misread>
    ensures form { IfOk result (λ form. lists.form i p (map part kids.now) ≡ Ok (part form.now)) }
    ensures model { IfOk result (λ form. (part form.now).model ≡ reading form.now) }
    ensures smaller { IfOk result (λ form. size form.now ≤ sizes kids.now) }
    ensures missing { IfErr result (λ e. (e ≡ misread.At (p.end - 1))
        × (lists.form i p (map part kids.now) ≡ missing p)) }
{
    if i < kids.len() {
        Ok(&kids[i])
    } else {
        Err(missing(p))
    }
}

/// Refuses the first form from number `i` on.
#[tactic(auto, using(crate::proofs::Nth::end_in, crate::proofs::Nth::end_out))]
pub(crate) fn end(kids: &[Sx], i: usize) -> Result<(), Misread>
    ensures { Yields result (parts.end i (map part kids.now)) }
{
    if i < kids.len() {
        Err(wrong(place_of(&kids[i])))
    } else {
        Ok(())
    }
}

/// The forms behind the first two.
pub(crate) fn behind_two(kids: &[Sx]) -> &[Sx]
    ensures { map part result.now ≡ drop 2 (map part kids.now) }
{
    match kids {
        [] | [_] => &[],
        [_, _, rest @ ..] => rest,
    }
}

/// The forms before number `i`.
#[tactic(auto, using(crate::proofs::Nth::take_parts, crate::proofs::Nth::take_past))]
pub(crate) fn up_to(kids: &[Sx], i: usize) -> &[Sx]
    ensures { map part result.now ≡ take i (map part kids.now) }
{
    if i < kids.len() { &kids[..i] } else { kids }
}
