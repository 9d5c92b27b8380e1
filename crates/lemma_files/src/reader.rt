//! The reader of lemma files.
ghost use Rattle.std.specs.Prelude as prelude;
ghost use Rattle.std.specs.Prelude.{◌≤◌, ◌^◌, length, Ok, IfOk};
ghost use Rattle.rup_base.specs.Answers.{Answers};
ghost use Rattle.lemma_files.specs.declared.terms.Lemma as term;
ghost use Rattle.lemma_files.specs.Reading as spec;

use crate::lemmas::whole;
use crate::terms::Lemma;
use model_reader::Misread;
use rup_base::{Fail, List, Place, Refusal};
use std::alloc::Global;
use sx_text::read_forms;

/// The lemmas that `bytes` are a text of. Else, in this order: `NotText` with the least offset at which the bytes are no
/// forms; `NotLemma` with the offset of the first form that is not of the kind that its place asks for, of the closing
/// parenthesis or the text's end where a form is missing, or of a surplus form. `word` is the place of the file's name
/// among the words of the command.
pub fn read_lemmas(alloc: Global, word: u32, bytes: &[u8]) -> Result<List<Lemma>, Fail>
    requires { length bytes.now ≤ 2 ^ 24 }
    ensures exact { Answers result (spec.read_lemmas word bytes.now) }
    ensures only { IfOk result (λ lemmas. spec.Reads bytes.now lemmas) }
    ensures all { (lemmas : prelude.List term.Lemma) → spec.Reads bytes.now lemmas → Answers result (Ok lemmas) }
{
    lemmas_of_text(alloc, word, bytes)
}

fn lemmas_of_text(alloc: Global, word: u32, bytes: &[u8]) -> Result<List<Lemma>, Fail>
    requires { length bytes.now ≤ 2 ^ 24 }
    ensures { Answers result (spec.read_lemmas word bytes.now) }
{
    let forms = read_forms(alloc, word, bytes)?;
    let place = Place {
        start: 0,
        end: bytes.len() as u32 + 1,
    };
    match whole(alloc, place, forms.as_slice()) {
        Ok(lemmas) => Ok(lemmas),
        Err(Misread::At(at)) => Err(Refusal::NotLemma { word, at }.into()),
        Err(Misread::NoMemory) => Err(Fail::NoMemory),
    }
}
