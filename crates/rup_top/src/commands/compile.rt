//! `compile M LEMMAS*`: a model to the file of the derivation that the search finds with the lemmas of files.
ghost use Rattle.std.specs.Prelude.{◌≡◌, ◌≤◌, ◌<◌, ◌+◌, ◌∷◌, ◌++◌, [], true, nat_le, map, length, string_bytes, IfOk};
ghost use Rattle.std.specs.List.{list_all};
ghost use Rattle.deriv_tree.specs.Shape.{IsWhole};
ghost use Rattle.derive_search.specs.Derive.{derived, have_steps};
ghost use Rattle.equations.specs.Equations.{turn};
ghost use Rattle.rup_base.specs.Answers.{Answers};
ghost use Rattle.rup_top.specs.Frame.{read_between};
ghost use Rattle.rup_top.specs.Inputs.{model_limit, lemma_limit};
ghost use Rattle.rup_top.specs.Steps.{Gives, Follows};
ghost use Rattle.rup_top.specs.commands.Compile as spec;

use crate::answer::{Answer, Stop};
use crate::answers::done;
use crate::frame::fetch_word;
use crate::inputs::{LEMMA_LIMIT, MODEL_LIMIT, typed_model};
use deriv_file::print_derivation;
use deriv_tree::Derivation;
use derive_search::derive;
use equations::WordBook;
use lemma_files::{Lemma, read_lemmas};
use model_types::Typed;
use rup_base::{Fail, List, NoMemory, Text};
use rup_io::Files;
use std::alloc::Global;

/// Fetches the model and the lemma files, and searches the model's derivation.
pub fn compile<F: Files>(
    alloc: Global,
    model: &str,
    words: &[String],
    files: &mut F,
) -> Result<Answer, Stop>
    requires { length words.now ≤ 16 }
    ensures held { F.held files.new ≡ F.held files.old }
    ensures follows { Follows (spec.compile_script model.now (map string_bytes words.now))
        (read_between F.held F.faults F.last files.old files.new) result }
{
    let bytes = fetch_word(alloc, 1, model, MODEL_LIMIT, files)?;
    let mut lemma_files = List::new(alloc);
    with_lemmas(alloc, bytes.as_slice(), &mut lemma_files, 2, words, files)
}

/// Fetches the lemma files from a word on, behind those that were fetched before, and searches the model's derivation.
#[cycle(with_lemmas)]
fn with_lemmas<F: Files>(
    alloc: Global,
    model: &[u8],
    done: &mut List<Text>,
    place: u32,
    words: &[String],
    files: &mut F,
) -> Result<Answer, Stop>
    requires fits { length model.now ≤ model_limit }
    requires each { list_all (λ bytes. nat_le (length bytes) lemma_limit) done.old ≡ true }
    requires few { length done.old + length words.now ≤ 16 }
    requires places { place + length words.now ≤ 18 }
    ensures held { F.held files.new ≡ F.held files.old }
    ensures follows { Follows (spec.lemmas_script model.now done.old place (map string_bytes words.now))
        (read_between F.held F.faults F.last files.old files.new) result }
{
    match words {
        [] => compile_bytes(alloc, model, done.as_slice()),
        [word, rest @ ..] => with_next(alloc, model, done, place, word.as_str(), rest, files),
    }
}

/// Fetches the lemma file of a word and then those of the words behind it, and searches the model's derivation.
#[cycle(with_lemmas)]
fn with_next<F: Files>(
    alloc: Global,
    model: &[u8],
    done: &mut List<Text>,
    place: u32,
    word: &str,
    rest: &[String],
    files: &mut F,
) -> Result<Answer, Stop>
    requires fits { length model.now ≤ model_limit }
    requires each { list_all (λ bytes. nat_le (length bytes) lemma_limit) done.old ≡ true }
    requires few { length done.old + length rest.now < 16 }
    requires places { place + length rest.now < 18 }
    ensures held { F.held files.new ≡ F.held files.old }
    ensures follows { Follows (spec.lemmas_script model.now done.old place (word.now ∷ map string_bytes rest.now))
        (read_between F.held F.faults F.last files.old files.new) result }
{
    let bytes = fetch_word(alloc, place, word, LEMMA_LIMIT, files)?;
    done.push(bytes)?;
    with_lemmas(alloc, model, done, place + 1, rest, files)
}

/// The file of the derivation and its note, or the first refusal.
fn compile_bytes(alloc: Global, model: &[u8], files: &[Text]) -> Result<Answer, Stop>
    requires fits { length model.now ≤ model_limit }
    requires each { list_all (λ bytes. nat_le (length bytes) lemma_limit) files.now ≡ true }
    requires few { length files.now ≤ 16 }
    ensures { Gives result (λ a. a ≡ spec.compile_answer (spec.searched model.now files.now)) }
{
    let derivation = searched(alloc, model, files)?;
    let out = print_derivation(alloc, &derivation)?;
    let note = compile_line(alloc, &derivation)?;
    Ok(done(out, note))
}

/// The derivation of the model of these bytes, or the first refusal.
fn searched(alloc: Global, model: &[u8], files: &[Text]) -> Result<Derivation, Fail>
    requires fits { length model.now ≤ model_limit }
    requires each { list_all (λ bytes. nat_le (length bytes) lemma_limit) files.now ≡ true }
    requires few { length files.now ≤ 16 }
    ensures found { Answers result (spec.searched model.now files.now) }
    ensures whole { IfOk result (λ d. IsWhole d) }
{
    let typed = typed_model(alloc, model)?;
    let lemmas = lemmas_of(alloc, files)?;
    found(alloc, &typed, lemmas.as_slice())
}

/// The lemmas of files in order, the first of which is that of word 2, or the first refusal.
fn lemmas_of(alloc: Global, files: &[Text]) -> Result<List<Lemma>, Fail>
    requires each { list_all (λ bytes. nat_le (length bytes) lemma_limit) files.now ≡ true }
    requires few { length files.now ≤ 16 }
    ensures lemmas { Answers result (spec.lemmas_of [] 2 files.now) }
    ensures steps { IfOk result (λ lemmas. have_steps lemmas ≡ true) }
{
    let mut lemmas = List::new(alloc);
    let mut word: u32 = 2;
    for file in files {
        lemmas = with_file(alloc, lemmas, word, file.as_slice())?;
        word += 1;
    }
    Ok(lemmas)
}

/// The lemmas of the file of this word, behind others, or the refusal.
fn with_file(alloc: Global, done: List<Lemma>, word: u32, bytes: &[u8]) -> Result<List<Lemma>, Fail>
    requires fits { length bytes.now ≤ lemma_limit }
    requires steps { have_steps done ≡ true }
    ensures lemmas { Answers result (spec.with_file done word bytes.now) }
    ensures steps { IfOk result (λ lemmas. have_steps lemmas ≡ true) }
{
    let more = read_lemmas(alloc, word, bytes)?;
    let all = append(done, more)?;
    Ok(all)
}

/// Lemmas, and others behind them.
fn append(first: List<Lemma>, more: List<Lemma>) -> Result<List<Lemma>, NoMemory>
    ensures { IfOk result (λ all. all ≡ first ++ more) }
{
    let mut all = first;
    for lemma in more.into_vec() {
        all.push(lemma)?;
    }
    Ok(all)
}

/// What the search finds is whole.
fn found(alloc: Global, typed: &Typed, lemmas: &[Lemma]) -> Result<Derivation, Fail>
    requires { have_steps lemmas.now ≡ true }
    ensures found { Answers result (derived lemmas.now turn typed.now.inner) }
    ensures whole { IfOk result (λ d. IsWhole d) }
{
    derive(alloc, typed, lemmas, &WordBook)
}

/// The note of a derivation that is written.
fn compile_line(alloc: Global, derivation: &Derivation) -> Result<Text, NoMemory>
    requires { IsWhole derivation.now }
    ensures { IfOk result (λ note. note ≡ spec.compile_line derivation.now) }
{
    let mut note = Text::from_slice(alloc, b"compile: nodes ")?;
    note.push_number(u128::from(derivation.size()))?;
    note.push(b'\n')?;
    Ok(note)
}
