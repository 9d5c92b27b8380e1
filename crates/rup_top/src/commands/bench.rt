//! `bench SEED COUNT`: a generated model is compiled and run, to one line.
ghost use Rattle.std.specs.Prelude.{◌≡◌, ◌≤◌, ◌++◌, Ok, IfOk, OnOk};
ghost use Rattle.std.specs.List.{flat_map};
ghost use Rattle.bench_gen.specs.Generator as generator;
ghost use Rattle.image_layout.specs.declared.image.Image.{Image as Picture};
ghost use Rattle.image_layout.specs.Reading.{read};
ghost use Rattle.image_layout.specs.Spelling.{IsWithinLimits};
ghost use Rattle.model_command.specs.Computes.{Computes};
ghost use Rattle.model_command.specs.Measures.{IsMeasured, IsSmall};
ghost use Rattle.rup_base.specs.Answers.{Answers};
ghost use Rattle.run_setup.specs.Judging.{judged};
ghost use Rattle.run_setup.specs.Loading as loading;
ghost use Rattle.rv_machine.specs.Machines.{IsMachine};
ghost use Rattle.rv_machine.specs.View.{state_of};
ghost use Rattle.rup_top.specs.Steps.{Gives};
ghost use Rattle.rup_top.specs.Words.{most_count};
ghost use Rattle.rup_top.specs.commands.Run.{bound_at as bound_of_image};
ghost use Rattle.rup_top.specs.commands.Bench as spec;

use crate::answer::{Answer, Stop};
use crate::answers::{done, unfinished};
use crate::commands::run::{bound_at, budget, out_of_steps_text, trapped_text};
use crate::words::MOST_SIZE;
use bed_syntax::Weights;
use bench_gen::{args_from, generated_models_are_valid, model_from};
use derive_search::derive;
use equations::WordBook;
use image_layout::{Image, read_image};
use model_types::{Typed, check_types};
use pipeline::image;
use replayer::{Checked, replay};
use run_setup::{RETURN_ADDRESS, load, put_word, read_results};
use rup_base::{Arg, Args, Fail, NoMemory, Text};
use rv_machine::{End, Machine};
use std::alloc::Global;

/// Generates a model with so many drawn statements, from 1 to 1990, and searches, replays, lays out, loads and runs it.
pub fn bench(alloc: Global, seed: u32, count: u32) -> Result<Answer, Stop>
    requires some { 1 ≤ count }
    requires few { count ≤ most_count }
    ensures { Gives result (λ a. spec.BenchAnswers seed count (spec.found (generator.model seed count)) a) }
{
    let typed = generated(alloc, seed, count)?;
    let checked = found(alloc, &typed)?;
    let answer = run_checked(alloc, seed, count, &typed, &checked)?;
    Ok(answer)
}

/// The generated model. It is well typed, so that the error is want of memory alone.
fn generated(alloc: Global, seed: u32, count: u32) -> Result<Typed, NoMemory>
    requires some { 1 ≤ count }
    requires few { count ≤ most_count }
    ensures { IfOk result (λ typed. typed.inner ≡ generator.model seed count) }
{
    // for the proof alone: what holds of generated models
    generated_models_are_valid(seed, count);
    let model = model_from(alloc, seed, count)?;
    match check_types(alloc, model) {
        Ok(typed) => Ok(typed),
        Err(Fail::NoMemory) => Err(NoMemory),
        Err(Fail::Refused(_)) => unreachable!(),
    }
}

/// What the derivation that the search finds comes to, or the first refusal.
fn found(alloc: Global, typed: &Typed) -> Result<Checked, Fail>
    ensures found { Answers result (spec.found typed.now.inner) }
    ensures computes { IfOk result (λ c. Computes Weights.LARGE typed.now.inner c.command) }
    ensures measured { IfOk result (λ c. IsMeasured Weights.LARGE typed.now.inner c.command) }
    ensures small { IfOk result (λ c. IsSmall c.command) }
{
    let derivation = derive(alloc, typed, &[], &WordBook)?;
    replay(alloc, typed, &derivation, MOST_SIZE, &WordBook)
}

/// Runs the image of what was found on the arguments of the seed.
fn run_checked(
    alloc: Global,
    seed: u32,
    count: u32,
    typed: &Typed,
    checked: &Checked,
) -> Result<Answer, NoMemory>
    requires model { typed.now.inner ≡ generator.model seed count }
    requires computes { Computes Weights.LARGE typed.now.inner checked.now.command }
    requires measured { IsMeasured Weights.LARGE typed.now.inner checked.now.command }
    requires small { IsSmall checked.now.command }
    ensures { IfOk result (λ a. spec.Benches seed count checked.now a) }
{
    let bytes = image(alloc, typed, &checked.command)?;
    let image = image_of(alloc, bytes.as_slice())?;
    let args = args_from(alloc, seed)?;
    run_on(alloc, seed, count, checked, &image, &args)
}

/// The image of bytes that are one, so that the error is want of memory alone.
fn image_of(alloc: Global, bytes: &[u8]) -> Result<Image, NoMemory>
    requires { (i : Picture) × (read bytes.now ≡ Ok i) }
    ensures read { IfOk result (λ i. read bytes.now ≡ Ok i) }
    ensures limits { IfOk result (λ i. IsWithinLimits i) }
{
    match read_image(alloc, bytes) {
        Ok(image) => Ok(image),
        Err(Fail::NoMemory) => Err(NoMemory),
        Err(Fail::Refused(_)) => unreachable!(),
    }
}

/// Runs an image on arguments with which it may be called.
fn run_on(
    alloc: Global,
    seed: u32,
    count: u32,
    checked: &Checked,
    image: &Image,
    args: &Args,
) -> Result<Answer, NoMemory>
    requires limits { IsWithinLimits image.now }
    requires judged { judged image.now args.now ≡ Ok tt }
    requires bound { bound_of_image image.now args.now ≡ spec.bound_of seed checked.now }
    ensures { IfOk result (λ a. spec.BenchEnds (spec.summary seed count checked.now) image.now args.now a) }
{
    let bound = bound_at(alloc, image, args)?;
    let begun = summary(alloc, seed, count, checked, bound)?;
    let mut machine = loaded(alloc, image, args)?;
    let end = machine.run(RETURN_ADDRESS, budget(bound));
    answer_for(alloc, begun, image, args, end, &machine)
}

/// The line up to its results; the bound is that at the arguments.
fn summary(
    alloc: Global,
    seed: u32,
    count: u32,
    checked: &Checked,
    bound: u128,
) -> Result<Text, NoMemory>
    requires { bound ≡ spec.bound_of seed checked.now }
    ensures { IfOk result (λ text. text ≡ spec.summary seed count checked.now) }
{
    let mut text = Text::from_slice(alloc, b"bench ")?;
    text.push_number(u128::from(seed))?;
    text.push(b' ')?;
    text.push_number(u128::from(count))?;
    text.extend_from_slice(b" nodes ")?;
    text.push_number(u128::from(checked.nodes))?;
    text.extend_from_slice(b" weight ")?;
    text.push_number(u128::from(checked.command.weight))?;
    text.extend_from_slice(b" bound ")?;
    text.push_number(bound)?;
    text.extend_from_slice(b" result")?;
    Ok(text)
}

/// The machine that an image is loaded to, with arguments with which it may be called, so that the error is want of memory alone.
fn loaded(alloc: Global, image: &Image, args: &Args) -> Result<Machine, NoMemory>
    requires limits { IsWithinLimits image.now }
    requires judged { judged image.now args.now ≡ Ok tt }
    ensures starts { IfOk result (λ m. state_of m ≡ loading.start_state image.now args.now) }
    ensures machine { IfOk result (λ m. IsMachine (state_of m)) }
{
    match load(alloc, image, args) {
        Ok(machine) => Ok(machine),
        Err(Fail::NoMemory) => Err(NoMemory),
        Err(Fail::Refused(_)) => unreachable!(),
    }
}

/// The answer for how a run ended, with a line that is begun.
fn answer_for(
    alloc: Global,
    begun: Text,
    image: &Image,
    args: &Args,
    end: End,
    machine: &Machine,
) -> Result<Answer, NoMemory>
    requires limits { IsWithinLimits image.now }
    requires judged { judged image.now args.now ≡ Ok tt }
    ensures { IfOk result (λ a. a ≡ spec.bench_answer begun image.now args.now end (state_of machine.now)) }
{
    match end {
        End::Returned { .. } => {
            let results = read_results(alloc, machine, image, args)?;
            let mut line = begun;
            push_words(&mut line, results.as_slice())?;
            line.push(b'\n')?;
            Ok(done(line, Text::new(alloc)))
        }
        End::Trapped { cause, pc, steps } => {
            unfinished(alloc, trapped_text(alloc, cause, pc, steps)?)
        }
        End::OutOfSteps { steps } => unfinished(alloc, out_of_steps_text(alloc, steps)?),
    }
}

/// Puts each word behind a space.
fn push_words(line: &mut Text, results: &[Arg]) -> Result<(), NoMemory>
    ensures { OnOk result (line.new ≡ line.old ++ flat_map spec.word_text results.now) }
{
    let mut left = results;
    'results: while let [first, rest @ ..] = left {
        if let Arg::Word(word) = first {
            line.push(b' ')?;
            put_word(line, *word)?;
        }
        left = rest;
    }
    Ok(())
}
