//! `run IMAGE ARG*`: an image and arguments to the results of a run.
ghost use Rattle.std.specs.Prelude.{◌≡◌, ◌≤◌, ◌++◌, Ok, map, drop, length, string_bytes, IfOk};
ghost use Rattle.image_layout.specs.Reading.{read};
ghost use Rattle.image_layout.specs.Spelling.{IsWithinLimits};
ghost use Rattle.rv_machine.specs.Run.{Ran};
ghost use Rattle.rv_machine.specs.View.{state_of};
ghost use Rattle.run_setup.specs.Judging.{judged};
ghost use Rattle.run_setup.specs.Loading as loading;
ghost use Rattle.rv_machine.specs.Machines.{IsMachine};
ghost use Rattle.rup_top.specs.Frame.{read_between};
ghost use Rattle.rup_top.specs.Steps.{Gives, Follows};
ghost use Rattle.rup_top.specs.commands.Run as spec;

use crate::answer::{Answer, Stop};
use crate::answers::{done, unfinished};
use crate::frame::{fetch_word, take_args};
use crate::inputs::IMAGE_LIMIT;
use image_layout::{Image, read_image};
use run_setup::{RETURN_ADDRESS, load, print_results, put_word, read_results, symbol_values};
use rup_base::{Args, NoMemory, Text};
use rup_io::Files;
use rv_machine::{Cause, End, Machine};
use std::alloc::Global;

/// The place of the first argument among the words.
const FIRST: u32 = 2;

/// No run takes more steps than this.
const MOST_STEPS: u64 = 1_000_000_000;

/// Fetches the image, reads the arguments, and runs the image on them.
pub fn run<F: Files>(
    alloc: Global,
    image: &str,
    words: &[String],
    files: &mut F,
) -> Result<Answer, Stop>
    requires { 2 ≤ length words.now }
    ensures held { F.held files.new ≡ F.held files.old }
    ensures follows { Follows (spec.run_script image.now (drop 2 (map string_bytes words.now)))
        (read_between F.held F.faults F.last files.old files.new) result }
{
    let bytes = fetch_word(alloc, 1, image, IMAGE_LIMIT, files)?;
    run_bytes(alloc, bytes.as_slice(), words, files)
}

/// Runs the image of these bytes.
fn run_bytes<F: Files>(
    alloc: Global,
    bytes: &[u8],
    words: &[String],
    files: &mut F,
) -> Result<Answer, Stop>
    requires { 2 ≤ length words.now }
    ensures held { F.held files.new ≡ F.held files.old }
    ensures follows { Follows (spec.image_script (drop 2 (map string_bytes words.now)) (read bytes.now))
        (read_between F.held F.faults F.last files.old files.new) result }
{
    let image = read_image(alloc, bytes)?;
    run_image(alloc, &image, words, files)
}

/// Reads the arguments of an image, and runs it on them.
fn run_image<F: Files>(
    alloc: Global,
    image: &Image,
    words: &[String],
    files: &mut F,
) -> Result<Answer, Stop>
    requires places { 2 ≤ length words.now }
    requires limits { IsWithinLimits image.now }
    ensures held { F.held files.new ≡ F.held files.old }
    ensures follows { Follows (spec.image_script (drop 2 (map string_bytes words.now)) (Ok image.now))
        (read_between F.held F.faults F.last files.old files.new) result }
{
    let args = take_args(alloc, FIRST, image.params.as_slice(), words, files)?;
    run_on(alloc, image, &args)
}

/// Runs an image on arguments.
fn run_on(alloc: Global, image: &Image, args: &Args) -> Result<Answer, Stop>
    requires { IsWithinLimits image.now }
    ensures { Gives result (λ a. spec.RunsFrom image.now args.now (loading.loaded image.now args.now) a) }
{
    let mut machine = load(alloc, image, args)?;
    Ok(run_machine(alloc, image, args, &mut machine)?)
}

/// Runs a machine that is loaded.
fn run_machine(
    alloc: Global,
    image: &Image,
    args: &Args,
    machine: &mut Machine,
) -> Result<Answer, NoMemory>
    requires limits { IsWithinLimits image.now }
    requires judged { judged image.now args.now ≡ Ok tt }
    requires machine { IsMachine (state_of machine.old) }
    ensures { IfOk result (λ a. spec.RunEnds image.now args.now (state_of machine.old) a) }
{
    let bound = bound_at(alloc, image, args)?;
    let end = machine.run(RETURN_ADDRESS, budget(bound));
    answer_for(alloc, image, args, bound, end, machine)
}

/// The answer for how a run ended.
fn answer_for(
    alloc: Global,
    image: &Image,
    args: &Args,
    bound: u128,
    end: End,
    machine: &Machine,
) -> Result<Answer, NoMemory>
    requires limits { IsWithinLimits image.now }
    requires judged { judged image.now args.now ≡ Ok tt }
    requires bound { bound ≡ spec.bound_at image.now args.now }
    ensures { IfOk result (λ a. a ≡ spec.run_answer image.now args.now end (state_of machine.now)) }
{
    match end {
        End::Returned { steps } => {
            let results = read_results(alloc, machine, image, args)?;
            let out = print_results(alloc, &results)?;
            let note = returned_line(alloc, steps, bound)?;
            Ok(done(out, note))
        }
        End::Trapped { cause, pc, steps } => {
            unfinished(alloc, trapped_text(alloc, cause, pc, steps)?)
        }
        End::OutOfSteps { steps } => unfinished(alloc, out_of_steps_text(alloc, steps)?),
    }
}

/// The image's bound at the arguments.
pub fn bound_at(alloc: Global, image: &Image, args: &Args) -> Result<u128, NoMemory>
    requires { judged image.now args.now ≡ Ok tt }
    ensures { IfOk result (λ bound. bound ≡ spec.bound_at image.now args.now) }
{
    let values = symbol_values(alloc, image.params.as_slice(), args.as_slice())?;
    Ok(image.bound.at(values.as_slice()))
}

/// As many steps as the bound, and at most 1,000,000,000.
pub fn budget(bound: u128) -> u64
    ensures { result ≡ spec.budget_of bound }
{
    if bound <= u128::from(MOST_STEPS) {
        bound as u64
    } else {
        MOST_STEPS
    }
}

fn returned_line(alloc: Global, steps: u64, bound: u128) -> Result<Text, NoMemory>
    ensures { IfOk result (λ text. text ≡ spec.returned_line steps bound) }
{
    let mut text = Text::from_slice(alloc, b"run: returned in ")?;
    text.push_number(u128::from(steps))?;
    text.extend_from_slice(b" steps, bound ")?;
    text.push_number(bound)?;
    text.push(b'\n')?;
    Ok(text)
}

/// Why a run trapped, without a line feed.
pub fn trapped_text(alloc: Global, cause: Cause, pc: u32, steps: u64) -> Result<Text, NoMemory>
    ensures { IfOk result (λ text. text ≡ spec.trapped_text cause pc steps) }
{
    let cause = format!(in alloc; "trapped {cause} ")?;
    let mut text = Text::from_slice(alloc, cause.as_bytes())?;
    put_word(&mut text, pc)?;
    text.push(b' ')?;
    text.push_number(u128::from(steps))?;
    Ok(text)
}

/// That a run had no steps left, without a line feed.
pub fn out_of_steps_text(alloc: Global, steps: u64) -> Result<Text, NoMemory>
    ensures { IfOk result (λ text. text ≡ spec.out_of_steps_text steps) }
{
    let mut text = Text::from_slice(alloc, b"out of steps ")?;
    text.push_number(u128::from(steps))?;
    Ok(text)
}
