//! `eval M ARG*`: a model and arguments to its results.
ghost use Rattle.std.specs.Prelude.{◌≡◌, ◌≤◌, Ok, map, drop, length, string_bytes};
ghost use Rattle.rup_base.specs.Answers.{Answers};
ghost use Rattle.rup_top.specs.Frame.{read_between};
ghost use Rattle.rup_top.specs.Inputs.{model_limit, typed_model as typed_model_of};
ghost use Rattle.rup_top.specs.Steps.{Gives, Follows};
ghost use Rattle.rup_top.specs.commands.Eval as spec;

use crate::answer::{Answer, Stop};
use crate::answers::done;
use crate::frame::{fetch_word, take_args};
use crate::inputs::{MODEL_LIMIT, typed_model};
use model_types::Typed;
use model_value::value;
use run_setup::{judge_size, print_results};
use rup_base::{Args, Fail, Results, Text};
use rup_io::Files;
use std::alloc::Global;

/// The place of the first argument among the words.
const FIRST: u32 = 2;

/// Fetches the model, reads the arguments, and evaluates the model on them.
pub fn eval<F: Files>(
    alloc: Global,
    model: &str,
    words: &[String],
    files: &mut F,
) -> Result<Answer, Stop>
    requires { 2 ≤ length words.now }
    ensures held { F.held files.new ≡ F.held files.old }
    ensures follows { Follows (spec.eval_script model.now (drop 2 (map string_bytes words.now)))
        (read_between F.held F.faults F.last files.old files.new) result }
{
    let bytes = fetch_word(alloc, 1, model, MODEL_LIMIT, files)?;
    eval_bytes(alloc, bytes.as_slice(), words, files)
}

/// Evaluates the model of these bytes.
fn eval_bytes<F: Files>(
    alloc: Global,
    bytes: &[u8],
    words: &[String],
    files: &mut F,
) -> Result<Answer, Stop>
    requires places { 2 ≤ length words.now }
    requires small { length bytes.now ≤ model_limit }
    ensures held { F.held files.new ≡ F.held files.old }
    ensures follows { Follows (spec.model_script (drop 2 (map string_bytes words.now)) (typed_model_of bytes.now))
        (read_between F.held F.faults F.last files.old files.new) result }
{
    let typed = typed_model(alloc, bytes)?;
    eval_model(alloc, &typed, words, files)
}

/// Reads the arguments of a model, and evaluates it on them.
fn eval_model<F: Files>(
    alloc: Global,
    typed: &Typed,
    words: &[String],
    files: &mut F,
) -> Result<Answer, Stop>
    requires { 2 ≤ length words.now }
    ensures held { F.held files.new ≡ F.held files.old }
    ensures follows { Follows (spec.model_script (drop 2 (map string_bytes words.now)) (Ok typed.now.inner))
        (read_between F.held F.faults F.last files.old files.new) result }
{
    let kinds = typed.kinds(alloc)?;
    let args = take_args(alloc, FIRST, kinds.as_slice(), words, files)?;
    eval_on(alloc, typed, &args)
}

/// Evaluates a model on arguments.
fn eval_on(alloc: Global, typed: &Typed, args: &Args) -> Result<Answer, Stop>
    ensures { Gives result (λ a. a ≡ spec.eval_answer typed.now.inner args.now) }
{
    let results = evaluated(alloc, typed, args)?;
    let out = print_results(alloc, &results)?;
    Ok(done(out, Text::new(alloc)))
}

fn evaluated(alloc: Global, typed: &Typed, args: &Args) -> Result<Results, Fail>
    ensures { Answers result (spec.evaluated typed.now.inner args.now) }
{
    judge_size(args.as_slice())?;
    value(alloc, typed, args)
}
