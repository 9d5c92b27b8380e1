//! Runs the rows of its files, each a call of a crate of the model's text, types or value and the answer that is wanted
//! of it. It prints the name of a row with `ok`, or both answers.
#![tactic(auto)]

mod forms;
mod models;
mod typed;
mod values;

use row_cases::{Calls, Fault, Tally, judge_table};
use std::alloc::Global;
use std::process::ExitCode;
use std::{fs, io};

/// The files with the rows, in the order in which they are run.
const FILES: [&str; 4] = ["forms", "models", "types", "values"];

fn main(rt: HostRuntime) -> ExitCode {
    match run(&rt) {
        Ok(()) => ExitCode::SUCCESS,
        Err(_) => ExitCode::FAILURE,
    }
}

fn run(rt: &HostRuntime) -> io::Result<()> {
    let mut tally = Tally::new();
    for name in FILES {
        let text = fs::read_to_string(rt, name)?;
        judge_table(rt, &mut tally, &Texts, text.as_str())?;
    }
    tally.print(rt)
}

/// The calls of this program.
#[derive(Drop)]
struct Texts;

impl Calls for Texts {
    fn answer(&self, alloc: Global, call: &str) -> Result<String, Fault> {
        answer(alloc, call)
    }
}

/// What a call answers.
fn answer(alloc: Global, call: &str) -> Result<String, Fault> {
    let (word, rest) = call.split_once(' ').unwrap_or((call, ""));
    match word.as_bytes() {
        b"name" => forms::name(alloc, rest),
        b"forms" => forms::forms(alloc, rest),
        b"model" => models::printed(alloc, rest),
        b"counts" => models::counts(alloc, rest),
        b"names" => models::names(alloc, rest),
        b"copy" => models::copy(alloc, rest),
        b"types" => typed::kinds(alloc, rest),
        b"sentence" => typed::sentence(alloc, rest),
        b"value" => values::valued(alloc, rest),
        _ => Err(Fault::BadLine),
    }
}
