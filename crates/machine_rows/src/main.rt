//! Runs the rows of its files, each a call of a crate of the machine's floors and the answer that is wanted of it:
//! instruction words both ways, numbers in memory, steps of the machine, commands and their runs, and emitted code on
//! the machine. It prints the name of a row with `ok`, or both answers.
#![tactic(auto)]

mod bytes;
mod command;
mod emitted;
mod fields;
mod meaning;
mod mnemonic;
mod numbers;
mod parts;
mod registers;
mod state;
mod words;

use row_cases::{Calls, Fault, Tally, judge_table};
use std::alloc::Global;
use std::process::ExitCode;
use std::{fs, io};

/// The files with the rows, in the order in which they are run.
const FILES: [&str; 5] = ["words", "memory", "steps", "commands", "emitted"];

fn main(rt: HostRuntime) -> ExitCode {
    match run(&rt) {
        Ok(()) => ExitCode::SUCCESS,
        Err(_) => ExitCode::FAILURE,
    }
}

fn run(rt: &HostRuntime) -> io::Result<()> {
    let mut tally = Tally::new();
    for name in FILES {
        let text = fs::read_to_string(rt, name)?;
        judge_table(rt, &mut tally, &Machines, text.as_str())?;
    }
    tally.print(rt)
}

/// The calls of this program.
#[derive(Drop)]
struct Machines;

impl Calls for Machines {
    fn answer(&self, alloc: Global, call: &str) -> Result<String, Fault> {
        answer(alloc, call)
    }
}

/// What a call answers.
fn answer(alloc: Global, call: &str) -> Result<String, Fault> {
    let (word, rest) = call.split_once(' ').unwrap_or((call, ""));
    match word.as_bytes() {
        b"decode" => words::decoded(alloc, rest),
        b"encode" => words::encoded(alloc, rest),
        b"field" => words::field(alloc, rest),
        b"memory" => numbers::numbers(alloc, rest),
        b"step" => state::stepped(alloc, rest),
        b"run" => state::run(alloc, rest),
        b"print" => meaning::printed(alloc, rest),
        b"apply" => meaning::applied(alloc, rest),
        b"exec" => meaning::executed(alloc, rest),
        b"call" => emitted::called(alloc, rest),
        b"compare" => emitted::compared(alloc, rest),
        _ => Err(Fault::BadLine),
    }
}
