//! Runs the rows of its files, each a call of a crate of the proof objects and the answer that is wanted of it: forms,
//! certificates, bounds, contexts, rules and derivation files. It prints the name of a row with `ok`, or both answers.
#![tactic(auto)]

mod bounds;
mod calls;
mod contexts;
mod derivations;
mod forms;

use row_cases::{Calls, Fault, Tally, judge_table};
use std::alloc::Global;
use std::process::ExitCode;
use std::{fs, io};

/// The files with the rows, in the order in which they are run.
const FILES: [&str; 5] = ["certificates", "bounds", "contexts", "calls", "derivations"];

fn main(rt: HostRuntime) -> ExitCode {
    match run(&rt) {
        Ok(()) => ExitCode::SUCCESS,
        Err(_) => ExitCode::FAILURE,
    }
}

fn run(rt: &HostRuntime) -> io::Result<()> {
    let mut tally = Tally::new();
    for name in FILES {
        let text = fs::read_to_string(rt, name)?;
        judge_table(rt, &mut tally, &Proofs, text.as_str())?;
    }
    tally.print(rt)
}

/// The calls of this program.
#[derive(Drop)]
struct Proofs;

impl Calls for Proofs {
    fn answer(&self, alloc: Global, call: &str) -> Result<String, Fault> {
        answer(alloc, call)
    }
}

/// What a call answers.
fn answer(alloc: Global, call: &str) -> Result<String, Fault> {
    let (word, rest) = call.split_once(' ').unwrap_or((call, ""));
    match word.as_bytes() {
        b"sum" | b"difference" | b"multiple" => forms::made(alloc, word, rest),
        b"closes" => forms::closed(alloc, rest),
        b"bound" | b"plus" | b"greater" | b"times" => bounds::made(alloc, word, rest),
        b"at" => bounds::value(alloc, rest),
        b"start" => contexts::started(alloc, rest),
        b"free" => contexts::free(alloc, rest),
        b"facts" => contexts::facts(alloc, rest),
        b"calls" => calls::answers(alloc, rest),
        b"rule" => derivations::rule(alloc, rest),
        b"derivation" => derivations::printed(alloc, rest),
        _ => Err(Fault::BadLine),
    }
}
