//! The worked rows: runs the cases of the files that its words name, each a call of the top call over files and sinks in
//! memory, and prints which have the answer that stands beside them. `data/README` has the language of the cases.
#![tactic(auto)]

mod answer;
mod asked;
mod call;
mod files;
mod group;

use crate::group::judge_group;
use row_cases::Tally;
use std::env::Env;
use std::process::ExitCode;
use std::{env, io};

fn main(rt: HostRuntime) -> ExitCode {
    match judge_all(&rt) {
        Ok(()) => ExitCode::SUCCESS,
        Err(_) => ExitCode::FAILURE,
    }
}

/// Judges the cases of each file, and prints how many there were.
fn judge_all(rt: &HostRuntime) -> io::Result<()> {
    let mut tally = Tally::new();
    for path in env::args(rt)?.skip(1) {
        println!(rt; "{path}")?;
        judge_group(rt, path.as_str(), &mut tally)?;
    }
    tally.print(rt)
}

#[cfg(test)]
mod tests;
