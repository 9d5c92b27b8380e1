//! A rehearsal of the passes in a row: a model with an array, a table and two results, and a command of the same value that
//! is made by hand. Its image is written for the model. The program runs the image on the bytes of its rows, and prints the
//! name of a row with `ok`, or both answers.
#![tactic(auto)]

mod command;
mod image;
mod model;
mod running;

use image::rehearsed;
use row_cases::{Tally, judge_table};
use running::Rehearsal;
use std::process::ExitCode;
use std::{fs, io};

fn main(rt: HostRuntime) -> ExitCode {
    match run(&rt) {
        Ok(()) => ExitCode::SUCCESS,
        Err(_) => ExitCode::FAILURE,
    }
}

fn run(rt: &HostRuntime) -> io::Result<()> {
    let Ok(image) = rehearsed(rt.alloc()) else {
        return Err(io::Error::from(io::ErrorKind::OutOfMemory));
    };
    let rehearsal = Rehearsal { image };
    let mut tally = Tally::new();
    let text = fs::read_to_string(rt, "rows")?;
    judge_table(rt, &mut tally, &rehearsal, text.as_str())?;
    tally.print(rt)
}
