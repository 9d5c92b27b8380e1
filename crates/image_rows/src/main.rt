//! Runs the rows of its file, each a call on an image, an argument or a result and the answer that is wanted of it. The
//! images are files of words. It prints the name of a row with `ok`, or both answers.
#![tactic(auto)]

mod arguments;
mod fields;
mod starting;

use row_cases::{Calls, Fault, Tally, judge_table};
use rup_base::Text;
use std::alloc::Global;
use std::process::ExitCode;
use std::{fs, io};

fn main(rt: HostRuntime) -> ExitCode {
    match run(&rt) {
        Ok(()) => ExitCode::SUCCESS,
        Err(_) => ExitCode::FAILURE,
    }
}

fn run(rt: &HostRuntime) -> io::Result<()> {
    let mut tally = Tally::new();
    let images = Images {
        small: bytes_of_file(rt, "small")?,
        scalar: bytes_of_file(rt, "scalar")?,
        kinds: bytes_of_file(rt, "kinds")?,
    };
    let text = fs::read_to_string(rt, "rows")?;
    judge_table(rt, &mut tally, &images, text.as_str())?;
    tally.print(rt)
}

/// The bytes of a file of words in hexadecimal.
fn bytes_of_file(rt: &HostRuntime, name: &str) -> io::Result<Text> {
    let text = fs::read_to_string(rt, name)?;
    match fields::bytes_of_words(rt.alloc(), text.as_str()) {
        Ok(bytes) => Ok(bytes),
        Err(_) => Err(io::Error::from(io::ErrorKind::InvalidData)),
    }
}

/// The images of the rows: a jump to itself, the same with a scalar result, and one with parameters of all kinds.
#[derive(Drop)]
struct Images {
    small: Text,
    scalar: Text,
    kinds: Text,
}

impl Images {
    fn of_name(&self, name: &str) -> Result<&[u8], Fault> {
        match name.as_bytes() {
            b"small" => Ok(self.small.as_slice()),
            b"scalar" => Ok(self.scalar.as_slice()),
            b"kinds" => Ok(self.kinds.as_slice()),
            _ => Err(Fault::BadLine),
        }
    }
}

impl Calls for Images {
    fn answer(&self, alloc: Global, call: &str) -> Result<String, Fault> {
        let (word, rest) = call.split_once(' ').unwrap_or((call, ""));
        match word.as_bytes() {
            b"argument" => return arguments::read(alloc, rest),
            b"lines" => return arguments::lines(alloc, rest),
            _ => {}
        }
        let (name, rest) = rest.split_once(' ').unwrap_or((rest, ""));
        let bytes = self.of_name(name)?;
        match word.as_bytes() {
            b"image" => fields::shown(alloc, bytes),
            b"first" => fields::cut(alloc, bytes, rest),
            b"word" => fields::changed(alloc, bytes, rest),
            b"start" => starting::started(alloc, bytes, rest),
            b"run" => starting::run(alloc, bytes, rest),
            _ => Err(Fault::BadLine),
        }
    }
}
