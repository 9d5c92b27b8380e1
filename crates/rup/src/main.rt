//! The program `rup`: the top call over the disk and the standard streams.
#![tactic(auto)]

use rup_io::{DiskFiles, StdSink};
use rup_top::top;
use std::env::Env;
use std::process::ExitCode;
use std::{env, io};

/// The status where the words can't be had; the top call never answers it.
const NO_WORDS: u8 = 8;

/// The words after the program's name.
fn words(rt: &(impl Env + AllocGlobal)) -> io::Result<Vec<String>> {
    let mut words = Vec::new(rt.alloc());
    for word in env::args(rt)?.skip(1) {
        words.push(word)?;
    }
    Ok(words)
}

fn main(rt: HostRuntime) -> ExitCode {
    let Ok(words) = words(&rt) else {
        return ExitCode::from(NO_WORDS);
    };
    let mut files = DiskFiles::new(&rt);
    let mut out = StdSink::new(rt.stdout());
    let mut notes = StdSink::new(rt.stderr());
    let status = top(
        rt.alloc(),
        words.as_slice(),
        &mut files,
        &mut out,
        &mut notes,
    );
    ExitCode::from(status.0)
}
