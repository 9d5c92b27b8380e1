//! A table of short cases, one in each line: `NAME: CALL OPERANDS = WANTED`.
use crate::case::{Row, read_row};
use crate::fault::Fault;
use crate::tally::Tally;
use std::alloc::Global;
use std::io;

/// The calls of a program of rows.
pub trait Calls {
    /// What a call answers, as `decode 000012b7`.
    fn answer(&self, alloc: Global, call: &str) -> Result<String, Fault>;
}

/// Judges each row of a table by what its call answers.
pub fn judge_table<C: Calls>(
    rt: &(impl Print + AllocGlobal),
    tally: &mut Tally,
    calls: &C,
    table: &str,
) -> io::Result<()> {
    for line in table.lines() {
        match read_row(line) {
            Row::Nothing => {}
            Row::Bad => tally.judge(rt, line, Fault::BadLine.name(), "")?,
            Row::Asked { call, wanted } => judge_row(rt, tally, calls, call, wanted)?,
        }
    }
    Ok(())
}

fn judge_row<C: Calls>(
    rt: &(impl Print + AllocGlobal),
    tally: &mut Tally,
    calls: &C,
    call: &str,
    wanted: &str,
) -> io::Result<()> {
    let (name, call) = call.split_once(": ").unwrap_or(("", call));
    match calls.answer(rt.alloc(), call) {
        Ok(found) => tally.judge(rt, name, found.as_str(), wanted),
        Err(Fault::NoMemory) => Err(io::Error::from(io::ErrorKind::OutOfMemory)),
        Err(fault) => tally.judge(rt, name, fault.name(), wanted),
    }
}
