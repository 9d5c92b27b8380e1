//! The cases of one file.
use crate::answer::found_by;
use row_cases::{Fault, Tally, read_case};
use rup_io::DiskFiles;
use std::{fs, io};

/// Judges the cases of a file, one after another.
pub fn judge_group(rt: &HostRuntime, path: &str, tally: &mut Tally) -> io::Result<()> {
    let text = fs::read_to_string(rt, path)?;
    let mut disk = DiskFiles::new(rt);
    let mut held = Vec::new(rt.alloc());
    for paragraph in text.split("\n\n") {
        let Some(case) = read_case(rt.alloc(), paragraph)? else {
            continue;
        };
        match found_by(rt.alloc(), &mut disk, &mut held, &case) {
            Ok(found) => tally.judge(rt, case.name, found.as_str(), case.wanted.as_str())?,
            Err(Fault::NoMemory) => return Err(io::Error::from(io::ErrorKind::OutOfMemory)),
            Err(fault) => tally.judge(rt, case.name, fault.name(), case.wanted.as_str())?,
        }
    }
    Ok(())
}
