//! The answer of a case.
use crate::asked::{Asked, asked_of};
use crate::call::{Ended, Taken, call};
use crate::files::{Held, add_copies};
use row_cases::{Case, Fault, escaped};
use rup_base::{List, Text};
use rup_io::{Files, MemFiles};
use std::alloc::{AllocError, Global};

/// The answer of a case in lines; none where it has no words. Files that it holds or keeps are added to those held.
pub fn found_by<D: Files>(
    alloc: Global,
    disk: &mut D,
    held: &mut Held,
    case: &Case,
) -> Result<String, Fault> {
    let Asked {
        words,
        mut files,
        fails,
        out,
        notes,
        is_holding,
        keep,
    } = asked_of(alloc, disk, case.asked.as_slice())?;
    if is_holding {
        add_copies(alloc, held, files.as_slice())?;
    }
    let Some(words) = words else {
        return Ok(String::new(alloc));
    };
    add_copies(alloc, &mut files, held.as_slice())?;
    let files = MemFiles::new(List::from_vec(files), fails);
    let Ended { status, out, notes } = call(alloc, words.as_slice(), files, out, notes)?;
    let mut lines = format!(in alloc; "status {status}\n")?;
    match keep {
        Some(name) => {
            add_kept(alloc, &mut lines, &out)?;
            held.push((Text::from_slice(alloc, name.as_bytes())?, out.bytes))?;
        }
        None => add_line(alloc, &mut lines, "out", &out)?,
    }
    add_line(alloc, &mut lines, "notes", &notes)?;
    Ok(lines)
}

/// Adds how many writes a sink saw, and what it took; nothing where it saw none.
fn add_line(
    alloc: Global,
    lines: &mut String,
    name: &str,
    taken: &Taken,
) -> Result<(), AllocError> {
    if taken.writes == 0 {
        return Ok(());
    }
    let space = if taken.bytes.is_empty() { "" } else { " " };
    let bytes = escaped(alloc, taken.bytes.as_slice())?;
    let line = format!(in alloc; "{name} {}{space}{bytes}\n", taken.writes)?;
    lines.push_str(line.as_str())
}

/// Adds how many writes `out` saw, and how many bytes it took, which later cases show.
fn add_kept(alloc: Global, lines: &mut String, taken: &Taken) -> Result<(), AllocError> {
    let line = format!(in alloc; "out {} kept, {} bytes\n", taken.writes, taken.bytes.len())?;
    lines.push_str(line.as_str())
}
