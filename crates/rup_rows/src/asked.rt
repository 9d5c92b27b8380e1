//! What the lines of a case ask for.
use crate::files::{Held, add_file, add_part};
use row_cases::{Fault, number_of, numbers_of};
use rup_base::List;
use rup_io::Files;
use std::alloc::Global;

/// The room of a sink where a case names none.
const ROOM: u32 = 16_384;

/// A sink in memory: its room, and the numbers of its writes that are to fail.
#[derive(Drop)]
pub struct Room {
    pub capacity: u32,
    pub fails: List<u32>,
}

impl Room {
    fn new(alloc: Global) -> Room {
        Room {
            capacity: ROOM,
            fails: List::new(alloc),
        }
    }
}

/// The words of a call, its files, the numbers of the fetches that are to fail, and its two sinks. The files are held for
/// the later cases too where the case says so, and what `out` takes is held under the name that it gives.
#[derive(Drop)]
pub struct Asked<'a> {
    pub words: Option<Vec<String>>,
    pub files: Held,
    pub fails: List<u32>,
    pub out: Room,
    pub notes: Room,
    pub is_holding: bool,
    pub keep: Option<&'a str>,
}

/// What the lines ask for.
pub fn asked_of<'a, D: Files>(
    alloc: Global,
    disk: &mut D,
    lines: &[&'a str],
) -> Result<Asked<'a>, Fault> {
    let mut asked = Asked::new(alloc);
    for line in lines {
        asked.take_line(alloc, disk, line)?;
    }
    Ok(asked)
}

impl<'a> Asked<'a> {
    fn new(alloc: Global) -> Asked<'a> {
        Asked {
            words: None,
            files: Vec::new(alloc),
            fails: List::new(alloc),
            out: Room::new(alloc),
            notes: Room::new(alloc),
            is_holding: false,
            keep: None,
        }
    }

    /// Takes a line of the case.
    fn take_line<D: Files>(
        &mut self,
        alloc: Global,
        disk: &mut D,
        line: &'a str,
    ) -> Result<(), Fault> {
        let (key, rest) = line.split_once(' ').unwrap_or((line, ""));
        match key.as_bytes() {
            b"words" => self.words = Some(words_of(alloc, rest)?),
            b"fails" => self.fails = numbers_of(alloc, rest)?,
            b"out-capacity" => self.out.capacity = number_of(rest)?,
            b"out-fails" => self.out.fails = numbers_of(alloc, rest)?,
            b"notes-capacity" => self.notes.capacity = number_of(rest)?,
            b"notes-fails" => self.notes.fails = numbers_of(alloc, rest)?,
            b"hold" => self.is_holding = true,
            b"keep" => self.keep = Some(rest),
            b"file" => add_file(alloc, disk, &mut self.files, rest)?,
            b"more" => add_part(alloc, disk, &mut self.files, rest)?,
            _ => return Err(Fault::BadLine),
        }
        Ok(())
    }
}

fn words_of(alloc: Global, text: &str) -> Result<Vec<String>, Fault> {
    let mut words = Vec::new(alloc);
    for word in text.split_whitespace() {
        words.push(String::from_str(alloc, word)?)?;
    }
    Ok(words)
}
