//! A call of the top call over sinks in memory.
use crate::asked::Room;
use rup_base::{NoMemory, Text};
use rup_io::{MemFiles, MemSink};
use rup_top::top;
use std::alloc::Global;

/// How many writes a sink saw, and what it took.
#[derive(Drop)]
pub struct Taken {
    pub writes: u64,
    pub bytes: Text,
}

/// How a call ended.
#[derive(Drop)]
pub struct Ended {
    pub status: u8,
    pub out: Taken,
    pub notes: Taken,
}

/// Runs the words over these files and two sinks.
pub fn call(
    alloc: Global,
    words: &[String],
    mut files: MemFiles,
    out: Room,
    notes: Room,
) -> Result<Ended, NoMemory> {
    let mut out = sink_of(alloc, out)?;
    let mut notes = sink_of(alloc, notes)?;
    let status = top(alloc, words, &mut files, &mut out, &mut notes);
    Ok(Ended {
        status: status.0,
        out: taken_by(alloc, &out)?,
        notes: taken_by(alloc, &notes)?,
    })
}

fn sink_of(alloc: Global, room: Room) -> Result<MemSink, NoMemory> {
    let Room { capacity, fails } = room;
    MemSink::new(alloc, capacity, fails)
}

fn taken_by(alloc: Global, sink: &MemSink) -> Result<Taken, NoMemory> {
    Ok(Taken {
        writes: sink.calls(),
        bytes: Text::from_slice(alloc, sink.taken())?,
    })
}
