//! The frame of the top call, which knows no command: the one way in which a command fetches the file of a word, the one
//! in which it reads arguments, the answer of a command that ends early, and the writes of an answer to the two sinks.
ghost use Rattle.std.specs.Prelude.{◌≡◌, ◌≤◌, ◌<◌, ◌+◌, ◌^◌, length, map, drop, string_bytes, IfOk, IfErr};
ghost use Rattle.rup_top.specs.Frame.{read_between, sunk_between, Delivers};
ghost use Rattle.rup_top.specs.Steps as steps;

use crate::answer::{Answer, Stop};
use crate::answers;
use run_setup::read_args;
use rup_base::{Args, Kind, NoMemory, Refusal, Text};
use rup_io::{FetchFault, Files, Sink};
use std::alloc::Global;

/// The bytes of the file that the word at this place names, else why the command ends.
pub fn fetch_word<F: Files>(
    alloc: Global,
    place: u32,
    name: &str,
    limit: u32,
    files: &mut F,
) -> Result<Text, Stop>
    ensures held { F.held files.new ≡ F.held files.old }
    ensures ok { IfOk result (λ bytes. steps.Fetched name.now limit bytes
        (read_between F.held F.faults F.last files.old files.new)) }
    ensures err { IfErr result (λ stop. steps.Breaks (steps.fetch_alone place name.now limit)
        (read_between F.held F.faults F.last files.old files.new) stop) }
{
    match files.fetch(alloc, name, limit) {
        Ok(bytes) => Ok(bytes),
        Err(FetchFault::Failed) => Err(Stop::ReadFault { place }),
        Err(FetchFault::TooLong) => Err(Stop::Refused(Refusal::TooLong { word: place, limit })),
        Err(FetchFault::NoMemory) => Err(Stop::NoMemory),
    }
}

/// The arguments for parameters of these kinds, from the words from the first place on, else why the command ends.
pub fn take_args<F: Files>(
    alloc: Global,
    first: u32,
    kinds: &[Kind],
    words: &[String],
    files: &mut F,
) -> Result<Args, Stop>
    requires inside { first ≤ length words.now }
    requires places { first + length kinds.now < 2 ^ 32 }
    ensures held { F.held files.new ≡ F.held files.old }
    ensures ok { IfOk result (λ args. steps.Taken first kinds.now (drop first (map string_bytes words.now)) args
        (read_between F.held F.faults F.last files.old files.new)) }
    ensures err { IfErr result (λ stop.
        steps.Breaks (steps.arguments_alone first kinds.now (drop first (map string_bytes words.now)))
        (read_between F.held F.faults F.last files.old files.new) stop) }
{
    match read_args(alloc, kinds, words, first, files) {
        Ok(args) => Ok(args),
        Err(fail) => Err(fail.into()),
    }
}

/// The answer of a command that came to one or ended early.
pub fn answered(alloc: Global, ended: Result<Answer, Stop>) -> Result<Answer, NoMemory>
    ensures { IfOk result (λ a. steps.Tells ended a) }
{
    match ended {
        Ok(answer) => Ok(answer),
        Err(Stop::Refused(refusal)) => answers::refused(alloc, &refusal),
        Err(Stop::ReadFault { place }) => answers::read_fault(alloc, place),
        Err(Stop::NoMemory) => Err(NoMemory),
    }
}

/// Writes to `out` first, in one call, and then to `notes`; a text that is empty is not written. Gives the status.
pub fn deliver<O: Sink, N: Sink>(answer: &Answer, out: &mut O, notes: &mut N) -> u8
    ensures { Delivers answer.now (sunk_between O.faults O.taken out.old out.new)
        (sunk_between N.faults N.taken notes.old notes.new) result }
{
    if !answer.out.is_empty() && out.write(answer.out.as_slice()).is_err() {
        return 4;
    }
    if !answer.note.is_empty() && notes.write(answer.note.as_slice()).is_err() {
        return 4;
    }
    answer.status
}
