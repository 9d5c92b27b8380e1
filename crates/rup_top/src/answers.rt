//! The answers of commands, each as its status says.
ghost use Rattle.std.specs.Prelude.{◌≡◌, ◌∷◌, ◌++◌, IfOk, OnOk};
ghost use Rattle.std.specs.Fmt.{decimal};
ghost use Rattle.rup_top.specs.Answer as spec;

use crate::answer::Answer;
use rup_base::{NoMemory, Refusal, Text, refusal_line};
use std::alloc::Global;

/// The words fit no row of the command table.
pub fn usage(alloc: Global) -> Result<Answer, NoMemory>
    ensures { IfOk result (λ a. a ≡ spec.usage_answer) }
{
    let note = Text::from_slice(
        alloc,
        b"usage: rup compile M LEMMAS* / replay M D [size=N] / code M D / run IMAGE ARG* / eval M ARG* / show IMAGE / bench SEED COUNT\n",
    )?;
    Ok(Answer {
        status: 2,
        out: Text::new(alloc),
        note,
    })
}

/// The input is refused.
pub fn refused(alloc: Global, refusal: &Refusal) -> Result<Answer, NoMemory>
    ensures { IfOk result (λ a. a ≡ spec.refused refusal.now) }
{
    let note = refusal_line(alloc, refusal)?;
    Ok(Answer {
        status: status_of(refusal),
        out: Text::new(alloc),
        note,
    })
}

/// A search that is stuck has a status of its own.
fn status_of(refusal: &Refusal) -> u8
    ensures { result ≡ spec.status_of refusal.now }
{
    match refusal {
        Refusal::Stuck { .. } => 6,
        _ => 1,
    }
}

/// The file of the word at this place could not be read.
pub fn read_fault(alloc: Global, place: u32) -> Result<Answer, NoMemory>
    ensures { IfOk result (λ a. a ≡ spec.read_fault place) }
{
    let mut note = Text::from_slice(alloc, b"read fault at word ")?;
    note.push_number(u128::from(place))?;
    note.push(b'\n')?;
    Ok(Answer {
        status: 3,
        out: Text::new(alloc),
        note,
    })
}

/// The command is done: what it writes, and its note.
pub fn done(out: Text, note: Text) -> Answer
    ensures { result ≡ spec.done out note }
{
    Answer {
        status: 0,
        out,
        note,
    }
}

/// A run didn't return; the note says why, and has no line feed yet.
pub fn unfinished(alloc: Global, note: Text) -> Result<Answer, NoMemory>
    ensures { IfOk result (λ a. a ≡ spec.unfinished note) }
{
    let mut note = note;
    note.push(b'\n')?;
    Ok(Answer {
        status: 7,
        out: Text::new(alloc),
        note,
    })
}
