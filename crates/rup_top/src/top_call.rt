//! The top call.
ghost use Rattle.std.specs.Prelude.{◌≡◌, ◌≢◌, ◌≤◌, ◌⊎◌, map, string_bytes, IfOk};
ghost use Rattle.std.specs.Io.KnownBytes.{Keeps};
ghost use Rattle.rup_io.specs.Count.{Rose};
ghost use Rattle.rup_top.specs.Dispatch.{script_of, Promise, Compiled, WritesOnly, WritesAll};
ghost use Rattle.rup_top.specs.Frame.{Answers, Faulted, Ends, IsTold, call_with, read_between, sunk_between};
ghost use Rattle.rup_top.specs.Steps.{Follows};
ghost use Rattle.rup_top.specs.Words.{command_of, usage as usage_row};

use crate::answer::{Answer, Stop};
use crate::answers;
use crate::commands::bench::bench;
use crate::commands::code::code;
use crate::commands::compile::compile;
use crate::commands::eval::eval;
use crate::commands::replay::replay;
use crate::commands::run::run;
use crate::commands::show::show;
use crate::frame::{answered, deliver};
use crate::words::{Request, request_of};
use rup_base::NoMemory;
use rup_io::{Files, Sink};
use std::alloc::Global;

/// How a call of the compiler ended, from 0 to 7.
#[derive(Clone, Copy, Debug, PartialEq, Eq)]
pub struct Status(pub u8);

/// Runs the command that the words name, over files and two sinks. `compile M LEMMAS*` writes to `out` the file of a derivation
/// of the model in the file M, which the search finds with the lemmas of the other files in their order; `replay M D` writes to
/// `out` the image for the model in the file M and its derivation in the file D; `code M D` the command that is derived; `run
/// IMAGE ARG*` the results of a run of the image; `eval M ARG*` the value of the model; `show IMAGE` the listing of the image;
/// `bench SEED COUNT` the line of a generated model that is compiled and run. A line of `compile`, of `replay` and of `run`
/// goes to `notes` behind that.
///
/// The status is 0 where the command is done, 1 where its input is refused, 2 where the words fit no row of the
/// command table, 3 where a fetch failed, 4 where a write failed, 5 where memory ran out before the first write, 6
/// where the search of a derivation is stuck, and 7 where a run trapped or was out of steps.
pub fn top<F: Files, O: Sink, N: Sink>(
    alloc: Global,
    words: &[String],
    files: &mut F,
    out: &mut O,
    notes: &mut N,
) -> Status
    ensures held { F.held files.new ≡ F.held files.old }

    // Usage: status 2 comes exactly where the words fit no row of the command table; a failed write or want of memory
    // may stand in its place. No file is fetched then.
    ensures usage_only { result.0 ≡ 2 → command_of (map string_bytes words.now) ≡ usage_row }
    ensures usage { command_of (map string_bytes words.now) ≡ usage_row
        → (result.0 ≡ 2) ⊎ (((result.0 ≡ 4) × (Rose (O.faults out.old) (O.faults out.new) ⊎ Rose (N.faults notes.old) (N.faults notes.new))) ⊎ (result.0 ≡ 5)) }
    ensures no_fetch { command_of (map string_bytes words.now) ≡ usage_row → files.new ≡ files.old }

    // Ends: an answer of the command's script was delivered, whole or in part, or memory ran out. This speaks of files and
    // sinks as far as they are told; the clauses below follow from it.
    ensures ends { Ends (script_of (command_of (map string_bytes words.now)))
        (call_with (read_between F.held F.faults F.last files.old files.new) (sunk_between O.faults O.taken out.old out.new)
        (sunk_between N.faults N.taken notes.old notes.new) result.0) }

    // Told: where files and sinks are told, the call ends in one of four ways: its outcome, a read fault, a write
    // fault, or want of memory.
    ensures told { IsTold (script_of (command_of (map string_bytes words.now)))
        (call_with (read_between F.held F.faults F.last files.old files.new) (sunk_between O.faults O.taken out.old out.new)
        (sunk_between N.faults N.taken notes.old notes.new) result.0) }

    // Untold: the status is one of eight, and each has its cause.
    ensures status { result.0 ≤ 7 }
    ensures read_fault { result.0 ≡ 3
        → Faulted (script_of (command_of (map string_bytes words.now))) (read_between F.held F.faults F.last files.old files.new) }
    ensures write_fault { result.0 ≡ 4
        → Rose (O.faults out.old) (O.faults out.new) ⊎ Rose (N.faults notes.old) (N.faults notes.new) }
    ensures no_memory { result.0 ≡ 5 → (O.taken out.new ≡ O.taken out.old) × (N.taken notes.new ≡ N.taken notes.old) }

    // A call that doesn't end with status 0 or 4 leaves `out` as it was.
    ensures unchanged { result.0 ≢ 0 → result.0 ≢ 4 → Keeps (O.taken out.old) (O.taken out.new) }

    // The headline: an image is written only where the model and its derivation are accepted, and, unless a count of
    // faults rose or memory ran out, wherever they are.
    ensures writes_only { WritesOnly (command_of (map string_bytes words.now))
        (call_with (read_between F.held F.faults F.last files.old files.new) (sunk_between O.faults O.taken out.old out.new)
        (sunk_between N.faults N.taken notes.old notes.new) result.0) }
    ensures writes_all { WritesAll (command_of (map string_bytes words.now))
        (call_with (read_between F.held F.faults F.last files.old files.new) (sunk_between O.faults O.taken out.old out.new)
        (sunk_between N.faults N.taken notes.old notes.new) result.0) }

    // Compiled: what `compile` writes is the file of a derivation that is an instance of the model. The file is read back as
    // that derivation unless that is too deep, as it never is without lemmas, and the replayer accepts it up to the limits of
    // slots, of the bound and of the size.
    ensures compiled { Compiled (command_of (map string_bytes words.now))
        (call_with (read_between F.held F.faults F.last files.old files.new) (sunk_between O.faults O.taken out.old out.new)
        (sunk_between N.faults N.taken notes.old notes.new) result.0) }

    // Kept: what the command promises. `run` and `eval` write exactly the lines of the model's results, where files are told,
    // the arguments meet the model and no count of faults rose, or memory runs out; so `show` writes an image's listing.
    // `bench` writes its line, with the model's results, where the search finds a derivation that is accepted and its bound is
    // at most 10^9.
    ensures keeps { Promise (command_of (map string_bytes words.now))
        (call_with (read_between F.held F.faults F.last files.old files.new) (sunk_between O.faults O.taken out.old out.new)
        (sunk_between N.faults N.taken notes.old notes.new) result.0) }
{
    call(alloc, words, files, out, notes)
}

/// The call, with the one clause from which all others follow.
fn call<F: Files, O: Sink, N: Sink>(
    alloc: Global,
    words: &[String],
    files: &mut F,
    out: &mut O,
    notes: &mut N,
) -> Status
    ensures held { F.held files.new ≡ F.held files.old }
    ensures no_fetch { command_of (map string_bytes words.now) ≡ usage_row → files.new ≡ files.old }
    ensures ends { Ends (script_of (command_of (map string_bytes words.now)))
        (call_with (read_between F.held F.faults F.last files.old files.new) (sunk_between O.faults O.taken out.old out.new)
        (sunk_between N.faults N.taken notes.old notes.new) result.0) }
{
    match answer_of(alloc, words, files) {
        Ok(answer) => Status(deliver(&answer, out, notes)),
        Err(NoMemory) => Status(5),
    }
}

/// The answer of the command that the words name.
fn answer_of<F: Files>(alloc: Global, words: &[String], files: &mut F) -> Result<Answer, NoMemory>
    ensures held { F.held files.new ≡ F.held files.old }
    ensures no_fetch { command_of (map string_bytes words.now) ≡ usage_row → files.new ≡ files.old }
    ensures answers { IfOk result (λ a. Answers (script_of (command_of (map string_bytes words.now)))
        (read_between F.held F.faults F.last files.old files.new) a) }
{
    let ended = commanded(alloc, words, files);
    answered(alloc, ended)
}

/// What the command comes to, or why it ends before its last step.
fn commanded<F: Files>(alloc: Global, words: &[String], files: &mut F) -> Result<Answer, Stop>
    ensures held { F.held files.new ≡ F.held files.old }
    ensures no_fetch { command_of (map string_bytes words.now) ≡ usage_row → files.new ≡ files.old }
    ensures follows { Follows (script_of (command_of (map string_bytes words.now)))
        (read_between F.held F.faults F.last files.old files.new) result }
{
    match request_of(words) {
        Request::Usage => Ok(answers::usage(alloc)?),
        Request::Compile { model, lemmas } => compile(alloc, model, lemmas, files),
        Request::Replay { model, tree, size } => replay(alloc, model, tree, size, files),
        Request::Code { model, tree } => code(alloc, model, tree, files),
        Request::Run { image, words } => run(alloc, image, words, files),
        Request::Eval { model, words } => eval(alloc, model, words, files),
        Request::Show { image } => show(alloc, image, files),
        Request::Bench { seed, count } => bench(alloc, seed, count),
    }
}
