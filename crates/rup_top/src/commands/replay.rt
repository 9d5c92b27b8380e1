//! `replay M D [size=N]`: a model and a derivation to an image.
ghost use Rattle.std.specs.Prelude.{◌≡◌, ◌≤◌, length, IfOk};
ghost use Rattle.rup_top.specs.Frame.{read_between};
ghost use Rattle.rup_top.specs.Inputs.{model_limit, tree_limit};
ghost use Rattle.rup_top.specs.Steps.{Gives, Follows};
ghost use Rattle.rup_top.specs.Words.{most_size};
ghost use Rattle.rup_top.specs.commands.Derivations as derivations;
ghost use Rattle.rup_top.specs.commands.Replay as spec;

use crate::answer::{Answer, Stop};
use crate::answers::done;
use crate::bounds::{entry_texts, push_bound};
use crate::commands::derivations::judge;
use crate::frame::fetch_word;
use crate::inputs::{MODEL_LIMIT, TREE_LIMIT};
use model_syntax::Model;
use pipeline::image;
use replayer::Checked;
use rup_base::{NoMemory, Text};
use rup_io::Files;
use std::alloc::Global;

/// Fetches both files and judges them. The code of the image has at most `size` bytes, at most 1,000,000.
pub fn replay<F: Files>(
    alloc: Global,
    model: &str,
    tree: &str,
    size: u32,
    files: &mut F,
) -> Result<Answer, Stop>
    requires { size ≤ most_size }
    ensures held { F.held files.new ≡ F.held files.old }
    ensures follows { Follows (spec.replay_script model.now tree.now size)
        (read_between F.held F.faults F.last files.old files.new) result }
{
    let model = fetch_word(alloc, 1, model, MODEL_LIMIT, files)?;
    let tree = fetch_word(alloc, 2, tree, TREE_LIMIT, files)?;
    reply(alloc, model.as_slice(), tree.as_slice(), size)
}

/// The image and its note, or the first refusal.
fn reply(alloc: Global, model: &[u8], tree: &[u8], size: u32) -> Result<Answer, Stop>
    requires model { length model.now ≤ model_limit }
    requires tree { length tree.now ≤ tree_limit }
    requires size { size ≤ most_size }
    ensures { Gives result (λ a. derivations.Judged spec.Replays size model.now tree.now a) }
{
    let accepted = judge(alloc, model, tree, size)?;
    let image = image(alloc, &accepted.typed, &accepted.checked.command)?;
    let note = replay_line(alloc, accepted.typed.model(), &accepted.checked)?;
    Ok(done(image, note))
}

/// The note of an image that is written.
fn replay_line(alloc: Global, m: &Model, checked: &Checked) -> Result<Text, NoMemory>
    ensures { IfOk result (λ note. note ≡ spec.replay_line m.now checked.now) }
{
    let command = &checked.command;
    let texts = entry_texts(alloc, m.params.as_slice())?;
    let mut note = Text::from_slice(alloc, b"replay: nodes ")?;
    note.push_number(u128::from(checked.nodes))?;
    note.extend_from_slice(b" locals ")?;
    note.push_number(u128::from(command.locals))?;
    note.extend_from_slice(b" depth ")?;
    note.push_number(u128::from(command.depth))?;
    note.extend_from_slice(b" weight ")?;
    note.push_number(u128::from(command.weight))?;
    note.extend_from_slice(b" bound ")?;
    push_bound(&mut note, texts.as_slice(), &command.bound)?;
    note.push(b'\n')?;
    Ok(note)
}
