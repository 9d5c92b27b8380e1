//! `code M D`: the text of the command that a derivation derives.
ghost use Rattle.std.specs.Prelude.{◌≡◌, ◌≤◌, length};
ghost use Rattle.rup_top.specs.Frame.{read_between};
ghost use Rattle.rup_top.specs.Inputs.{model_limit, tree_limit};
ghost use Rattle.rup_top.specs.Steps.{Gives, Follows};
ghost use Rattle.rup_top.specs.Words.{most_size};
ghost use Rattle.rup_top.specs.commands.Code as spec;
ghost use Rattle.rup_top.specs.commands.Derivations as derivations;

use crate::answer::{Answer, Stop};
use crate::answers::done;
use crate::commands::derivations::judge;
use crate::frame::fetch_word;
use crate::inputs::{MODEL_LIMIT, TREE_LIMIT};
use crate::words::MOST_SIZE;
use bed_syntax::print_cmd;
use rup_base::Text;
use rup_io::Files;
use std::alloc::Global;

/// Fetches both files and judges them, as `replay` does at its greatest size.
pub fn code<F: Files>(alloc: Global, model: &str, tree: &str, files: &mut F) -> Result<Answer, Stop>
    ensures held { F.held files.new ≡ F.held files.old }
    ensures follows { Follows (spec.code_script model.now tree.now) (read_between F.held F.faults F.last files.old files.new)
        result }
{
    let model = fetch_word(alloc, 1, model, MODEL_LIMIT, files)?;
    let tree = fetch_word(alloc, 2, tree, TREE_LIMIT, files)?;
    reply(alloc, model.as_slice(), tree.as_slice())
}

/// The text of the derived command and a line feed, or the first refusal.
fn reply(alloc: Global, model: &[u8], tree: &[u8]) -> Result<Answer, Stop>
    requires model { length model.now ≤ model_limit }
    requires tree { length tree.now ≤ tree_limit }
    ensures { Gives result (λ a. derivations.Judged spec.Prints most_size model.now tree.now a) }
{
    let accepted = judge(alloc, model, tree, MOST_SIZE)?;
    let mut text = print_cmd(alloc, &accepted.checked.command.command)?;
    text.push(b'\n')?;
    Ok(done(text, Text::new(alloc)))
}
