//! From a command to instructions: three-address code, places of its variables, instructions.
ghost use Rattle.std.specs.Prelude.{◌≡◌, ◌≤◌, ◌%◌, IfOk, length, map};
ghost use Rattle.bed_syntax.specs.Named.{cmd_names};
ghost use Rattle.bed_syntax.specs.Tables.{cmd_tables};
ghost use Rattle.model_command.specs.Computes.{Computes};
ghost use Rattle.model_command.specs.Measures.{IsMeasured, IsSmall};
ghost use Rattle.rv_code.specs.Word.{word_of};
ghost use Rattle.rv_emit.specs.Names.{named_in};
ghost use Rattle.rv_emit.specs.Tables.{text_of};
ghost use Rattle.pipeline.specs.Serves.{Serves};

use bed_syntax::Weights;
use flatten::flatten;
use model_command::ModelCommand;
use model_types::Typed;
use reg_alloc::allocate;
use rup_base::NoMemory;
use rv_emit::{Emitted, emit};
use std::alloc::Global;

/// The instructions of a command that computes a model, with the text of its tables. The error is want of memory alone.
pub fn machine_code(alloc: Global, m: &Typed, c: &ModelCommand) -> Result<Emitted, NoMemory>
    requires computes { Computes Weights.LARGE m.now.inner c.now }
    requires measured { IsMeasured Weights.LARGE m.now.inner c.now }
    requires small { IsSmall c.now }

    // Called from a ready state that holds arguments which meet the model, it returns with the model's results.
    ensures serves { IfOk result (λ e. Serves m.now.inner c.now (map word_of e.code) e.tables e.stack) }
    ensures some { IfOk result (λ e. 1 ≤ length e.code) }
    ensures counted { IfOk result (λ e. length e.code ≤ c.now.weight) }
    ensures stack_aligned { IfOk result (λ e. e.stack % 16 ≡ 0) }
    ensures stack_small { IfOk result (λ e. e.stack ≤ 4096) }
    ensures tables { IfOk result (λ e. e.tables ≡ text_of (cmd_tables c.now.command)) }
    ensures tables_small { IfOk result (λ e. length e.tables ≤ 131_072) }

    // The operations that are known by their instructions are those of the command, in its order.
    ensures names { IfOk result (λ e. named_in e.code ≡ cmd_names c.now.command) }
{
    // for the proof alone: what the command computes
    let _ = m;
    let flat = flatten(alloc, &c.command, c.args, c.rets.as_slice())?;
    let plan = allocate(alloc, &flat)?;
    emit(alloc, &flat, &plan)
}
