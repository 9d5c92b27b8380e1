//! The printers of models and of expressions.
ghost use Rattle.std.specs.Prelude.{◌≡◌, ◌≤◌, ℕ, Ok, IfOk};
ghost use Rattle.sx_text.specs.Forms.{deepest};
ghost use Rattle.sx_text.specs.Spelling.{levels, text};
ghost use Rattle.model_syntax.specs.Limits.{Within};
ghost use Rattle.model_syntax.specs.Spelling.{Spellable};
ghost use Rattle.model_printer.specs.Printing as printing;
ghost use Rattle.model_reader.specs.Reading as reading;

use crate::expression_forms::expr_form;
use crate::model_forms::model_form;
use model_syntax::{Expr, Model};
use rup_base::{NoMemory, Text};
use std::alloc::Global;
use sx_text::print_form;

/// The canonical spelling of an expression: one space between forms, none beside a parenthesis's inside,
/// numbers in decimal. No line feed follows.
pub fn print_expr(alloc: Global, e: &Expr) -> Result<Text, NoMemory>
    ensures { IfOk result (λ printed. printed ≡ text (printing.expr e.now)) }
{
    let form = expr_form(alloc, e)?;
    let mut printed = Text::new(alloc);
    print_form(&mut printed, &form)?;
    Ok(printed)
}

/// The canonical spelling of a model: that of its form, and a line feed. What the text of models can spell,
/// within the limits and with at most 256 lists open at one place, is read back as the same model.
#[tactic(auto, using(crate::proofs::Round::printed_model))]
pub fn print_model(alloc: Global, m: &Model) -> Result<Text, NoMemory>
    ensures spelling { IfOk result (λ printed. printed ≡ printing.spelling m.now) }
    ensures read_back { IfOk result
        (λ printed. (word : ℕ) → Spellable m.now → Within m.now → levels (printing.model m.now) ≤ deepest
        → reading.read_model word printed ≡ Ok m.now) }
{
    let form = model_form(alloc, m)?;
    let mut printed = Text::new(alloc);
    print_form(&mut printed, &form)?;
    printed.push(b'\n')?;
    Ok(printed)
}
