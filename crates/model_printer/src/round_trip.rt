//! What is printed is read back.
ghost use Rattle.std.specs.Prelude.{◌≡◌, ◌≤◌, ℕ, true, Ok, List};
ghost use Rattle.sx_text.specs.Forms.{deepest};
ghost use Rattle.sx_text.specs.Spelling.{levels};
ghost use Rattle.model_syntax.specs.declared.program.Model.{Model};
ghost use Rattle.model_syntax.specs.Limits.{Within};
ghost use Rattle.model_syntax.specs.Spelling.{Spellable};
ghost use Rattle.model_syntax.specs.Formed.{model_formed};
ghost use Rattle.model_printer.specs.Printing as printing;
ghost use Rattle.model_reader.specs.Reading as reading;

/// A law: each model whose names are names and whose numbers are words, as all models of the code, is read
/// back from its canonical spelling, where the text of models can spell its tables, it is within the limits,
/// and at most 256 lists are open at one place of the spelling.
pub fn printed_model_is_read()
    ensures { (word : ℕ) (m : Model) → model_formed m ≡ true → Spellable m → Within m → levels (printing.model m) ≤ deepest
        → reading.read_model word (printing.spelling m) ≡ Ok m }
{}
