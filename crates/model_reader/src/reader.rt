//! The reader of models.
ghost use Rattle.std.specs.Prelude.{◌≡◌, ◌≤◌, ◌^◌, ℕ, true, List, length, Ok, IfOk};
ghost use Rattle.rup_base.specs.Answers.{Answers};
ghost use Rattle.model_syntax.specs.declared.program.Model as program;
ghost use Rattle.model_syntax.specs.Formed.{model_formed, expr_formed, fact_formed};
ghost use Rattle.model_syntax.specs.declared.expr.Expr.{Expr};
ghost use Rattle.model_syntax.specs.declared.stmt.Le.{Le};
ghost use Rattle.sx_text.specs.declared.tree.Sx.{Sx};
ghost use Rattle.model_syntax.specs.Limits.{Within};
ghost use Rattle.model_syntax.specs.Spelling.{Spellable, expr_spellable};
ghost use Rattle.model_reader.specs.Reading as spec;
ghost use Rattle.model_reader.specs.Reading.{reading};

use crate::models::whole;
use crate::parts::Misread;
use model_syntax::{Model, over_limit};
use rup_base::{Fail, Place, Refusal};
use std::alloc::Global;
use sx_text::read_forms;

/// The model that `bytes` are a text of, where it passes no limit. Else, in this order: `NotText` with the
/// least offset at which the bytes are no forms; `NotModel` with the offset of the first form that is not
/// of the kind that its place asks for, of the closing parenthesis or the text's end where a form is
/// missing, or of a surplus form; `OverLimit` with the first limit that the model passes and what it has
/// of it. `word` is the place of the file's name among the words of the command. The time is linear in
/// the number of bytes.
pub fn read_model(alloc: Global, word: u32, bytes: &[u8]) -> Result<Model, Fail>
    requires { length bytes.now ≤ 2 ^ 24 }
    ensures exact { Answers result (spec.read_model word bytes.now) }
    ensures only { IfOk result (λ m. spec.Reads bytes.now m × Within m) }
    ensures spellable { IfOk result (λ m. Spellable m) }
    ensures formed { IfOk result (λ m. model_formed m ≡ true) }
    ensures all { (m : program.Model) → spec.Reads bytes.now m → Within m → Answers result (Ok m) }
{
    model_of_text(alloc, word, bytes)
}

/// A law: a text of a model is one of a formed model, and the text of models can spell its tables.
pub fn text_is_of_formed_model()
    ensures { (bytes : List ℕ) (m : program.Model) → spec.Reads bytes m → (model_formed m ≡ true) × Spellable m }
{}

/// A law: an expression and a fact that a form is read as are formed, and the text of models can spell the
/// expression's tables.
pub fn form_is_of_formed_term()
    ensures expression { (form : Sx) (a : Expr) → (reading form).expr ≡ Ok a
        → (expr_formed a ≡ true) × (expr_spellable a ≡ true) }
    ensures fact { (form : Sx) (r : Le) → (reading form).fact ≡ Ok r → fact_formed r ≡ true }
{}

fn model_of_text(alloc: Global, word: u32, bytes: &[u8]) -> Result<Model, Fail>
    requires { length bytes.now ≤ 2 ^ 24 }
    ensures { Answers result (spec.read_model word bytes.now) }
{
    let forms = read_forms(alloc, word, bytes)?;
    let place = Place {
        start: 0,
        end: bytes.len() as u32 + 1,
    };
    match whole(alloc, place, forms.as_slice()) {
        Ok(m) => within(m),
        Err(Misread::At(at)) => Err(Refusal::NotModel { at }.into()),
        Err(Misread::NoMemory) => Err(Fail::NoMemory),
    }
}

fn within(m: Model) -> Result<Model, Fail>
    ensures { Answers result (spec.limited m) }
{
    match over_limit(&m) {
        Some((which, count)) => Err(Refusal::OverLimit { which, count }.into()),
        None => Ok(m),
    }
}
