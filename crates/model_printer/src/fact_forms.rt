//! Forms of requirements and kept facts.
ghost use Rattle.std.specs.Prelude.{◌≡◌, [], ◌∷◌, ◌&&◌, map, true, IfOk, OnOk};
ghost use Rattle.model_syntax.specs.Formed as formed;
ghost use Rattle.model_syntax.specs.Kinds.{is_word};
ghost use Rattle.model_printer.specs.Printing as printing;

use crate::forms::{begun, list, name_form, number_form, pair};
use model_syntax::{Le, Lin};
use rup_base::NoMemory;
use std::alloc::Global;
use sx_text::Sx;

#[cycle(side)]
fn side_form(alloc: Global, side: &Lin) -> Result<Sx, NoMemory>
    ensures form { IfOk result (λ form. form ≡ printing.side side.now) }
    ensures formed { OnOk result (formed.side_formed side.now ≡ true) }
{
    match side {
        Lin::Const(n) => number_form(alloc, *n),
        Lin::Var(x) => name_form(alloc, x),
        Lin::Sum(left, right) => {
            let left = side_form(alloc, left)?;
            let right = side_form(alloc, right)?;
            pair(alloc, b"add", left, right)
        }
        Lin::Scale(factor, part) => scale_form(alloc, *factor, part),
    }
}

#[cycle(side)]
fn scale_form(alloc: Global, factor: u32, part: &Lin) -> Result<Sx, NoMemory>
    ensures form { IfOk result (λ form. form ≡ printing.scale factor (printing.side part.now)) }
    ensures formed { OnOk result (is_word factor && formed.side_formed part.now ≡ true) }
{
    let mut forms = begun(alloc, b"mul")?;
    forms.push(number_form(alloc, factor)?)?;
    forms.push(side_form(alloc, part)?)?;
    Ok(list(forms))
}

fn fact_form(alloc: Global, fact: &Le) -> Result<Sx, NoMemory>
    ensures form { IfOk result (λ form. form ≡ printing.fact fact.now) }
    ensures formed { OnOk result (formed.fact_formed fact.now ≡ true) }
{
    let low = side_form(alloc, &fact.low)?;
    let high = side_form(alloc, &fact.high)?;
    pair(alloc, b"le", low, high)
}

/// A word and facts.
pub fn facts_form(alloc: Global, word: &[u8], facts: &[Le]) -> Result<Sx, NoMemory>
    ensures form { IfOk result (λ form. form ≡ printing.worded word.now (map printing.fact facts.now)) }
    ensures formed { OnOk result (formed.facts_formed facts.now ≡ true) }
{
    let mut forms = begun(alloc, word)?;
    for fact in facts {
        forms.push(fact_form(alloc, fact)?)?;
    }
    Ok(list(forms))
}
