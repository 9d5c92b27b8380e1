//! Bounds as text.
ghost use Rattle.std.specs.Prelude.{◌≡◌, [], ◌∷◌, ◌++◌, IfOk, OnOk};
ghost use Rattle.model_syntax.specs.Entries.{entry_names};
ghost use Rattle.rup_top.specs.Bounds as spec;

use cost_poly::{Poly, Term};
use model_syntax::{Len, Param};
use rup_base::{List, Name, NoMemory, Text};
use std::alloc::Global;

/// Puts a bound behind the text: its constant, then each other term behind a plus sign. A symbol is its name in the list.
pub fn push_bound(out: &mut Text, names: &[Text], bound: &Poly) -> Result<(), NoMemory>
    ensures { OnOk result (out.new ≡ out.old ++ spec.bound_text names.now bound.now) }
{
    out.push_number(u128::from(bound.coefficient(None, None)))?;
    let mut left = bound.terms();
    'terms: while let [first, rest @ ..] = left {
        push_term(out, names, first)?;
        left = rest;
    }
    Ok(())
}

/// The constant has its place before all others.
fn push_term(out: &mut Text, names: &[Text], term: &Term) -> Result<(), NoMemory>
    ensures { OnOk result (out.new ≡ out.old ++ spec.term_text names.now term.now) }
{
    let Some(first) = term.first else {
        return Ok(());
    };
    out.extend_from_slice(b" + ")?;
    out.push_number(u128::from(term.coefficient))?;
    push_factor(out, names, first)?;
    match term.second {
        Some(second) => push_factor(out, names, second),
        None => Ok(()),
    }
}

fn push_factor(out: &mut Text, names: &[Text], symbol: u32) -> Result<(), NoMemory>
    ensures { OnOk result (out.new ≡ out.old ++ spec.factor names.now symbol) }
{
    out.push(b'*')?;
    match names.get(symbol as usize) {
        Some(name) => out.extend_from_slice(name.as_slice()),
        None => Ok(()),
    }
}

/// The names of the entry symbols: of word and byte parameters and of lengths, in the order of the parameters.
pub fn entry_texts(alloc: Global, params: &[Param]) -> Result<List<Text>, NoMemory>
    ensures { IfOk result (λ texts. texts ≡ entry_names params.now) }
{
    let mut texts = List::new(alloc);
    let mut left = params;
    'params: while let [first, rest @ ..] = left {
        push_entry(alloc, &mut texts, first)?;
        left = rest;
    }
    Ok(texts)
}

/// Puts the name whose value is the number of the parameter's entry symbol, if it has one.
fn push_entry(alloc: Global, texts: &mut List<Text>, param: &Param) -> Result<(), NoMemory>
    ensures { OnOk result (texts.new ≡ texts.old ++ entry_names (param.now ∷ [])) }
{
    match param {
        Param::Word(name) | Param::Byte(name) => push_name(alloc, texts, name),
        Param::Bytes(_, Len::Named(name)) | Param::Words(_, Len::Named(name)) => {
            push_name(alloc, texts, name)
        }
        Param::Bytes(_, Len::Fixed(_)) | Param::Words(_, Len::Fixed(_)) => Ok(()),
    }
}

fn push_name(alloc: Global, texts: &mut List<Text>, name: &Name) -> Result<(), NoMemory>
    ensures { OnOk result (texts.new ≡ texts.old ++ name.now ∷ []) }
{
    texts.push(Text::from_slice(alloc, name.text())?)
}
