//! Forms of statements and blocks.
ghost use Rattle.std.specs.Prelude.{◌≡◌, [], ◌∷◌, ◌++◌, ◌&&◌, map, true, IfOk, OnOk};
ghost use Rattle.rup_base.specs.Name.{is_name};
ghost use Rattle.rup_base.specs.Gather.{all_true};
ghost use Rattle.model_syntax.specs.Formed as formed;
ghost use Rattle.model_printer.specs.Printing as printing;

use crate::expression_forms::expr_form;
use crate::fact_forms::facts_form;
use crate::forms::{begun, list, name_form, names_form};
use model_syntax::{Expr, Le, Stmt};
use rup_base::{List, Name, NoMemory};
use std::alloc::Global;
use sx_text::Sx;

#[cycle(stmt)]
fn stmt_form(alloc: Global, stmt: &Stmt) -> Result<Sx, NoMemory>
    ensures form { IfOk result (λ form. form ≡ printing.stmt stmt.now) }
    ensures formed { OnOk result (formed.stmt_formed stmt.now ≡ true) }
{
    match stmt {
        Stmt::Let(x, value) => let_form(alloc, x, value),
        Stmt::Put(a, index, value) => put_form(alloc, a, index, value),
        Stmt::Move(b, a, index, value) => move_form(alloc, b, a, index, value),
        Stmt::If(test, names, keep, first, second) => {
            let mut forms = if_begun(alloc, test, names.as_slice(), keep.as_slice())?;
            forms.push(block_form(alloc, first.as_slice())?)?;
            forms.push(block_form(alloc, second.as_slice())?)?;
            Ok(list(forms))
        }
        Stmt::For(x, low, high, names, keep, body) => {
            let mut forms = for_begun(alloc, x, low, high)?;
            push_kept(alloc, &mut forms, names.as_slice(), keep.as_slice())?;
            forms.push(block_form(alloc, body.as_slice())?)?;
            Ok(list(forms))
        }
        Stmt::Map(a, x, value) => map_form(alloc, a, x, value),
        Stmt::Fold(scalar, a, x, value) => fold_form(alloc, scalar, a, x, value),
    }
}

#[cycle(stmt)]
pub fn block_form(alloc: Global, stmts: &[Stmt]) -> Result<Sx, NoMemory>
    ensures form { IfOk result (λ form. form ≡ printing.block (map printing.stmt stmts.now)) }
    ensures formed { OnOk result (all_true (map formed.stmt_formed stmts.now) ≡ true) }
{
    let mut forms = begun(alloc, b"do")?;
    for stmt in stmts {
        forms.push(stmt_form(alloc, stmt)?)?;
    }
    Ok(list(forms))
}

fn let_form(alloc: Global, x: &Name, value: &Expr) -> Result<Sx, NoMemory>
    ensures form { IfOk result (λ form. form ≡ printing.let_form x.now value.now) }
    ensures formed { OnOk result (is_name x.now && formed.expr_formed value.now ≡ true) }
{
    let mut forms = begun(alloc, b"let")?;
    forms.push(name_form(alloc, x)?)?;
    forms.push(expr_form(alloc, value)?)?;
    Ok(list(forms))
}

/// Puts an index and a value behind the forms.
fn push_two(alloc: Global, forms: &mut List<Sx>, index: &Expr, value: &Expr) -> Result<(), NoMemory>
    ensures form { OnOk result (forms.new ≡ forms.old ++ printing.expr index.now ∷ printing.expr value.now ∷ []) }
    ensures formed { OnOk result (formed.expr_formed index.now && formed.expr_formed value.now ≡ true) }
{
    forms.push(expr_form(alloc, index)?)?;
    forms.push(expr_form(alloc, value)?)
}

fn put_form(alloc: Global, a: &Name, index: &Expr, value: &Expr) -> Result<Sx, NoMemory>
    ensures form { IfOk result (λ form. form ≡ printing.put_form a.now index.now value.now) }
    ensures formed { OnOk result (is_name a.now && (formed.expr_formed index.now && formed.expr_formed value.now) ≡ true) }
{
    let mut forms = begun(alloc, b"put")?;
    forms.push(name_form(alloc, a)?)?;
    push_two(alloc, &mut forms, index, value)?;
    Ok(list(forms))
}

fn move_form(alloc: Global, b: &Name, a: &Name, index: &Expr, value: &Expr) -> Result<Sx, NoMemory>
    ensures form { IfOk result (λ form. form ≡ printing.move_form b.now a.now index.now value.now) }
    ensures formed { OnOk result (is_name b.now
        && (is_name a.now && (formed.expr_formed index.now && formed.expr_formed value.now)) ≡ true) }
{
    let mut forms = begun(alloc, b"move")?;
    forms.push(name_form(alloc, b)?)?;
    forms.push(name_form(alloc, a)?)?;
    push_two(alloc, &mut forms, index, value)?;
    Ok(list(forms))
}

/// Puts the names and the facts that a block keeps behind the forms.
fn push_kept(
    alloc: Global,
    forms: &mut List<Sx>,
    names: &[Name],
    keep: &[Le],
) -> Result<(), NoMemory>
    ensures form { OnOk result (forms.new ≡ forms.old ++ printing.names names.now ∷ printing.keep keep.now ∷ []) }
    ensures formed { OnOk result (formed.names_formed names.now && formed.facts_formed keep.now ≡ true) }
{
    forms.push(names_form(alloc, names)?)?;
    forms.push(facts_form(alloc, b"keep", keep)?)
}

/// The word, the test, the names and the facts of an `if`.
fn if_begun(alloc: Global, test: &Expr, names: &[Name], keep: &[Le]) -> Result<List<Sx>, NoMemory>
    ensures form { IfOk result (λ forms. forms ≡ printing.if_begun test.now names.now keep.now) }
    ensures formed { OnOk result (formed.expr_formed test.now && (formed.names_formed names.now && formed.facts_formed keep.now)
        ≡ true) }
{
    let mut forms = begun(alloc, b"if")?;
    forms.push(expr_form(alloc, test)?)?;
    push_kept(alloc, &mut forms, names, keep)?;
    Ok(forms)
}

/// The word, the name and the ends of a loop.
fn for_begun(alloc: Global, x: &Name, low: &Expr, high: &Expr) -> Result<List<Sx>, NoMemory>
    ensures form { IfOk result (λ forms. forms ≡ printing.for_begun x.now low.now high.now) }
    ensures formed { OnOk result (is_name x.now && (formed.expr_formed low.now && formed.expr_formed high.now) ≡ true) }
{
    let mut forms = begun(alloc, b"for")?;
    forms.push(name_form(alloc, x)?)?;
    push_two(alloc, &mut forms, low, high)?;
    Ok(forms)
}

/// Puts the name of an element and the value for it behind the forms.
fn push_element(alloc: Global, forms: &mut List<Sx>, x: &Name, value: &Expr) -> Result<(), NoMemory>
    ensures form { OnOk result (forms.new ≡ forms.old ++ printing.element x.now ∷ printing.expr value.now ∷ []) }
    ensures formed { OnOk result (is_name x.now && formed.expr_formed value.now ≡ true) }
{
    let mut element = List::new(alloc);
    element.push(name_form(alloc, x)?)?;
    forms.push(list(element))?;
    forms.push(expr_form(alloc, value)?)
}

fn map_form(alloc: Global, a: &Name, x: &Name, value: &Expr) -> Result<Sx, NoMemory>
    ensures form { IfOk result (λ form. form ≡ printing.map_form a.now x.now value.now) }
    ensures formed { OnOk result (is_name a.now && (is_name x.now && formed.expr_formed value.now) ≡ true) }
{
    let mut forms = begun(alloc, b"map")?;
    forms.push(name_form(alloc, a)?)?;
    push_element(alloc, &mut forms, x, value)?;
    Ok(list(forms))
}

fn fold_form(alloc: Global, scalar: &Name, a: &Name, x: &Name, value: &Expr) -> Result<Sx, NoMemory>
    ensures form { IfOk result (λ form. form ≡ printing.fold_form scalar.now a.now x.now value.now) }
    ensures formed { OnOk result (is_name scalar.now && (is_name a.now && (is_name x.now && formed.expr_formed value.now)) ≡ true) }
{
    let mut forms = begun(alloc, b"fold")?;
    forms.push(name_form(alloc, scalar)?)?;
    forms.push(name_form(alloc, a)?)?;
    push_element(alloc, &mut forms, x, value)?;
    Ok(list(forms))
}
