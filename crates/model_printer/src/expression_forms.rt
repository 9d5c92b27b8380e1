//! Forms of expressions.
ghost use Rattle.std.specs.Prelude.{◌≡◌, [], ◌∷◌, ◌&&◌, true, IfOk, OnOk};
ghost use Rattle.rup_base.specs.Name.{is_name};
ghost use Rattle.model_syntax.specs.Formed as formed;
ghost use Rattle.model_printer.specs.Printing as printing;

use crate::forms::{atom, begun, list, name_form, number_form, numbers_form, pair};
use model_syntax::{Cmp, Expr, Op, Scalar};
use rup_base::{Name, NoMemory};
use std::alloc::Global;
use sx_text::Sx;

fn op_word(op: Op) -> &'static [u8]
    ensures { result.now ≡ printing.op_word op }
{
    match op {
        Op::Add => b"add",
        Op::Sub => b"sub",
        Op::Mul => b"mul",
        Op::Mulhuu => b"mulhuu",
        Op::Divu => b"divu",
        Op::Remu => b"remu",
        Op::And => b"and",
        Op::Or => b"or",
        Op::Xor => b"xor",
        Op::Shl => b"shl",
        Op::Shr => b"shr",
        Op::Sar => b"sar",
    }
}

fn cmp_word(cmp: Cmp) -> &'static [u8]
    ensures { result.now ≡ printing.cmp_word cmp }
{
    match cmp {
        Cmp::Eq => b"eq",
        Cmp::Lt => b"lt",
        Cmp::Slt => b"slt",
    }
}

fn scalar_word(scalar: Scalar) -> &'static [u8]
    ensures { result.now ≡ printing.scalar_word scalar }
{
    match scalar {
        Scalar::Word => b"word",
        Scalar::Byte => b"byte",
        Scalar::Flag => b"flag",
    }
}

#[cycle(expr)]
pub fn expr_form(alloc: Global, e: &Expr) -> Result<Sx, NoMemory>
    ensures form { IfOk result (λ form. form ≡ printing.expr e.now) }
    ensures formed { OnOk result (formed.expr_formed e.now ≡ true) }
{
    match e {
        Expr::Lit(n) => number_form(alloc, *n),
        Expr::Var(x) => name_form(alloc, x),
        Expr::Length(a) => length_form(alloc, a),
        Expr::Bin(op, left, right) => {
            let left = expr_form(alloc, left)?;
            let right = expr_form(alloc, right)?;
            pair(alloc, op_word(*op), left, right)
        }
        Expr::Test(cmp, left, right) => {
            let left = expr_form(alloc, left)?;
            let right = expr_form(alloc, right)?;
            pair(alloc, cmp_word(*cmp), left, right)
        }
        Expr::Not(part) => one_form(alloc, b"not", part),
        Expr::Both(left, right) => {
            let left = expr_form(alloc, left)?;
            let right = expr_form(alloc, right)?;
            pair(alloc, b"both", left, right)
        }
        Expr::Either(left, right) => {
            let left = expr_form(alloc, left)?;
            let right = expr_form(alloc, right)?;
            pair(alloc, b"either", left, right)
        }
        Expr::ToWord(part) => one_form(alloc, b"word", part),
        Expr::ToByte(part) => one_form(alloc, b"byte", part),
        Expr::Get(a, index) => get_form(alloc, a, index),
        Expr::Tab(scalar, entries, index) => { tab_form(alloc, *scalar, entries.as_slice(), index) }
    }
}

fn length_form(alloc: Global, a: &Name) -> Result<Sx, NoMemory>
    ensures form { IfOk result (λ form. form ≡ printing.length a.now) }
    ensures formed { OnOk result (is_name a.now ≡ true) }
{
    let mut forms = begun(alloc, b"len")?;
    forms.push(name_form(alloc, a)?)?;
    Ok(list(forms))
}

/// A word and an operand.
#[cycle(expr)]
fn one_form(alloc: Global, word: &[u8], part: &Expr) -> Result<Sx, NoMemory>
    ensures form { IfOk result (λ form. form ≡ printing.worded word.now (printing.expr part.now ∷ [])) }
    ensures formed { OnOk result (formed.expr_formed part.now ≡ true) }
{
    let mut forms = begun(alloc, word)?;
    forms.push(expr_form(alloc, part)?)?;
    Ok(list(forms))
}

#[cycle(expr)]
fn get_form(alloc: Global, a: &Name, index: &Expr) -> Result<Sx, NoMemory>
    ensures form { IfOk result (λ form. form ≡ printing.get a.now (printing.expr index.now)) }
    ensures formed { OnOk result (is_name a.now && formed.expr_formed index.now ≡ true) }
{
    let mut forms = begun(alloc, b"get")?;
    forms.push(name_form(alloc, a)?)?;
    forms.push(expr_form(alloc, index)?)?;
    Ok(list(forms))
}

#[cycle(expr)]
fn tab_form(alloc: Global, scalar: Scalar, entries: &[u32], index: &Expr) -> Result<Sx, NoMemory>
    ensures form { IfOk result (λ form. form ≡ printing.table scalar entries.now (printing.expr index.now)) }
    ensures formed { OnOk result (formed.numbers_formed entries.now && formed.expr_formed index.now ≡ true) }
{
    let mut forms = begun(alloc, b"tab")?;
    forms.push(atom(alloc, scalar_word(scalar))?)?;
    forms.push(numbers_form(alloc, entries)?)?;
    forms.push(expr_form(alloc, index)?)?;
    Ok(list(forms))
}
