//! Forms of parameters, results and models.
ghost use Rattle.std.specs.Prelude.{◌≡◌, [], ◌∷◌, ◌&&◌, map, true, IfOk, OnOk};
ghost use Rattle.rup_base.specs.Name.{is_name};
ghost use Rattle.rup_base.specs.Gather.{all_true};
ghost use Rattle.model_syntax.specs.Formed as formed;
ghost use Rattle.model_printer.specs.Printing as printing;

use crate::fact_forms::facts_form;
use crate::forms::{atom, begun, list, name_form, number_form};
use crate::statement_forms::block_form;
use model_syntax::{Len, Model, Param, Ret};
use rup_base::{List, Name, NoMemory};
use std::alloc::Global;
use sx_text::Sx;

fn length_form(alloc: Global, length: &Len) -> Result<Sx, NoMemory>
    ensures form { IfOk result (λ form. form ≡ printing.len length.now) }
    ensures formed { OnOk result (formed.len_formed length.now ≡ true) }
{
    match length {
        Len::Fixed(n) => number_form(alloc, *n),
        Len::Named(x) => name_form(alloc, x),
    }
}

fn scalar_form(alloc: Global, x: &Name, word: &[u8]) -> Result<Sx, NoMemory>
    ensures form { IfOk result (λ form. form ≡ printing.scalar_form x.now word.now) }
    ensures formed { OnOk result (is_name x.now ≡ true) }
{
    let mut forms = List::new(alloc);
    forms.push(name_form(alloc, x)?)?;
    forms.push(atom(alloc, word)?)?;
    Ok(list(forms))
}

fn array_form(alloc: Global, a: &Name, word: &[u8], length: &Len) -> Result<Sx, NoMemory>
    ensures form { IfOk result (λ form. form ≡ printing.array_form a.now word.now length.now) }
    ensures formed { OnOk result (is_name a.now && formed.len_formed length.now ≡ true) }
{
    let mut sort = begun(alloc, word)?;
    sort.push(length_form(alloc, length)?)?;
    let mut forms = List::new(alloc);
    forms.push(name_form(alloc, a)?)?;
    forms.push(list(sort))?;
    Ok(list(forms))
}

fn param_form(alloc: Global, param: &Param) -> Result<Sx, NoMemory>
    ensures form { IfOk result (λ form. form ≡ printing.param param.now) }
    ensures formed { OnOk result (formed.param_formed param.now ≡ true) }
{
    match param {
        Param::Word(x) => scalar_form(alloc, x, b"word"),
        Param::Byte(x) => scalar_form(alloc, x, b"byte"),
        Param::Bytes(a, length) => array_form(alloc, a, b"bytes", length),
        Param::Words(a, length) => array_form(alloc, a, b"words", length),
    }
}

fn params_form(alloc: Global, params: &[Param]) -> Result<Sx, NoMemory>
    ensures form { IfOk result (λ form. form ≡ printing.params params.now) }
    ensures formed { OnOk result (all_true (map formed.param_formed params.now) ≡ true) }
{
    let mut forms = begun(alloc, b"params")?;
    for param in params {
        forms.push(param_form(alloc, param)?)?;
    }
    Ok(list(forms))
}

fn ret_form(alloc: Global, ret: &Ret) -> Result<Sx, NoMemory>
    ensures form { IfOk result (λ form. form ≡ printing.ret ret.now) }
    ensures formed { OnOk result (formed.ret_formed ret.now ≡ true) }
{
    match ret {
        Ret::Scalar(x) => name_form(alloc, x),
        Ret::Array(a, owner) => {
            let mut forms = List::new(alloc);
            forms.push(name_form(alloc, a)?)?;
            forms.push(atom(alloc, b"in")?)?;
            forms.push(name_form(alloc, owner)?)?;
            Ok(list(forms))
        }
    }
}

fn rets_form(alloc: Global, rets: &[Ret]) -> Result<Sx, NoMemory>
    ensures form { IfOk result (λ form. form ≡ printing.rets rets.now) }
    ensures formed { OnOk result (all_true (map formed.ret_formed rets.now) ≡ true) }
{
    let mut forms = begun(alloc, b"ret")?;
    for ret in rets {
        forms.push(ret_form(alloc, ret)?)?;
    }
    Ok(list(forms))
}

pub fn model_form(alloc: Global, m: &Model) -> Result<Sx, NoMemory>
    ensures form { IfOk result (λ form. form ≡ printing.model m.now) }
    ensures formed { OnOk result (formed.model_formed m.now ≡ true) }
{
    let mut forms = begun(alloc, b"model")?;
    forms.push(name_form(alloc, &m.name)?)?;
    forms.push(params_form(alloc, m.params.as_slice())?)?;
    forms.push(facts_form(alloc, b"require", m.requires_.as_slice())?)?;
    forms.push(block_form(alloc, m.body.as_slice())?)?;
    forms.push(rets_form(alloc, m.rets.as_slice())?)?;
    Ok(list(forms))
}
