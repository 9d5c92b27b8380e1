//! Parameters, results and models.
ghost use Rattle.std.specs.Prelude.{◌≡◌, map};
ghost use Rattle.model_reader.specs.Yields.{Yields};
ghost use Rattle.model_reader.specs.Parts as parts;
ghost use Rattle.model_reader.specs.Models as spec;
ghost use Rattle.model_reader.specs.Reading.{reading};

use crate::facts::facts_of;
use crate::names::name_at;
use crate::parts::{
    Misread, behind, finished, form_at, headed, kids_of, known, place_of, text_of, wrong,
};
use crate::statements::block_at;
use crate::words::{array_of, is, scalar_of};
use model_syntax::{Le, Len, Model, Param, Ret, Scalar};
use rup_base::{List, Name, Place, number_of};
use std::alloc::Global;
use sx_text::Sx;

fn read_length(alloc: Global, form: &Sx) -> Result<Len, Misread>
    ensures { Yields result (spec.len (reading form.now)) }
{
    if let Some(number) = number_of(text_of(form)) {
        return Ok(Len::Fixed(number));
    }
    match Name::read(alloc, text_of(form))? {
        Some(x) => Ok(Len::Named(x)),
        None => Err(wrong(place_of(form))),
    }
}

fn scalar_param(x: Name, scalar: Scalar) -> Param
    ensures { result ≡ spec.scalar_param x scalar }
{
    match scalar {
        Scalar::Word => Param::Word(x),
        Scalar::Byte | Scalar::Flag => Param::Byte(x),
    }
}

fn array_param(x: Name, length: Len, scalar: Scalar) -> Param
    ensures { result ≡ spec.array_param x length scalar }
{
    match scalar {
        Scalar::Word => Param::Words(x, length),
        Scalar::Byte | Scalar::Flag => Param::Bytes(x, length),
    }
}

fn array_of_length(
    alloc: Global,
    x: Name,
    scalar: Scalar,
    p: Place,
    args: &[Sx],
) -> Result<Param, Misread>
    ensures { Yields result (spec.array_of_length x scalar p (map reading args.now)) }
{
    let length = read_length(alloc, form_at(p, args, 0)?)?;
    finished(array_param(x, length, scalar), args, 1)
}

/// The type of the parameter `x`.
fn read_sort(alloc: Global, x: Name, form: &Sx) -> Result<Param, Misread>
    ensures { Yields result (spec.sort x (reading form.now)) }
{
    match form {
        Sx::Atom(p, text) => atom_sort(x, *p, text.as_slice()),
        Sx::Kids(p, kids) => list_sort(alloc, x, *p, kids.as_slice()),
    }
}

fn atom_sort(x: Name, p: Place, text: &[u8]) -> Result<Param, Misread>
    ensures { Yields result (spec.atom_sort p text.now x) }
{
    Ok(scalar_param(x, known(p, scalar_of(text))?))
}

fn list_sort(alloc: Global, x: Name, p: Place, kids: &[Sx]) -> Result<Param, Misread>
    ensures { Yields result (spec.list_sort p (map reading kids.now) x) }
{
    let (head, args) = headed(p, kids)?;
    let scalar = known(p, array_of(head))?;
    array_of_length(alloc, x, scalar, p, args)
}

/// The first form of a list as the type of the parameter `x`.
fn sort_at(alloc: Global, x: Name, p: Place, args: &[Sx]) -> Result<Param, Misread>
    ensures { Yields result (parts.nth 0 (spec.sort x) p (map reading args.now)) }
{
    read_sort(alloc, x, form_at(p, args, 0)?)
}

fn read_param(alloc: Global, form: &Sx) -> Result<Param, Misread>
    ensures { Yields result (spec.param (reading form.now)) }
{
    let (p, kids) = kids_of(form)?;
    let (head, args) = headed(p, kids)?;
    let x = known(p, Name::read(alloc, head)?)?;
    finished(sort_at(alloc, x, p, args)?, args, 1)
}

fn each_param(alloc: Global, forms: &[Sx]) -> Result<List<Param>, Misread>
    ensures { Yields result (parts.each spec.param (map reading forms.now)) }
{
    let mut params = List::new(alloc);
    for form in forms {
        params.push(read_param(alloc, form)?)?;
    }
    Ok(params)
}

fn read_params(alloc: Global, form: &Sx) -> Result<List<Param>, Misread>
    ensures { Yields result (spec.params (reading form.now)) }
{
    let (p, kids) = kids_of(form)?;
    each_param(alloc, behind(b"params", p, kids)?)
}

/// The parameters of a model.
fn params_at(alloc: Global, p: Place, args: &[Sx]) -> Result<List<Param>, Misread>
    ensures { Yields result (parts.nth 1 spec.params p (map reading args.now)) }
{
    read_params(alloc, form_at(p, args, 1)?)
}

fn read_requires(alloc: Global, form: &Sx) -> Result<List<Le>, Misread>
    ensures { Yields result (spec.requires_ (reading form.now)) }
{
    let (p, kids) = kids_of(form)?;
    facts_of(alloc, b"require", p, kids)
}

/// The requirements of a model.
fn requires_at(alloc: Global, p: Place, args: &[Sx]) -> Result<List<Le>, Misread>
    ensures { Yields result (parts.nth 2 spec.requires_ p (map reading args.now)) }
{
    read_requires(alloc, form_at(p, args, 2)?)
}

/// Refuses another form than the word `in`.
fn read_in(form: &Sx) -> Result<(), Misread>
    ensures { Yields result (spec.in_word (reading form.now)) }
{
    if is(text_of(form), b"in") {
        Ok(())
    } else {
        Err(wrong(place_of(form)))
    }
}

fn list_ret(alloc: Global, p: Place, kids: &[Sx]) -> Result<Ret, Misread>
    ensures { Yields result (spec.list_ret p (map reading kids.now)) }
{
    let (head, args) = headed(p, kids)?;
    let a = known(p, Name::read(alloc, head)?)?;
    read_in(form_at(p, args, 0)?)?;
    let owner = name_at(alloc, p, args, 1)?;
    finished(Ret::Array(a, owner), args, 2)
}

fn read_ret(alloc: Global, form: &Sx) -> Result<Ret, Misread>
    ensures { Yields result (spec.ret (reading form.now)) }
{
    match form {
        Sx::Atom(p, text) => Ok(Ret::Scalar(known(*p, Name::read(alloc, text.as_slice())?)?)),
        Sx::Kids(p, kids) => list_ret(alloc, *p, kids.as_slice()),
    }
}

fn each_ret(alloc: Global, forms: &[Sx]) -> Result<List<Ret>, Misread>
    ensures { Yields result (parts.each spec.ret (map reading forms.now)) }
{
    let mut rets = List::new(alloc);
    for form in forms {
        rets.push(read_ret(alloc, form)?)?;
    }
    Ok(rets)
}

fn read_rets(alloc: Global, form: &Sx) -> Result<List<Ret>, Misread>
    ensures { Yields result (spec.rets (reading form.now)) }
{
    let (p, kids) = kids_of(form)?;
    each_ret(alloc, behind(b"ret", p, kids)?)
}

/// The results of a model.
fn rets_at(alloc: Global, p: Place, args: &[Sx]) -> Result<List<Ret>, Misread>
    ensures { Yields result (parts.nth 4 spec.rets p (map reading args.now)) }
{
    read_rets(alloc, form_at(p, args, 4)?)
}

fn model_of(alloc: Global, p: Place, args: &[Sx]) -> Result<Model, Misread>
    ensures { Yields result (spec.model_of p (map reading args.now)) }
{
    let name = name_at(alloc, p, args, 0)?;
    let params = params_at(alloc, p, args)?;
    let requires_ = requires_at(alloc, p, args)?;
    let body = block_at(alloc, p, args, 3)?;
    let rets = rets_at(alloc, p, args)?;
    let model = Model {
        name,
        params,
        requires_,
        body,
        rets,
    };
    finished(model, args, 5)
}

fn read_model_form(alloc: Global, form: &Sx) -> Result<Model, Misread>
    ensures { Yields result (spec.model (reading form.now)) }
{
    let (p, kids) = kids_of(form)?;
    model_of(alloc, p, behind(b"model", p, kids)?)
}

/// The only form of a text as a model. `p` ends one byte behind the text's last byte, where a form is missing.
pub fn whole(alloc: Global, p: Place, forms: &[Sx]) -> Result<Model, Misread>
    ensures { Yields result (spec.whole p (map reading forms.now)) }
{
    let m = read_model_form(alloc, form_at(p, forms, 0)?)?;
    finished(m, forms, 1)
}
