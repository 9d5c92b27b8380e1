//! The conditions at the end of a derivation, and where the scalar results are then.
ghost use Rattle.std.specs.Prelude.{◌≡◌, ◌≤◌, length, IfOk};
ghost use Rattle.std.specs.Option.{option_copied};
ghost use Rattle.model_syntax.specs.Entries.{param_name};
ghost use Rattle.replayer.specs.Ends as spec;

use model_syntax::{Param, Ret};
use rup_base::{List, Name, NoMemory};
use std::alloc::Global;
use sym_heap::{Clause, Ctx};

/// The array of each returned parameter has the name that is returned.
pub fn are_named(ctx: &Ctx, params: &[Param], rets: &[Ret]) -> bool
    requires { length params.now ≤ 8 }
    ensures { result ≡ spec.are_named params.now rets.now ctx.now }
{
    rets.iter().all(|ret| is_named(ctx, params, ret))
}

/// The array that is returned, if one is, is that of its parameter.
fn is_named(ctx: &Ctx, params: &[Param], ret: &Ret) -> bool
    requires { length params.now ≤ 8 }
    ensures { result ≡ spec.is_named params.now ctx.now ret.now }
{
    match ret {
        Ret::Scalar(_) => true,
        Ret::Array(a, owner) => is_of(number_of(params, owner), ctx.own(a)),
    }
}

fn is_of(param: u32, clause: Option<&Clause>) -> bool
    ensures { result ≡ spec.is_of param (option_copied clause.entry) }
{
    match clause {
        None => false,
        Some(clause) => clause.param == param,
    }
}

/// No array was written but those that are returned.
pub fn are_kept(ctx: &Ctx, params: &[Param], rets: &[Ret]) -> bool
    requires { length params.now ≤ 8 }
    ensures { result ≡ spec.are_kept params.now rets.now ctx.now }
{
    ctx.clauses()
        .iter()
        .all(|clause| is_kept(params, rets, clause))
}

fn is_kept(params: &[Param], rets: &[Ret], clause: &Clause) -> bool
    requires { length params.now ≤ 8 }
    ensures { result ≡ spec.is_kept params.now rets.now clause.now }
{
    is_returned(params, clause.param, rets) || clause.writes == 0
}

/// The array of the parameter of this number is returned.
fn is_returned(params: &[Param], number: u32, rets: &[Ret]) -> bool
    requires { length params.now ≤ 8 }
    ensures { result ≡ spec.is_returned params.now number rets.now }
{
    rets.iter().any(|ret| is_place(params, number, ret))
}

/// The result is the array of the parameter of this number.
fn is_place(params: &[Param], number: u32, ret: &Ret) -> bool
    requires { length params.now ≤ 8 }
    ensures { result ≡ spec.is_place params.now number ret.now }
{
    match ret {
        Ret::Scalar(_) => false,
        Ret::Array(_, owner) => number_of(params, owner) == number,
    }
}

/// The number of the parameter of a name, the number of all where none has it.
fn number_of(params: &[Param], name: &Name) -> u32
    requires { length params.now ≤ 8 }
    ensures { result ≡ spec.number_of params.now name.now }
{
    let mut number = 0;
    for param in params {
        if name_of(param) == name {
            return number;
        }
        number += 1;
    }
    number
}

fn name_of(param: &Param) -> &Name
    ensures { result.now ≡ param_name param.now }
{
    match param {
        Param::Word(name) => name,
        Param::Byte(name) => name,
        Param::Bytes(name, _) => name,
        Param::Words(name, _) => name,
    }
}

/// The locals of the scalar results, in order.
pub fn rets_of(alloc: Global, ctx: &Ctx, rets: &[Ret]) -> Result<List<u32>, NoMemory>
    ensures { IfOk result (λ locals. locals ≡ spec.rets_of ctx.now rets.now) }
{
    let mut locals = List::new(alloc);
    for ret in rets {
        if let Ret::Scalar(x) = ret {
            if let Some(held) = ctx.scalar(x) {
                locals.push(held.local)?;
            }
        }
    }
    Ok(locals)
}
