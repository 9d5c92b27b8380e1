//! The model: the first byte of an array, and the entry of a table at that byte's remainder by 4.
ghost use Rattle.std.specs.Prelude.{◌≡◌, true, IfOk};
ghost use Rattle.rup_base.specs.Name.{is_name};
ghost use Rattle.rehearsal.specs.Example as example;

use model_syntax::{Expr, Le, Len, Lin, Model, Op, Param, Ret, Scalar, Stmt};
use model_types::{Typed, check_types};
use rup_base::{Box, Fail, List, Name, NoMemory};
use std::alloc::Global;

/// The model, which is well typed.
#[tactic(auto, using(crate::proofs::Valid::well, crate::proofs::Valid::formed, crate::proofs::Valid::spellable, crate::proofs::Valid::within))]
pub fn typed(alloc: Global) -> Result<Typed, NoMemory>
    ensures { IfOk result (λ typed. typed.inner ≡ example.model) }
{
    match check_types(alloc, model(alloc)?) {
        Ok(typed) => Ok(typed),
        Err(Fail::NoMemory) => Err(NoMemory),
        Err(Fail::Refused(_)) => unreachable!(),
    }
}

/// `(model two (params (s (bytes n))) (require (le 1 n)) (do ..) (ret x y))`
fn model(alloc: Global) -> Result<Model, NoMemory>
    ensures { IfOk result (λ model. model ≡ example.model) }
{
    let mut params = List::new(alloc);
    let array = name(alloc, b"s")?;
    params.push(Param::Bytes(array, Len::Named(name(alloc, b"n")?)))?;
    let mut requirements = List::new(alloc);
    requirements.push(Le {
        low: Lin::Const(1),
        high: Lin::Var(name(alloc, b"n")?),
    })?;
    let mut body = List::new(alloc);
    body.push(Stmt::Let(name(alloc, b"x")?, first_byte(alloc)?))?;
    body.push(Stmt::Let(name(alloc, b"y")?, looked_up(alloc)?))?;
    let mut rets = List::new(alloc);
    rets.push(Ret::Scalar(name(alloc, b"x")?))?;
    rets.push(Ret::Scalar(name(alloc, b"y")?))?;
    Ok(Model {
        name: name(alloc, b"two")?,
        params,
        requires_: requirements,
        body,
        rets,
    })
}

/// `(word (get s 0))`
fn first_byte(alloc: Global) -> Result<Expr, NoMemory>
    ensures { IfOk result (λ byte. byte ≡ example.first_byte) }
{
    let first = Expr::Get(name(alloc, b"s")?, Box::new(alloc, Expr::Lit(0))?);
    Ok(Expr::ToWord(Box::new(alloc, first)?))
}

/// `(tab word (5 7 11 13) (remu x 4))`
fn looked_up(alloc: Global) -> Result<Expr, NoMemory>
    ensures { IfOk result (λ entry. entry ≡ example.looked_up) }
{
    let mut entries = List::new(alloc);
    entries.push(5)?;
    entries.push(7)?;
    entries.push(11)?;
    entries.push(13)?;
    let byte = Box::new(alloc, Expr::Var(name(alloc, b"x")?))?;
    let four = Box::new(alloc, Expr::Lit(4))?;
    let place = Box::new(alloc, Expr::Bin(Op::Remu, byte, four))?;
    Ok(Expr::Tab(Scalar::Word, entries, place))
}

/// The name that the bytes are.
fn name(alloc: Global, text: &[u8]) -> Result<Name, NoMemory>
    requires { is_name text.now ≡ true }
    ensures { IfOk result (λ name. name ≡ text.now) }
{
    match Name::read(alloc, text)? {
        Some(name) => Ok(name),
        None => unreachable!(),
    }
}
