//! Generated models.
ghost use Rattle.std.specs.Prelude.{◌≡◌, ◌<◌, ◌≤◌, ◌++◌, IfOk, OnOk};
ghost use Rattle.bench_gen.specs.Generator as generator;

use crate::draws::Draws;
use crate::terms::{first, hash, mix, name, scalar, shift, sum};
use model_syntax::{Len, Model, Param, Ret, Stmt};
use rup_base::{List, NoMemory};
use std::alloc::Global;

/// How many scalars a generated model has.
const SCALARS: u32 = 8;

/// The model of a seed with so many drawn statements, from 1 to 1990, behind the eight that bind its scalars.
pub fn model_from(alloc: Global, seed: u32, count: u32) -> Result<Model, NoMemory>
    requires some { 1 ≤ count }
    requires few { count ≤ 1990 }
    ensures { IfOk result (λ model. model ≡ generator.model seed count) }
{
    let body = body(alloc, seed, count)?;
    let params = params(alloc)?;
    let mut rets = List::new(alloc);
    rets.push(Ret::Scalar(scalar(alloc, 0)?))?;
    rets.push(Ret::Scalar(scalar(alloc, 1)?))?;
    Ok(Model {
        name: name(alloc, b"bench")?,
        params,
        requires_: List::new(alloc),
        body,
        rets,
    })
}

/// A word and an array of bytes whose length has a name.
fn params(alloc: Global) -> Result<List<Param>, NoMemory>
    ensures { IfOk result (λ params. params ≡ generator.params) }
{
    let mut params = List::new(alloc);
    params.push(Param::Word(name(alloc, b"p")?))?;
    let array = name(alloc, b"s")?;
    params.push(Param::Bytes(array, Len::Named(name(alloc, b"n")?)))?;
    Ok(params)
}

/// The statements.
#[tactic(auto, using(crate::proofs::Counting::mapped_more))]
fn body(alloc: Global, seed: u32, count: u32) -> Result<List<Stmt>, NoMemory>
    ensures { IfOk result (λ body. body ≡ generator.body seed count) }
{
    let mut body = List::new(alloc);
    for k in 0..SCALARS {
        body.push(first(alloc, k)?)?;
    }
    push_drawn(alloc, &mut body, seed, count)?;
    Ok(body)
}

/// Puts so many drawn statements behind the others.
fn push_drawn(alloc: Global, body: &mut List<Stmt>, seed: u32, count: u32) -> Result<(), NoMemory>
    ensures { OnOk result (body.new ≡ body.old ++ generator.statements count seed) }
{
    let mut draws = Draws { state: seed };
    for _ in 0..count {
        body.push(statement(alloc, &mut draws)?)?;
    }
    Ok(())
}

/// The statement of the next four draws: its kind, and the numbers of three scalars.
fn statement(alloc: Global, draws: &mut Draws) -> Result<Stmt, NoMemory>
    ensures statement { IfOk result (λ statement. statement ≡ generator.statement draws.old.state) }
    ensures state { draws.new.state ≡ generator.after_four draws.old.state }
{
    let kind = draws.draw() % 4;
    let a = draws.draw() % SCALARS;
    let b = draws.draw() % SCALARS;
    let c = draws.draw() % SCALARS;
    match kind {
        0 => sum(alloc, a, b, c),
        1 => mix(alloc, a, b, c),
        2 => shift(alloc, a, b, c),
        _ => hash(alloc, a),
    }
}
