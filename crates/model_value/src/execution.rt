//! What statements do to an environment, which changes in place.
ghost use Rattle.std.specs.Prelude.{◌≡◌, ◌%◌, map, fold, IfOk, OnOk};
ghost use Rattle.std.specs.Option.{option_copied};
ghost use Rattle.rup_base.specs.declared.arg.Arg.{Arg};
ghost use Rattle.model_syntax.specs.Environment.{carry, elements, put};
ghost use Rattle.model_syntax.specs.Value as spec;
ghost use Rattle.model_value.specs.Bindings.{SameValues};
ghost use Rattle.model_value.specs.Blocks.{Restores};

use crate::blocks::{aside, come_back, counter, restore};
use crate::environment::{Environment, copy_value, count, element, number, with_element};
use crate::evaluation::{Local, eval};
use model_syntax::{Expr, Stmt};
use rup_base::{Arg, List, Name, NoMemory, Text};
use std::alloc::Global;

/// Runs a statement.
#[cycle(run)]
fn run_stmt(alloc: Global, env: &mut Environment, stmt: &Stmt) -> Result<(), NoMemory>
    ensures { OnOk result (SameValues env.new (spec.run stmt.now env.old)) }
{
    match stmt {
        Stmt::Let(x, e) => {
            let value = Arg::Word(eval(e, env, &[]));
            env.put(alloc, x, value)
        }
        Stmt::Put(a, i, e) => {
            run_put(env, a, i, e);
            Ok(())
        }
        Stmt::Move(b, a, i, e) => run_move(alloc, env, b, a, i, e),
        Stmt::If(test, names, _, first, second) => {
            let block = if eval(test, env, &[]) == 0 {
                second
            } else {
                first
            };
            run_inside(alloc, env, names.as_slice(), block.as_slice())
        }
        Stmt::For(x, low, high, names, _, body) => {
            let low = eval(low, env, &[]);
            let high = eval(high, env, &[]);
            run_loop(alloc, env, x, low, high, names.as_slice(), body.as_slice())
        }
        Stmt::Map(a, x, e) => run_map(alloc, env, a, x, e),
        Stmt::Fold(t, a, x, e) => run_fold(alloc, env, t, a, x, e),
    }
}

/// Runs a block.
#[cycle(run)]
pub fn run_block(alloc: Global, env: &mut Environment, stmts: &[Stmt]) -> Result<(), NoMemory>
    ensures { OnOk result (SameValues env.new (spec.in_turn (map spec.run stmts.now) env.old)) }
{
    for stmt in stmts {
        run_stmt(alloc, env, stmt)?;
    }
    Ok(())
}

/// Runs a block of which only the listed names carry over.
#[cycle(run)]
fn run_inside(
    alloc: Global,
    env: &mut Environment,
    names: &[Name],
    block: &[Stmt],
) -> Result<(), NoMemory>
    ensures { OnOk result (SameValues env.new (carry names.now (spec.in_turn (map spec.run block.now) env.old) env.old)) }
{
    let back = come_back(alloc, names, block)?;
    let kept = aside(alloc, back.as_slice(), env)?;
    run_block(alloc, env, block)?;
    restore(alloc, env, back.as_slice(), kept)
}

/// Runs a turn of a body for each number from `low` to `high` - 1. Each turn begins with its own number in the counter, so
/// that the counter's value from before the loop comes back once, at the end.
#[cycle(run)]
fn run_loop(
    alloc: Global,
    env: &mut Environment,
    x: &Name,
    low: u32,
    high: u32,
    names: &[Name],
    body: &[Stmt],
) -> Result<(), NoMemory>
    ensures { OnOk result (SameValues env.new
        (spec.folded (spec.loop_turn x.now names.now (map spec.run body.now)) (spec.numbers low high) env.old)) }
{
    let hidden = counter(alloc, names, x)?;
    let back = come_back(alloc, names, body)?;
    let kept = aside(alloc, hidden.as_slice(), env)?;
    for i in low..high {
        run_turn(alloc, env, x, i, back.as_slice(), body)?;
    }
    restore(alloc, env, hidden.as_slice(), kept)
}

/// Runs a turn, after which the names that come back have their values from before it. The counter keeps its number.
#[cycle(run)]
fn run_turn(
    alloc: Global,
    env: &mut Environment,
    x: &Name,
    i: u32,
    back: &[Name],
    body: &[Stmt],
) -> Result<(), NoMemory>
    ensures { OnOk result (Restores back.now env.old (spec.in_turn (map spec.run body.now) (put x.now (Arg.Word i) env.old))
        env.new) }
{
    let kept = aside(alloc, back, env)?;
    env.put(alloc, x, Arg::Word(i))?;
    run_block(alloc, env, body)?;
    restore(alloc, env, back, kept)
}

/// Puts an element into an array, where it stands.
fn run_put(env: &mut Environment, a: &Name, index: &Expr, e: &Expr)
    ensures { env.new ≡ spec.element_put a.now a.now index.now e.now env.old }
{
    let i = eval(index, env, &[]);
    let n = eval(e, env, &[]);
    env.put_element(a, i, n);
}

/// `b` becomes `a` with an element put; `a` keeps its value.
fn run_move(
    alloc: Global,
    env: &mut Environment,
    b: &Name,
    a: &Name,
    index: &Expr,
    e: &Expr,
) -> Result<(), NoMemory>
    ensures { OnOk result (env.new ≡ spec.element_put b.now a.now index.now e.now env.old) }
{
    let i = eval(index, env, &[]);
    let n = eval(e, env, &[]);
    let value = match env.get(a) {
        None => return Ok(()),
        Some(value) => copy_value(alloc, value)?,
    };
    env.put(alloc, b, with_element(value, i, n))
}

/// Gives an array its new elements, which are made beside the old ones.
fn run_map(
    alloc: Global,
    env: &mut Environment,
    a: &Name,
    x: &Name,
    e: &Expr,
) -> Result<(), NoMemory>
    ensures { OnOk result (env.new ≡ spec.array_mapped a.now x.now e.now env.old) }
{
    let array = match env.get(a) {
        None => return Ok(()),
        Some(Arg::Word(n)) => Arg::Word(*n),
        Some(Arg::Bytes(bytes)) => Arg::Bytes(mapped_bytes(alloc, env, x, e, bytes.as_slice())?),
        Some(Arg::Words(words)) => Arg::Words(mapped_words(alloc, env, x, e, words.as_slice())?),
    };
    env.put(alloc, a, array)
}

fn mapped_bytes(
    alloc: Global,
    env: &Environment,
    x: &Name,
    e: &Expr,
    bytes: &[u8],
) -> Result<Text, NoMemory>
    ensures { IfOk result (λ mapped. mapped ≡ map (λ n. n % 256) (map (spec.element_of x.now e.now env.now) bytes.now)) }
{
    let mut mapped = Text::from_vec(Vec::with_capacity(alloc, bytes.len())?);
    for byte in bytes {
        let number = u32::from(*byte);
        let n = eval(e, env, &[Local { name: x, number }]);
        mapped.push((n & 0xff) as u8)?;
    }
    Ok(mapped)
}

fn mapped_words(
    alloc: Global,
    env: &Environment,
    x: &Name,
    e: &Expr,
    words: &[u32],
) -> Result<List<u32>, NoMemory>
    ensures { IfOk result (λ mapped. mapped ≡ map (spec.element_of x.now e.now env.now) words.now) }
{
    let mut mapped = List::from_vec(Vec::with_capacity(alloc, words.len())?);
    for word in words {
        let number = *word;
        mapped.push(eval(e, env, &[Local { name: x, number }]))?;
    }
    Ok(mapped)
}

fn run_fold(
    alloc: Global,
    env: &mut Environment,
    t: &Name,
    a: &Name,
    x: &Name,
    e: &Expr,
) -> Result<(), NoMemory>
    ensures { OnOk result (env.new ≡ spec.array_folded t.now a.now x.now e.now env.old) }
{
    let start = number(env.get(t));
    let end = folded(env, t, x, e, start, env.get(a));
    env.put(alloc, t, Arg::Word(end))
}

/// The scalar after all elements, which are read where they stand.
fn folded(env: &Environment, t: &Name, x: &Name, e: &Expr, start: u32, array: Option<&Arg>) -> u32
    ensures { result ≡ fold (spec.fold_turn t.now x.now e.now env.now) start (elements (option_copied array.entry)) }
{
    let mut so_far = start;
    for i in 0..count(array) {
        let number = element(array, i);
        let locals = [
            Local { name: x, number },
            Local {
                name: t,
                number: so_far,
            },
        ];
        so_far = eval(e, env, &locals);
    }
    so_far
}
