//! The names, expressions and statements of a generated model.
ghost use Rattle.std.specs.Prelude.{◌≡◌, ◌<◌, true, IfOk};
ghost use Rattle.rup_base.specs.Name.{is_name};
ghost use Rattle.model_syntax.specs.declared.expr.Expr.TheVariants as e;
ghost use Rattle.bench_gen.specs.Generator as generator;

use model_syntax::{Expr, Op, Stmt};
use rup_base::{Box, Name, NoMemory};
use std::alloc::Global;

/// The name that the bytes are.
pub fn name(alloc: Global, text: &[u8]) -> Result<Name, NoMemory>
    requires { is_name text.now ≡ true }
    ensures { IfOk result (λ name. name ≡ text.now) }
{
    match Name::read(alloc, text)? {
        Some(name) => Ok(name),
        None => unreachable!(),
    }
}

/// `x0` to `x7`.
pub fn scalar(alloc: Global, k: u32) -> Result<Name, NoMemory>
    requires { k < 8 }
    ensures { IfOk result (λ name. name ≡ generator.scalar k) }
{
    let text: &[u8] = match k {
        0 => b"x0",
        1 => b"x1",
        2 => b"x2",
        3 => b"x3",
        4 => b"x4",
        5 => b"x5",
        6 => b"x6",
        _ => b"x7",
    };
    name(alloc, text)
}

fn var(alloc: Global, k: u32) -> Result<Expr, NoMemory>
    requires { k < 8 }
    ensures { IfOk result (λ var. var ≡ generator.var k) }
{
    Ok(Expr::Var(scalar(alloc, k)?))
}

fn bin(alloc: Global, op: Op, left: Expr, right: Expr) -> Result<Expr, NoMemory>
    ensures { IfOk result (λ bin. bin ≡ e.Bin op left right) }
{
    let left = Box::new(alloc, left)?;
    let right = Box::new(alloc, right)?;
    Ok(Expr::Bin(op, left, right))
}

/// `(let xk (add p k))`
pub fn first(alloc: Global, k: u32) -> Result<Stmt, NoMemory>
    requires { k < 8 }
    ensures { IfOk result (λ first. first ≡ generator.first k) }
{
    let word = Expr::Var(name(alloc, b"p")?);
    let value = bin(alloc, Op::Add, word, Expr::Lit(k))?;
    Ok(Stmt::Let(scalar(alloc, k)?, value))
}

/// `(let xa (add xb xc))`
pub fn sum(alloc: Global, a: u32, b: u32, c: u32) -> Result<Stmt, NoMemory>
    requires a { a < 8 }
    requires b { b < 8 }
    requires c { c < 8 }
    ensures { IfOk result (λ sum. sum ≡ generator.sum a b c) }
{
    let left = var(alloc, b)?;
    let right = var(alloc, c)?;
    let value = bin(alloc, Op::Add, left, right)?;
    Ok(Stmt::Let(scalar(alloc, a)?, value))
}

/// `(let xa (xor xb (mul xc 31)))`
pub fn mix(alloc: Global, a: u32, b: u32, c: u32) -> Result<Stmt, NoMemory>
    requires a { a < 8 }
    requires b { b < 8 }
    requires c { c < 8 }
    ensures { IfOk result (λ mix. mix ≡ generator.mix a b c) }
{
    let left = var(alloc, b)?;
    let right = var(alloc, c)?;
    let product = bin(alloc, Op::Mul, right, Expr::Lit(31))?;
    let value = bin(alloc, Op::Xor, left, product)?;
    Ok(Stmt::Let(scalar(alloc, a)?, value))
}

/// `(let xa (sub (shr xb 3) xc))`
pub fn shift(alloc: Global, a: u32, b: u32, c: u32) -> Result<Stmt, NoMemory>
    requires a { a < 8 }
    requires b { b < 8 }
    requires c { c < 8 }
    ensures { IfOk result (λ shift. shift ≡ generator.shift a b c) }
{
    let left = var(alloc, b)?;
    let right = var(alloc, c)?;
    let shifted = bin(alloc, Op::Shr, left, Expr::Lit(3))?;
    let value = bin(alloc, Op::Sub, shifted, right)?;
    Ok(Stmt::Let(scalar(alloc, a)?, value))
}

/// `(fold xa s (y) (add (mul xa 31) (word y)))`
pub fn hash(alloc: Global, a: u32) -> Result<Stmt, NoMemory>
    requires { a < 8 }
    ensures { IfOk result (λ hash. hash ≡ generator.hash a) }
{
    let so_far = var(alloc, a)?;
    let product = bin(alloc, Op::Mul, so_far, Expr::Lit(31))?;
    let element = Box::new(alloc, Expr::Var(name(alloc, b"y")?))?;
    let value = bin(alloc, Op::Add, product, Expr::ToWord(element))?;
    let array = name(alloc, b"s")?;
    let element = name(alloc, b"y")?;
    Ok(Stmt::Fold(scalar(alloc, a)?, array, element, value))
}
