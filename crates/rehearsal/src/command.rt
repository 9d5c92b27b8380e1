//! The command, made by hand: the second result first, in locals and by expressions that no rule gives.
ghost use Rattle.std.specs.Prelude.{◌≡◌, IfOk};
ghost use Rattle.bed_syntax.specs.declared.expression.BExpr.TheVariants as expr;
ghost use Rattle.rehearsal.specs.Example as example;

use bed_syntax::{BExpr, BOp, Cmd, Size};
use cost_poly::Poly;
use model_command::ModelCommand;
use rup_base::{Box, List, NoMemory, Text};
use std::alloc::Global;

/// The words 5, 7, 11 and 13, little endian.
const TABLE: [u8; 16] = [5, 0, 0, 0, 7, 0, 0, 0, 11, 0, 0, 0, 13, 0, 0, 0];

/// The command with its numbers.
pub fn command(alloc: Global) -> Result<ModelCommand, NoMemory>
    ensures { IfOk result (λ command. command ≡ example.command) }
{
    let mut rets = List::new(alloc);
    rets.push(6)?;
    rets.push(3)?;
    Ok(ModelCommand {
        command: body(alloc)?,
        args: 2,
        rets,
        bound: bound(),
        weight: 84,
        locals: 4,
        depth: 5,
    })
}

/// 84 steps for each byte of the array.
fn bound() -> Poly
    ensures { result ≡ example.bound }
{
    match Poly::term(Some(0), None, 84) {
        Some(bound) => bound,
        None => unreachable!(),
    }
}

fn body(alloc: Global) -> Result<Cmd, NoMemory>
    ensures { IfOk result (λ body. body ≡ example.body) }
{
    let mut commands = List::new(alloc);
    commands.push(Cmd::Set(3, entry(alloc)?))?;
    commands.push(Cmd::Set(6, byte_read(alloc)?))?;
    Ok(Cmd::Seq(commands))
}

/// The entry of the table.
fn entry(alloc: Global) -> Result<BExpr, NoMemory>
    ensures { IfOk result (λ entry. entry ≡ example.entry) }
{
    let place = Box::new(alloc, place(alloc)?)?;
    let table = Text::from_slice(alloc, &TABLE)?;
    Ok(BExpr::Table(Size::Four, table, place))
}

/// The place in the table, in bytes.
fn place(alloc: Global) -> Result<BExpr, NoMemory>
    ensures { IfOk result (λ place. place ≡ example.place) }
{
    let byte = Box::new(alloc, byte_read(alloc)?)?;
    let remainder = BExpr::Bin(BOp::Remu, byte, four(alloc)?);
    Ok(BExpr::Bin(BOp::Mul, Box::new(alloc, remainder)?, four(alloc)?))
}

fn four(alloc: Global) -> Result<Box<BExpr>, NoMemory>
    ensures { IfOk result (λ four. four ≡ expr.Lit 4) }
{
    Box::new(alloc, BExpr::Lit(4))
}

/// The byte at the pointer, which is local 0.
fn byte_read(alloc: Global) -> Result<BExpr, NoMemory>
    ensures { IfOk result (λ byte. byte ≡ example.byte_read) }
{
    let pointer = Box::new(alloc, BExpr::Var(0))?;
    Ok(BExpr::Load(Size::One, pointer))
}
