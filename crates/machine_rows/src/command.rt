//! Commands from their text, which is the text that `print_cmd` gives.
ghost use Rattle.std.specs.Prelude.{◌+◌, ◌≤◌, IfOk, OnOk, map, sum};
ghost use Rattle.bed_syntax.specs.Shape.{expr_size, cmd_size};
ghost use Rattle.bed_syntax.specs.Weight.{expr_weight, cmd_weight};

use bed_syntax::{BExpr, BOp, Cmd, Size, Weights};
use row_cases::{Fault, bytes_of, bytes_written, number_of};
use rup_base::{Box, List};
use std::alloc::Global;
use std::str;
use sx_text::{Sx, read_forms};

/// What the nodes of a command and their weights may be together.
const ROOM: u32 = 200_000;

/// The command of a text.
pub fn command_of(alloc: Global, text: &str) -> Result<Cmd, Fault>
    ensures { IfOk result (λ c. cmd_size c + cmd_weight Weights.LARGE c ≤ 200000) }
{
    let bytes = bytes_written(alloc, text)?;
    if bytes.len() > 1_000_000 {
        return Err(Fault::BadLine);
    }
    let Ok(forms) = read_forms(alloc, 0, bytes.as_slice()) else {
        return Err(Fault::BadLine);
    };
    let [form] = forms.as_slice() else {
        return Err(Fault::BadLine);
    };
    let mut room = ROOM;
    command(alloc, form, &mut room)
}

/// Takes what a node needs: one for itself, and at most six for its weight.
fn take(room: &mut u32) -> Result<(), Fault>
    ensures { OnOk result (room.new + 7 ≤ room.old) }
{
    if *room < 7 {
        return Err(Fault::BadLine);
    }
    *room -= 7;
    Ok(())
}

/// The text of an atom.
fn atom_of(form: &Sx) -> Result<&str, Fault> {
    let Sx::Atom(_, bytes) = form else {
        return Err(Fault::BadLine);
    };
    match str::from_utf8(bytes.as_slice()) {
        Ok(text) => Ok(text),
        Err(_) => Err(Fault::BadLine),
    }
}

/// A local, as `v12`.
fn local_of(form: &Sx) -> Result<u32, Fault> {
    match atom_of(form)?.strip_prefix("v") {
        Some(digits) => number_of(digits),
        None => Err(Fault::BadLine),
    }
}

/// A word of the machine, in decimal, or a local.
fn leaf(form: &Sx) -> Result<BExpr, Fault>
    ensures { IfOk result (λ e. expr_size e + expr_weight Weights.LARGE e ≤ 7) }
{
    if atom_of(form)?.starts_with('v') {
        return Ok(BExpr::Var(local_of(form)?));
    }
    Ok(BExpr::Lit(number_of(atom_of(form)?)?))
}

/// The size in the last letter of a word that begins as the given one.
fn size_of(form: &Sx, word: &str) -> Result<Size, Fault> {
    match atom_of(form)?.strip_prefix(word) {
        Some("1") => Ok(Size::One),
        Some("2") => Ok(Size::Two),
        Some("4") => Ok(Size::Four),
        _ => Err(Fault::BadLine),
    }
}

/// The operation of a name.
pub fn operation_of(name: &str) -> Option<BOp> {
    Some(match name.as_bytes() {
        b"add" => BOp::Add,
        b"sub" => BOp::Sub,
        b"mul" => BOp::Mul,
        b"mulhuu" => BOp::Mulhuu,
        b"divu" => BOp::Divu,
        b"remu" => BOp::Remu,
        b"and" => BOp::And,
        b"or" => BOp::Or,
        b"xor" => BOp::Xor,
        b"sru" => BOp::Sru,
        b"slu" => BOp::Slu,
        b"srs" => BOp::Srs,
        b"lts" => BOp::Lts,
        b"ltu" => BOp::Ltu,
        b"eq" => BOp::Eq,
        _ => return None,
    })
}

/// An expression: a leaf, a load, an operation, or a look into a table.
#[cycle(expression)]
fn expression(alloc: Global, form: &Sx, room: &mut u32) -> Result<BExpr, Fault>
    ensures { IfOk result (λ e. expr_size e + expr_weight Weights.LARGE e + room.new ≤ room.old) }
{
    take(room)?;
    let Sx::Kids(_, kids) = form else {
        return leaf(form);
    };
    match kids.as_slice() {
        [head, at] => {
            let size = size_of(head, "load")?;
            Ok(BExpr::Load(size, boxed(alloc, at, room)?))
        }
        [head, first, second] => match operation_of(atom_of(head)?) {
            Some(op) => {
                let left = boxed(alloc, first, room)?;
                let right = boxed(alloc, second, room)?;
                Ok(BExpr::Bin(op, left, right))
            }
            None => {
                let size = size_of(head, "table")?;
                let bytes = bytes_of(alloc, atom_of(first)?)?;
                Ok(BExpr::Table(size, bytes, boxed(alloc, second, room)?))
            }
        },
        _ => Err(Fault::BadLine),
    }
}

#[cycle(expression)]
fn boxed(alloc: Global, form: &Sx, room: &mut u32) -> Result<Box<BExpr>, Fault>
    ensures { IfOk result (λ e. expr_size e + expr_weight Weights.LARGE e + room.new ≤ room.old) }
{
    let e = expression(alloc, form, room)?;
    Ok(Box::new(alloc, e)?)
}

/// A command.
#[cycle(command)]
fn command(alloc: Global, form: &Sx, room: &mut u32) -> Result<Cmd, Fault>
    ensures { IfOk result (λ c. cmd_size c + cmd_weight Weights.LARGE c + room.new ≤ room.old) }
{
    take(room)?;
    let Sx::Kids(_, kids) = form else {
        return Err(Fault::BadLine);
    };
    let [head, rest @ ..] = kids.as_slice() else {
        return Err(Fault::BadLine);
    };
    match atom_of(head)?.as_bytes() {
        b"seq" => sequence(alloc, rest, room),
        b"if" => conditional(alloc, rest, room),
        b"while" => looping(alloc, rest, room),
        b"set" => setting(alloc, rest, room),
        _ => storing(alloc, head, rest, room),
    }
}

/// Commands in a row. What the node itself needs is taken already, here and below.
#[cycle(command)]
fn sequence(alloc: Global, forms: &[Sx], room: &mut u32) -> Result<Cmd, Fault>
    ensures { IfOk result (λ c. cmd_size c + cmd_weight Weights.LARGE c + room.new ≤ room.old + 7) }
{
    Ok(Cmd::Seq(commands(alloc, forms, room)?))
}

/// A test and two sides.
#[cycle(command)]
fn conditional(alloc: Global, forms: &[Sx], room: &mut u32) -> Result<Cmd, Fault>
    ensures { IfOk result (λ c. cmd_size c + cmd_weight Weights.LARGE c + room.new ≤ room.old + 7) }
{
    let [e, first, second] = forms else {
        return Err(Fault::BadLine);
    };
    let test = expression(alloc, e, room)?;
    let first = part(alloc, first, room)?;
    Ok(Cmd::Cond(test, first, part(alloc, second, room)?))
}

/// A test and a body.
#[cycle(command)]
fn looping(alloc: Global, forms: &[Sx], room: &mut u32) -> Result<Cmd, Fault>
    ensures { IfOk result (λ c. cmd_size c + cmd_weight Weights.LARGE c + room.new ≤ room.old + 7) }
{
    let [e, body] = forms else {
        return Err(Fault::BadLine);
    };
    let test = expression(alloc, e, room)?;
    Ok(Cmd::While(test, part(alloc, body, room)?))
}

/// A local and its value.
fn setting(alloc: Global, forms: &[Sx], room: &mut u32) -> Result<Cmd, Fault>
    ensures { IfOk result (λ c. cmd_size c + cmd_weight Weights.LARGE c + room.new ≤ room.old + 7) }
{
    let [x, e] = forms else {
        return Err(Fault::BadLine);
    };
    Ok(Cmd::Set(local_of(x)?, expression(alloc, e, room)?))
}

/// An address and what is stored there, with the size in the first word.
fn storing(alloc: Global, head: &Sx, forms: &[Sx], room: &mut u32) -> Result<Cmd, Fault>
    ensures { IfOk result (λ c. cmd_size c + cmd_weight Weights.LARGE c + room.new ≤ room.old + 7) }
{
    let [at, e] = forms else {
        return Err(Fault::BadLine);
    };
    let size = size_of(head, "store")?;
    let address = expression(alloc, at, room)?;
    Ok(Cmd::Store(size, address, expression(alloc, e, room)?))
}

/// A command inside another.
#[cycle(command)]
fn part(alloc: Global, form: &Sx, room: &mut u32) -> Result<Box<Cmd>, Fault>
    ensures { IfOk result (λ c. cmd_size c + cmd_weight Weights.LARGE c + room.new ≤ room.old) }
{
    let c = command(alloc, form, room)?;
    Ok(Box::new(alloc, c)?)
}

#[cycle(command)]
fn commands(alloc: Global, forms: &[Sx], room: &mut u32) -> Result<List<Cmd>, Fault>
    ensures { IfOk result (λ cs. sum (map cmd_size cs) + sum (map (cmd_weight Weights.LARGE) cs) + room.new ≤ room.old) }
{
    let mut commands = List::new(alloc);
    for form in forms {
        commands.push(command(alloc, form, room)?)?;
    }
    Ok(commands)
}
