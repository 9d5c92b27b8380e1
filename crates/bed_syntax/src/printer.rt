//! Commands to their text.
ghost use Rattle.std.specs.Prelude.{◌≡◌, ◌<◌, ◌++◌, OnOk, IfOk, map};
ghost use Rattle.std.specs.Fmt.{decimal};
ghost use Rattle.rup_base.specs.Spelling as texts;
ghost use Rattle.bed_syntax.specs.Spelling as spelling;

use crate::command::Cmd;
use crate::expression::BExpr;
use crate::operation::{BOp, Size};
use rup_base::{NoMemory, Text, hex_digit};
use std::alloc::Global;

/// The text of a command: lists in parentheses with single spaces, as `(seq (set v1 (mul v0 8)))`.
pub fn print_cmd(alloc: Global, c: &Cmd) -> Result<Text, NoMemory>
    ensures { IfOk result (λ text. text ≡ spelling.cmd_text c.now) }
{
    let mut out = Text::new(alloc);
    write_cmd(alloc, &mut out, c)?;
    Ok(out)
}

fn op_name(op: BOp) -> &'static [u8]
    ensures { result.now ≡ spelling.op_name op }
{
    match op {
        BOp::Add => b"add",
        BOp::Sub => b"sub",
        BOp::Mul => b"mul",
        BOp::Mulhuu => b"mulhuu",
        BOp::Divu => b"divu",
        BOp::Remu => b"remu",
        BOp::And => b"and",
        BOp::Or => b"or",
        BOp::Xor => b"xor",
        BOp::Sru => b"sru",
        BOp::Slu => b"slu",
        BOp::Srs => b"srs",
        BOp::Lts => b"lts",
        BOp::Ltu => b"ltu",
        BOp::Eq => b"eq",
    }
}

fn size_digit(size: Size) -> u8
    ensures { result ≡ spelling.size_digit size }
{
    match size {
        Size::One => b'1',
        Size::Two => b'2',
        Size::Four => b'4',
    }
}

fn write_number(alloc: Global, out: &mut Text, n: u32) -> Result<(), NoMemory>
    ensures { OnOk result (out.new ≡ out.old ++ decimal n) }
{
    let digits = format!(in alloc; "{n}")?;
    out.extend_from_slice(digits.as_bytes())
}

fn write_local(alloc: Global, out: &mut Text, x: u32) -> Result<(), NoMemory>
    ensures { OnOk result (out.new ≡ out.old ++ spelling.local_text x) }
{
    out.push(b'v')?;
    write_number(alloc, out, x)
}

fn write_hex(out: &mut Text, bytes: &[u8]) -> Result<(), NoMemory>
    ensures { OnOk result (out.new ≡ out.old ++ spelling.hex bytes.now) }
{
    for byte in bytes {
        out.push(hex_digit(*byte >> 4))?;
        out.push(hex_digit(*byte & 15))?;
    }
    Ok(())
}

fn write_expr(alloc: Global, out: &mut Text, e: &BExpr) -> Result<(), NoMemory>
    ensures { OnOk result (out.new ≡ out.old ++ spelling.expr_text e.now) }
{
    match e {
        BExpr::Lit(n) => write_number(alloc, out, *n),
        BExpr::Var(x) => write_local(alloc, out, *x),
        BExpr::Bin(op, a, b) => {
            out.push(b'(')?;
            out.extend_from_slice(op_name(*op))?;
            out.push(b' ')?;
            write_expr(alloc, out, a)?;
            out.push(b' ')?;
            write_expr(alloc, out, b)?;
            out.push(b')')
        }
        BExpr::Load(size, a) => {
            out.extend_from_slice(b"(load")?;
            out.push(size_digit(*size))?;
            out.push(b' ')?;
            write_expr(alloc, out, a)?;
            out.push(b')')
        }
        BExpr::Table(size, bytes, i) => {
            out.extend_from_slice(b"(table")?;
            out.push(size_digit(*size))?;
            out.push(b' ')?;
            write_hex(out, bytes.as_slice())?;
            out.push(b' ')?;
            write_expr(alloc, out, i)?;
            out.push(b')')
        }
    }
}

#[cycle(write)]
fn write_cmd(alloc: Global, out: &mut Text, c: &Cmd) -> Result<(), NoMemory>
    ensures { OnOk result (out.new ≡ out.old ++ spelling.cmd_text c.now) }
{
    match c {
        Cmd::Set(x, e) => {
            out.extend_from_slice(b"(set ")?;
            write_local(alloc, out, *x)?;
            out.push(b' ')?;
            write_expr(alloc, out, e)?;
            out.push(b')')
        }
        Cmd::Store(size, a, e) => {
            out.extend_from_slice(b"(store")?;
            out.push(size_digit(*size))?;
            out.push(b' ')?;
            write_expr(alloc, out, a)?;
            out.push(b' ')?;
            write_expr(alloc, out, e)?;
            out.push(b')')
        }
        Cmd::Cond(e, p, q) => {
            out.extend_from_slice(b"(if ")?;
            write_expr(alloc, out, e)?;
            out.push(b' ')?;
            write_cmd(alloc, out, p)?;
            out.push(b' ')?;
            write_cmd(alloc, out, q)?;
            out.push(b')')
        }
        Cmd::Seq(cs) => {
            out.extend_from_slice(b"(seq")?;
            write_cmds(alloc, out, cs.as_slice())?;
            out.push(b')')
        }
        Cmd::While(e, p) => {
            out.extend_from_slice(b"(while ")?;
            write_expr(alloc, out, e)?;
            out.push(b' ')?;
            write_cmd(alloc, out, p)?;
            out.push(b')')
        }
    }
}

// Each command behind a space.
#[cycle(write)]
fn write_cmds(alloc: Global, out: &mut Text, cs: &[Cmd]) -> Result<(), NoMemory>
    ensures { OnOk result (out.new ≡ out.old ++ texts.behind_spaces (map spelling.cmd_text cs.now)) }
{
    for c in cs {
        out.push(b' ')?;
        write_cmd(alloc, out, c)?;
    }
    Ok(())
}
