//! The pass itself.
ghost use Rattle.std.specs.Prelude.{◌≡◌, ◌+◌, ◌++◌, ◌^◌, ◌<◌, ◌≤◌, OnOk, IfOk, length, map, sum};
ghost use Rattle.bed_syntax.specs.Named.{cmd_names};
ghost use Rattle.bed_syntax.specs.Pressure.{pressure};
ghost use Rattle.bed_syntax.specs.Shape.{expr_size, cmd_size, cmd_depth, locals_of};
ghost use Rattle.bed_syntax.specs.Weight.{cmd_weight};
ghost use Rattle.bed_syntax.specs.declared.weights.Weights.{Weights};
ghost use Rattle.flat_lang.specs.Count.{code_names, code_weight};
ghost use Rattle.flat_lang.specs.Pressure.{flat_pressure};
ghost use Rattle.flat_lang.specs.Whole.{IsWhole};
ghost use Rattle.flatten.specs.Code.{place, expr_code, cmd_code, in_turn, flat_of};
ghost use Rattle.flatten.specs.Keeps.{Keeps};
ghost use Rattle.bed_syntax.specs.Tables.{cmd_tables};

use crate::names::place_of;
use bed_syntax::{BExpr, Cmd, depth_of_cmd, locals_of_cmd};
use flat_lang::{FStmt, Flat};
use rup_base::{List, NoMemory, Text};
use std::alloc::Global;

/// The three-address code of a command whose first `args` locals are its arguments, and whose results are the
/// locals `rets`. It evaluates from left to right, an address before the value that is stored there, and has the
/// code of a loop's test once, before the body.
pub fn flatten(alloc: Global, c: &Cmd, args: u32, rets: &[u32]) -> Result<Flat, NoMemory>
    requires small { cmd_size c.now < 2 ^ 30 }
    requires few_args { args ≤ 8 }
    requires few_rets { length rets.now ≤ 2 }
    ensures keeps { IfOk result (λ flat. Keeps c.now args rets.now flat) }
    ensures whole { IfOk result (λ flat. IsWhole flat) }
    ensures arguments { IfOk result (λ flat. flat.args ≡ args) }
    ensures results { IfOk result (λ flat. length flat.rets ≡ length rets.now) }
    ensures variables { IfOk result (λ flat. flat.vars ≡ length (locals_of c.now args rets.now) + cmd_depth c.now) }
    ensures tables { IfOk result (λ flat. flat.tables ≡ cmd_tables c.now) }
    ensures weight { IfOk result (λ flat. (w : Weights) → w.variable ≡ w.set → code_weight w flat.body ≡ cmd_weight w c.now) }
    ensures names { IfOk result (λ flat. code_names flat.body ≡ cmd_names c.now) }
    ensures pressure { IfOk result (λ flat. flat_pressure flat ≤ pressure c.now args rets.now) }
{
    code_of(alloc, c, args, rets)
}

fn code_of(alloc: Global, c: &Cmd, args: u32, rets: &[u32]) -> Result<Flat, NoMemory>
    requires small { cmd_size c.now < 2 ^ 30 }
    requires few_args { args ≤ 8 }
    requires few_rets { length rets.now ≤ 2 }
    ensures { IfOk result (λ flat. flat ≡ flat_of c.now args rets.now) }
{
    let names = locals_of_cmd(alloc, c, args, rets)?;
    let mut body = List::new(alloc);
    let mut tables = List::new(alloc);
    flatten_cmd(alloc, names.as_slice(), c, &mut body, &mut tables)?;
    let vars = names.len() as u32 + depth_of_cmd(c);
    let rets = places(alloc, names.as_slice(), rets)?;
    Ok(Flat {
        body,
        vars,
        args,
        rets,
        tables,
    })
}

fn places(alloc: Global, names: &[u32], xs: &[u32]) -> Result<List<u32>, NoMemory>
    requires { length names.now < 2 ^ 32 }
    ensures { IfOk result (λ places. places ≡ map (place names.now) xs.now) }
{
    let mut places = List::new(alloc);
    for x in xs {
        places.push(place_of(names, *x))?;
    }
    Ok(places)
}

// Puts the code of an expression behind `out`, its value into `to`, and its tables behind `tables`.
fn flatten_expr(
    alloc: Global,
    names: &[u32],
    e: &BExpr,
    to: u32,
    out: &mut List<FStmt>,
    tables: &mut List<Text>,
) -> Result<(), NoMemory>
    requires names { length names.now < 2 ^ 32 }
    requires room { to + expr_size e.now < 2 ^ 32 }
    requires few { length tables.old + expr_size e.now < 2 ^ 32 }
    ensures code { OnOk result (out.new ≡ out.old ++ (expr_code names.now e.now).code to (length tables.old)) }
    ensures tables { OnOk result (tables.new ≡ tables.old ++ (expr_code names.now e.now).tables) }
    ensures bounded { OnOk result (length tables.new ≤ length tables.old + expr_size e.now) }
{
    match e {
        BExpr::Lit(n) => out.push(FStmt::Lit(to, *n)),
        BExpr::Var(x) => out.push(FStmt::Copy(to, place_of(names, *x))),
        BExpr::Bin(op, a, b) => {
            flatten_expr(alloc, names, a, to, out, tables)?;
            flatten_expr(alloc, names, b, to + 1, out, tables)?;
            out.push(FStmt::Bin(*op, to, to, to + 1))
        }
        BExpr::Load(size, a) => {
            flatten_expr(alloc, names, a, to, out, tables)?;
            out.push(FStmt::Load(*size, to, to))
        }
        BExpr::Table(size, bytes, i) => {
            flatten_expr(alloc, names, i, to, out, tables)?;
            let number = tables.len() as u32;
            tables.push(Text::from_slice(alloc, bytes.as_slice())?)?;
            out.push(FStmt::Table(*size, to, number, to))
        }
    }
}

// The same of a command, whose expressions take the variables behind those of the locals.
#[cycle(flatten)]
fn flatten_cmd(
    alloc: Global,
    names: &[u32],
    c: &Cmd,
    out: &mut List<FStmt>,
    tables: &mut List<Text>,
) -> Result<(), NoMemory>
    requires room { length names.now + cmd_size c.now < 2 ^ 32 }
    requires few { length tables.old + cmd_size c.now < 2 ^ 32 }
    ensures code { OnOk result (out.new ≡ out.old ++ (cmd_code names.now c.now).code (length tables.old)) }
    ensures tables { OnOk result (tables.new ≡ tables.old ++ (cmd_code names.now c.now).tables) }
    ensures bounded { OnOk result (length tables.new ≤ length tables.old + cmd_size c.now) }
{
    let first = names.len() as u32;
    match c {
        Cmd::Set(x, e) => {
            flatten_expr(alloc, names, e, first, out, tables)?;
            out.push(FStmt::Copy(place_of(names, *x), first))
        }
        Cmd::Store(size, a, e) => {
            flatten_expr(alloc, names, a, first, out, tables)?;
            flatten_expr(alloc, names, e, first + 1, out, tables)?;
            out.push(FStmt::Store(*size, first, first + 1))
        }
        Cmd::Cond(e, p, q) => {
            flatten_expr(alloc, names, e, first, out, tables)?;
            let mut first_side = List::new(alloc);
            flatten_cmd(alloc, names, p, &mut first_side, tables)?;
            let mut second_side = List::new(alloc);
            flatten_cmd(alloc, names, q, &mut second_side, tables)?;
            out.push(FStmt::If(first, first_side, second_side))
        }
        Cmd::Seq(cs) => flatten_cmds(alloc, names, cs.as_slice(), out, tables),
        Cmd::While(e, p) => {
            let mut test = List::new(alloc);
            flatten_expr(alloc, names, e, first, &mut test, tables)?;
            let mut body = List::new(alloc);
            flatten_cmd(alloc, names, p, &mut body, tables)?;
            out.push(FStmt::While(test, first, body))
        }
    }
}

#[cycle(flatten)]
fn flatten_cmds(
    alloc: Global,
    names: &[u32],
    cs: &[Cmd],
    out: &mut List<FStmt>,
    tables: &mut List<Text>,
) -> Result<(), NoMemory>
    requires room { length names.now + sum (map cmd_size cs.now) < 2 ^ 32 }
    requires few { length tables.old + sum (map cmd_size cs.now) < 2 ^ 32 }
    ensures code { OnOk result (out.new ≡ out.old ++ (in_turn (map (cmd_code names.now) cs.now)).code (length tables.old)) }
    ensures tables { OnOk result (tables.new ≡ tables.old ++ (in_turn (map (cmd_code names.now) cs.now)).tables) }
    ensures bounded { OnOk result (length tables.new ≤ length tables.old + sum (map cmd_size cs.now)) }
{
    for c in cs {
        flatten_cmd(alloc, names, c, out, tables)?;
    }
    Ok(())
}
