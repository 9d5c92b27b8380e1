//! The code of statements, from its end to its start: so each distance is known when its jump is made.
ghost use Rattle.std.specs.Prelude.{◌≡◌, [], ◌∷◌, ◌++◌, ◌+◌, ◌-◌, ◌*◌, ◌%◌, ◌<◌, ◌≤◌, ◌^◌, OnOk, drop, length, map, slice_get};
ghost use Rattle.std.specs.Prelude.{slice_index_or, slice_set, Some, true};
ghost use Rattle.rv_code.specs.Word.{word_of};
ghost use Rattle.flat_lang.specs.Whole.{is_whole, all_whole};
ghost use Rattle.flat_lang.specs.Count.{stmt_weight, code_weight};
ghost use Rattle.rv_emit.specs.Code.{ahead, register_of, from_slot, to_slot, stmt_code, block_code};
ghost use Rattle.rv_emit.specs.Code as spec;
ghost use Rattle.rv_emit.specs.Fit.{fits, all_fit};
ghost use Rattle.rv_emit.specs.Whole as whole;
ghost use Rattle.rv_emit.specs.Emission.{IsNear, IsPlan, Puts, offset_of};

use crate::instructions::{
    copied, from_slot, jump, jump_back, literal, load_at, operate, over, put, register_of,
    store_to, to_slot, upper,
};
use bed_syntax::{BOp, Size, Weights};
use flat_lang::FStmt;
use reg_alloc::{At, Plan};
use rup_base::NoMemory;
use rv_code::{Instr, Reg};

/// The place of a variable.
pub fn place(plan: &Plan, x: u32) -> At
    requires plan { IsPlan plan.now }
    requires known { x < length plan.now.places }
    ensures entry { slice_get plan.now.places x ≡ Some result }
    ensures place { result ≡ whole.place plan.now x }
    ensures near { IsNear result }
{
    plan.places.as_slice()[x as usize]
}

fn set(plan: &Plan, x: u32, value: u32, code: &mut Vec<Instr>) -> Result<(), NoMemory>
    requires plan { IsPlan plan.now }
    requires known { x < length plan.now.places }
    ensures counted { OnOk result (length code.new.items ≤ length code.old.items + 3) }
    ensures words { OnOk result (Puts code.old.items code.new.items
        (spec.literal (register_of 5 (whole.place plan.now x)) value ++ to_slot (whole.place plan.now x))) }
{
    let to = place(plan, x);
    to_slot(to, code)?;
    literal(register_of(Reg::T0, to), value, code)
}

fn copy(plan: &Plan, x: u32, y: u32, code: &mut Vec<Instr>) -> Result<(), NoMemory>
    requires plan { IsPlan plan.now }
    requires to { x < length plan.now.places }
    requires from { y < length plan.now.places }
    ensures counted { OnOk result (length code.new.items ≤ length code.old.items + 2) }
    ensures words { OnOk result (Puts code.old.items code.new.items
        (spec.copied (whole.place plan.now x) (whole.place plan.now y))) }
{
    copied(place(plan, x), place(plan, y), code)
}

fn bin(plan: &Plan, op: BOp, x: u32, y: u32, z: u32, code: &mut Vec<Instr>) -> Result<(), NoMemory>
    requires plan { IsPlan plan.now }
    requires to { x < length plan.now.places }
    requires first { y < length plan.now.places }
    requires second { z < length plan.now.places }
    ensures counted { OnOk result (length code.new.items ≤ length code.old.items + 5) }
    ensures words { OnOk result (Puts code.old.items code.new.items
        (from_slot 5 (whole.place plan.now y)
        ++ (from_slot 6 (whole.place plan.now z)
        ++ (spec.operation op (register_of 5 (whole.place plan.now x)) (register_of 5 (whole.place plan.now y))
        (register_of 6 (whole.place plan.now z)) ++ to_slot (whole.place plan.now x))))) }
{
    let to = place(plan, x);
    let first = place(plan, y);
    let second = place(plan, z);
    to_slot(to, code)?;
    operate(
        op,
        register_of(Reg::T0, to),
        register_of(Reg::T0, first),
        register_of(Reg::T1, second),
        code,
    )?;
    from_slot(Reg::T1, second, code)?;
    from_slot(Reg::T0, first, code)
}

fn load(plan: &Plan, size: Size, x: u32, y: u32, code: &mut Vec<Instr>) -> Result<(), NoMemory>
    requires plan { IsPlan plan.now }
    requires to { x < length plan.now.places }
    requires from { y < length plan.now.places }
    ensures counted { OnOk result (length code.new.items ≤ length code.old.items + 3) }
    ensures words { OnOk result (Puts code.old.items code.new.items
        (from_slot 5 (whole.place plan.now y)
        ++ (spec.load_at size (register_of 5 (whole.place plan.now x)) (register_of 5 (whole.place plan.now y)) 0
        ∷ to_slot (whole.place plan.now x)))) }
{
    let to = place(plan, x);
    let from = place(plan, y);
    to_slot(to, code)?;
    put(
        code,
        load_at(
            size,
            register_of(Reg::T0, to),
            register_of(Reg::T0, from),
            0,
        ),
    )?;
    from_slot(Reg::T0, from, code)
}

fn store(plan: &Plan, size: Size, x: u32, y: u32, code: &mut Vec<Instr>) -> Result<(), NoMemory>
    requires plan { IsPlan plan.now }
    requires to { x < length plan.now.places }
    requires from { y < length plan.now.places }
    ensures counted { OnOk result (length code.new.items ≤ length code.old.items + 3) }
    ensures words { OnOk result (Puts code.old.items code.new.items
        (from_slot 5 (whole.place plan.now x)
        ++ (from_slot 6 (whole.place plan.now y)
        ++ spec.store_to size (register_of 5 (whole.place plan.now x)) (register_of 6 (whole.place plan.now y)) ∷ []))) }
{
    let address = place(plan, x);
    let value = place(plan, y);
    put(
        code,
        store_to(
            size,
            register_of(Reg::T0, address),
            register_of(Reg::T1, value),
        ),
    )?;
    from_slot(Reg::T1, value, code)?;
    from_slot(Reg::T0, address, code)
}

// How far the byte of a number in the text of the tables is from an instruction that is put next but `more`.
fn distance(offsets: &[u64], k: u32, more: u32, code: &Vec<Instr>) -> u32
    requires known { k < length offsets.now }
    requires few { more ≤ 2 }
    requires short { length code.now.items ≤ 260000 }
    ensures { result ≡ ahead (offset_of offsets.now k) (more + length code.now.items) % 2 ^ 32 }
{
    let behind = 4 * (code.len() as u32 + more + 1);
    let offset = offsets[k as usize] % 4294967296;
    behind.wrapping_add(offset as u32)
}

fn look_up(
    plan: &Plan,
    offsets: &[u64],
    size: Size,
    x: u32,
    k: u32,
    y: u32,
    code: &mut Vec<Instr>,
) -> Result<(), NoMemory>
    requires plan { IsPlan plan.now }
    requires to { x < length plan.now.places }
    requires from { y < length plan.now.places }
    requires known { k < length offsets.now }
    requires room { length code.old.items ≤ 259000 }
    ensures counted { OnOk result (length code.new.items ≤ length code.old.items + 5) }
    ensures words { OnOk result (Puts code.old.items code.new.items
        (spec.look_up size (whole.place plan.now x) (offset_of offsets.now k) (whole.place plan.now y) (length code.old.items))) }
{
    let to = place(plan, x);
    let from = place(plan, y);
    to_slot(to, code)?;
    let number = distance(offsets, k, 2, code);
    put(
        code,
        load_at(size, register_of(Reg::T0, to), Reg::T0, number),
    )?;
    put(
        code,
        Instr::Add {
            rd: Reg::T0,
            rs1: register_of(Reg::T0, from),
            rs2: Reg::T1,
        },
    )?;
    put(
        code,
        Instr::Auipc {
            rd: Reg::T1,
            imm: upper(number),
        },
    )?;
    from_slot(Reg::T0, from, code)
}

// The test of a variable, and where it is 0 over all that was put since the code had a length.
fn test(plan: &Plan, x: u32, since: usize, code: &mut Vec<Instr>) -> Result<(), NoMemory>
    requires plan { IsPlan plan.now }
    requires known { x < length plan.now.places }
    requires before { since ≤ length code.old.items }
    requires short { length code.old.items ≤ 260000 }
    ensures counted { OnOk result (length code.new.items ≤ length code.old.items + 3) }
    ensures words { OnOk result (Puts code.old.items code.new.items
        (from_slot 5 (whole.place plan.now x)
        ++ spec.over (register_of 5 (whole.place plan.now x)) (length code.old.items - since))) }
{
    let at = place(plan, x);
    let count = (code.len() - since) as u32;
    over(register_of(Reg::T0, at), count, code)?;
    from_slot(Reg::T0, at, code)
}

// A jump over all that was put since the code had a length.
fn leave(since: usize, code: &mut Vec<Instr>) -> Result<(), NoMemory>
    requires before { since ≤ length code.old.items }
    requires short { length code.old.items ≤ 260000 }
    ensures counted { OnOk result (length code.new.items ≡ length code.old.items + 1) }
    ensures words { OnOk result (Puts code.old.items code.new.items (spec.jump (length code.old.items - since + 1) ∷ [])) }
{
    let count = (code.len() - since) as u32;
    put(code, jump(count + 1))
}

// The instruction that was put when the code had a length becomes a jump back to the first.
fn turn_back(last: usize, code: &mut Vec<Instr>)
    requires known { last < length code.old.items }
    requires short { length code.old.items ≤ 260000 }
    ensures counted { length code.new.items ≡ length code.old.items }
    ensures words { map word_of code.new.items
        ≡ slice_set (map word_of code.old.items) last (word_of (spec.jump_back (length code.old.items - last - 1))) }
{
    let count = (code.len() - last - 1) as u32;
    code[last] = jump_back(count);
}

// For the proof alone: a statement keeps what is asked of all of them.
fn keeps(
    plan: &Plan,
    offsets: &[u64],
    cs: &[FStmt],
    i: usize,
    c: &FStmt,
    start: usize,
    code: &Vec<Instr>,
)
    requires whole { all_whole (length plan.now.places) (length offsets.now) cs.now ≡ true }
    requires some { 0 < i }
    requires within { i ≤ length cs.now }
    requires same { c.now ≡ slice_index_or cs.now (i - 1) c.now }
    requires counted { length code.now.items ≤ start + code_weight Weights.LARGE (drop i cs.now) }
    requires room { start + code_weight Weights.LARGE cs.now ≤ 259000 }
    ensures whole { is_whole (length plan.now.places) (length offsets.now) c.now ≡ true }
    ensures room { length code.now.items + stmt_weight Weights.LARGE c.now ≤ 259000 }
{}

// The code of a statement.
#[cycle(emission)]
fn statement(plan: &Plan, offsets: &[u64], c: &FStmt, code: &mut Vec<Instr>) -> Result<(), NoMemory>
    requires plan { IsPlan plan.now }
    requires whole { is_whole (length plan.now.places) (length offsets.now) c.now ≡ true }
    requires room { length code.old.items + stmt_weight Weights.LARGE c.now ≤ 259000 }
    ensures counted { OnOk result (length code.new.items ≤ length code.old.items + stmt_weight Weights.LARGE c.now) }
    ensures fit { OnOk result (fits c.now ≡ true) }
    ensures words { OnOk result (Puts code.old.items code.new.items
        (stmt_code (whole.place plan.now) (offset_of offsets.now) c.now (length code.old.items))) }
{
    match c {
        FStmt::Lit(x, value) => set(plan, *x, *value, code),
        FStmt::Copy(x, y) => copy(plan, *x, *y, code),
        FStmt::Bin(op, x, y, z) => bin(plan, *op, *x, *y, *z, code),
        FStmt::Load(size, x, y) => load(plan, *size, *x, *y, code),
        FStmt::Table(size, x, k, y) => look_up(plan, offsets, *size, *x, *k, *y, code),
        FStmt::Store(size, x, y) => store(plan, *size, *x, *y, code),
        FStmt::If(x, a, b) => {
            let end = code.len();
            block(plan, offsets, b.as_slice(), code)?;
            let join = code.len();
            leave(end, code)?;
            block(plan, offsets, a.as_slice(), code)?;
            test(plan, *x, join, code)
        }
        FStmt::While(a, x, b) => {
            let last = code.len();
            // its distance is known once what stands before the test is there
            put(code, jump_back(0))?;
            block(plan, offsets, b.as_slice(), code)?;
            test(plan, *x, last, code)?;
            block(plan, offsets, a.as_slice(), code)?;
            turn_back(last, code);
            Ok(())
        }
    }
}

/// Puts the code of statements before the code that is there.
#[cycle(emission)]
pub fn block(
    plan: &Plan,
    offsets: &[u64],
    cs: &[FStmt],
    code: &mut Vec<Instr>,
) -> Result<(), NoMemory>
    requires plan { IsPlan plan.now }
    requires whole { all_whole (length plan.now.places) (length offsets.now) cs.now ≡ true }
    requires room { length code.old.items + code_weight Weights.LARGE cs.now ≤ 259000 }
    ensures counted { OnOk result (length code.new.items ≤ length code.old.items + code_weight Weights.LARGE cs.now) }
    ensures fit { OnOk result (all_fit cs.now ≡ true) }
    ensures words { OnOk result (Puts code.old.items code.new.items
        (block_code (whole.place plan.now) (offset_of offsets.now) cs.now (length code.old.items))) }
{
    let start = code.len();
    let mut i = cs.len();
    while i > 0 {
        let c = &cs[i - 1];
        keeps(plan, offsets, cs, i, c, start, code);
        statement(plan, offsets, c, code)?;
        i -= 1;
    }
    Ok(())
}
