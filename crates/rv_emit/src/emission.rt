//! The whole code.
ghost use Rattle.std.specs.Prelude.{◌≡◌, [], ◌∷◌, ◌++◌, ◌+◌, ◌-◌, ◌*◌, ◌%◌, ◌<◌, ◌≤◌, All, OnOk, IfOk, length, map, sum, true};
ghost use Rattle.bed_syntax.specs.Named.{Name};
ghost use Rattle.flat_lang.specs.Count.{code_weight, code_names};
ghost use Rattle.flat_lang.specs.Whole.{IsWhole};
ghost use Rattle.reg_alloc.specs.PlanOk.{PlanOk};
ghost use Rattle.rv_code.specs.Word.{word_of};
ghost use Rattle.rv_emit.specs.Branching.{jumps_in, code_jumps};
ghost use Rattle.rv_emit.specs.Emission.{IsPlan, Puts};
ghost use Rattle.rv_emit.specs.Fit.{all_fit};
ghost use Rattle.rv_emit.specs.Names.{named_in};
ghost use Rattle.rv_emit.specs.Returns.{RunsAs};
ghost use Rattle.rv_emit.specs.Tables.{text_of, AreAligned};
ghost use Rattle.rv_emit.specs.Whole as whole;
ghost use Rattle.rv_emit.specs.Whole.{stack_of, code_of};

use crate::frame::{bring_back, keep, move_in, move_out, saved_in, slots_in};
use crate::instructions::{go_back, move_sp, put};
use crate::statements::block;
use crate::tables::{TableText, table_text};
use bed_syntax::Weights;
use flat_lang::Flat;
use reg_alloc::{Plan, live_arguments};
use rup_base::{List, NoMemory, Text};
use rv_code::Instr;
use std::alloc::Global;

/// Code that can be called, and the text of its tables, which stands directly behind it.
#[derive(Drop)]
pub struct Emitted {
    pub code: List<Instr>,
    pub tables: Text,
    /// The bytes below the stack pointer that the code uses, a multiple of 16.
    pub stack: u32,
}

/// The frame: the words that hold variables, the registers that are kept in the words behind, and the bytes of all.
#[derive(Drop)]
struct Frame {
    slots: u32,
    saved: List<u32>,
    stack: u32,
}

fn frame_of(alloc: Global, p: &Plan) -> Result<Frame, NoMemory>
    requires plan { IsPlan p.now }
    ensures slots { IfOk result (λ frame. frame.slots ≡ whole.slots_in p.now.places) }
    ensures saved { IfOk result (λ frame. frame.saved ≡ whole.saved_in p.now.places) }
    ensures stack { IfOk result (λ frame. frame.stack ≡ stack_of p.now.places) }
{
    let slots = slots_in(p);
    let saved = saved_in(alloc, p.places.as_slice())?;
    let stack = (4 * (slots + saved.len() as u32) + 15) / 16 * 16;
    Ok(Frame {
        slots,
        saved,
        stack,
    })
}

// The end of the code, from where the body has ended.
fn leave(p: &Plan, rets: &[u32], frame: &Frame, code: &mut Vec<Instr>) -> Result<(), NoMemory>
    requires plan { IsPlan p.now }
    requires few { length rets.now ≤ 2 }
    requires known { All (λ x. x < length p.now.places) rets.now }
    requires slots { frame.now.slots ≡ whole.slots_in p.now.places }
    requires saved { frame.now.saved ≡ whole.saved_in p.now.places }
    requires stack { frame.now.stack ≡ stack_of p.now.places }
    ensures counted { OnOk result (length code.new.items ≤ length code.old.items + 16) }
    ensures some { OnOk result (1 ≤ length code.new.items) }
    ensures words { OnOk result (Puts code.old.items code.new.items (whole.leaving p.now rets.now)) }
{
    put(code, go_back())?;
    put(code, move_sp(frame.stack))?;
    bring_back(frame.slots, frame.saved.as_slice(), code)?;
    move_out(p, rets, code)
}

// The start of the code, up to the body.
fn enter(p: &Plan, live: &[u32], frame: &Frame, code: &mut Vec<Instr>) -> Result<(), NoMemory>
    requires plan { IsPlan p.now }
    requires short { length live.now ≤ 8 }
    requires few { All (λ x. x < 8) live.now }
    requires known { All (λ x. x < length p.now.places) live.now }
    requires slots { frame.now.slots ≡ whole.slots_in p.now.places }
    requires saved { frame.now.saved ≡ whole.saved_in p.now.places }
    requires stack { frame.now.stack ≡ stack_of p.now.places }
    ensures counted { OnOk result (length code.new.items ≤ length code.old.items + 21) }
    ensures words { OnOk result (Puts code.old.items code.new.items (whole.entering p.now live.now)) }
{
    move_in(p, live, code)?;
    keep(frame.slots, frame.saved.as_slice(), code)?;
    put(code, move_sp((4096 - frame.stack) % 4096))
}

// The code and the tables, in full.
fn assemble(alloc: Global, f: &Flat, p: &Plan) -> Result<Emitted, NoMemory>
    requires whole { IsWhole f.now }
    requires plan { IsPlan p.now }
    requires places { length p.now.places ≡ f.now.vars }
    requires light { code_weight Weights.LARGE f.now.body ≤ 250000 }
    ensures code { IfOk result (λ e. map word_of e.code ≡ map word_of (code_of f.now p.now)) }
    ensures counted { IfOk result (λ e. length e.code ≤ code_weight Weights.LARGE f.now.body + 48) }
    ensures some { IfOk result (λ e. 1 ≤ length e.code) }
    ensures tables { IfOk result (λ e. e.tables ≡ text_of f.now.tables) }
    ensures stack { IfOk result (λ e. e.stack ≡ stack_of p.now.places) }
    ensures fit { IfOk result (λ e. all_fit f.now.body ≡ true) }
{
    let TableText { text, offsets } = table_text(alloc, f.tables.as_slice())?;
    let frame = frame_of(alloc, p)?;
    let live = live_arguments(alloc, f)?;
    let mut code = Vec::new(alloc);
    leave(p, f.rets.as_slice(), &frame, &mut code)?;
    block(p, offsets.as_slice(), f.body.as_slice(), &mut code)?;
    enter(p, live.as_slice(), &frame, &mut code)?;
    code.reverse();
    Ok(Emitted {
        code: List::from_vec(code),
        tables: text,
        stack: frame.stack,
    })
}

/// The code of three-address code whose variables have the places of a plan that serves it.
pub fn emit(alloc: Global, f: &Flat, p: &Plan) -> Result<Emitted, NoMemory>
    requires whole { IsWhole f.now }
    requires plan { PlanOk f.now p.now }
    requires few { f.now.vars ≤ 400 }
    requires light { code_weight Weights.LARGE f.now.body ≤ 250000 }

    // Called from a ready state, it returns with the results of the three-address code.
    ensures runs { IfOk result (λ e. RunsAs Weights.LARGE f.now (map word_of e.code) e.tables e.stack) }
    ensures some { IfOk result (λ e. 1 ≤ length e.code) }
    ensures counted { IfOk result (λ e. length e.code ≤ code_weight Weights.LARGE f.now.body + 48) }
    ensures stack_aligned { IfOk result (λ e. e.stack % 16 ≡ 0) }
    ensures stack_small { IfOk result (λ e. e.stack ≤ 4096) }

    // Each table begins at a multiple of 4.
    ensures tables { IfOk result (λ e. e.tables ≡ text_of f.now.tables) }
    ensures tables_aligned { IfOk result (λ e. AreAligned f.now.tables e.tables) }
    ensures tables_small { IfOk result (λ e. length e.tables ≤ sum (map length f.now.tables) + 3 * length f.now.tables) }

    // The operations that are known by their instructions are those of the three-address code, in its order.
    ensures names { IfOk result (λ e. named_in e.code ≡ code_names f.now.body) }

    // Two branches or jumps for each conditional and loop, one more where a side or body is far too heavy, and the return.
    ensures jumps { IfOk result (λ e. jumps_in e.code ≤ 1 + code_jumps f.now.body) }
{
    assemble(alloc, f, p)
}
