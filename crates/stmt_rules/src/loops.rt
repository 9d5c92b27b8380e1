//! What the rules of loops share: their arguments, and the commands around a loop's body. A loop counts in one local from a
//! least number on, as long as that is below the number in another.
ghost use Rattle.std.specs.Prelude.{◌≡◌, [], ◌∷◌, ◌++◌, true, IfOk};
ghost use Rattle.std.specs.List.{list_all};
ghost use Rattle.rup_base.specs.Answers.{Answers, AnswersWith};
ghost use Rattle.model_syntax.specs.Names.{listed};
ghost use Rattle.sym_heap.specs.Sides as sides;
ghost use Rattle.bed_syntax.specs.declared.command.Cmd.{roll-Cmd};
ghost use Rattle.bed_syntax.specs.declared.command.Cmd.TheOpen as cmd;
ghost use Rattle.expr_rules.specs.Words as words;
ghost use Rattle.expr_rules.specs.rules.Len as len;
ghost use Rattle.model_syntax.specs.Linear.{is_narrow};
ghost use Rattle.stmt_rules.specs.Narrow.{all_narrow};
ghost use Rattle.stmt_rules.specs.Nesting as nesting;
ghost use Rattle.stmt_rules.specs.Loops as spec;

use crate::args::{first_local, flat};
use crate::nesting::kept_fact;
use crate::output::{StmtOut, more, one_form};
use bed_syntax::{BExpr, BOp, Cmd};
use expr_rules::elements::{address, size_of};
use expr_rules::words::{made, no_instance, number_in, operation};
use model_syntax::{Le, Lin, Scalar};
use rup_base::{Box, Fail, List, Name, NoMemory};
use side_certs::Form;
use std::alloc::Global;
use sym_heap::{Clause, Ctx};

/// The locals and the trip form of a loop from one number to another.
#[derive(Debug, Drop)]
pub struct Counter {
    /// the local of the count
    pub count: u32,
    /// that of the number at which it ends
    pub last: u32,
    pub trips: Form,
}

/// The locals of a loop over the elements of an array.
#[derive(Clone, Copy, Debug)]
pub struct ElementLocals {
    /// the local of the count
    pub count: u32,
    /// that of the number at which it ends
    pub last: u32,
    pub element: u32,
}

/// The locals of a fold.
#[derive(Clone, Copy, Debug)]
pub struct FoldLocals {
    pub turn: ElementLocals,
    /// the local of the scalar
    pub so_far: u32,
}

/// The local that is the argument of this place.
pub fn local_arg(at: u32, args: &[i64], place: usize) -> Result<u32, Fail>
    ensures { Answers result (words.there (spec.local_arg place args.now) at 3) }
{
    match local_at(args, place) {
        Some(local) => Ok(local),
        None => Err(no_instance(at, 3)),
    }
}

fn local_at(args: &[i64], place: usize) -> Option<u32>
    ensures { result ≡ spec.local_arg place args.now }
{
    if place <= args.len() {
        first_local(&args[place..])
    } else {
        None
    }
}

/// A trip form as arguments.
pub fn trip_form(ctx: &Ctx, at: u32, args: &[i64]) -> Result<Form, Fail>
    ensures { AnswersWith result ctx.now (spec.trip_form at args.now ctx.now) }
{
    let form = made(at, flat(args))?;
    if is_entry_form(ctx.entries(), &form) {
        Ok(form)
    } else {
        Err(no_instance(at, 3))
    }
}

/// No number is negative, and only entry symbols occur.
pub fn is_entry_form(entries: u32, form: &Form) -> bool
    ensures { result ≡ spec.is_entry_form entries form.now }
{
    0 <= form.constant_part() && are_entry_terms(entries, form)
}

fn are_entry_terms(entries: u32, form: &Form) -> bool
    ensures { result ≡ list_all (spec.is_entry_term entries) form.now.terms }
{
    let mut k = 0;
    'terms: while k < form.terms() {
        if !is_entry_term(entries, form.term_at(k)) {
            return false;
        }
        k += 1;
    }
    true
}

fn is_entry_term(entries: u32, term: (u32, i64)) -> bool
    ensures { result ≡ spec.is_entry_term entries term }
{
    term.0 < entries && 0 <= term.1
}

/// The count is below the last number.
fn is_below(alloc: Global, count: u32, last: u32) -> Result<BExpr, NoMemory>
    ensures { IfOk result (λ code. code ≡ spec.is_below count last) }
{
    operation(alloc, BOp::Ltu, BExpr::Var(count), BExpr::Var(last))
}

/// One more in a local.
fn increased(alloc: Global, count: u32) -> Result<Cmd, NoMemory>
    ensures { IfOk result (λ command. command ≡ spec.increased count) }
{
    let more = operation(alloc, BOp::Add, BExpr::Var(count), BExpr::Lit(1))?;
    Ok(Cmd::Set(count, more))
}

/// The commands of a turn, and then the count.
fn turn_of(alloc: Global, count: u32, commands: List<Cmd>) -> Result<Cmd, NoMemory>
    ensures { IfOk result (λ command. command ≡ spec.turn_of count commands) }
{
    let mut all = commands;
    all.push(increased(alloc, count)?)?;
    Ok(Cmd::Seq(all))
}

/// From one number in the first local to another in the second, after other commands.
pub fn counting(
    alloc: Global,
    first: List<Cmd>,
    count: u32,
    last: u32,
    low: BExpr,
    high: BExpr,
    commands: List<Cmd>,
) -> Result<List<Cmd>, NoMemory>
    ensures { IfOk result (λ all. all ≡ first ++ spec.counting count last low high commands) }
{
    let started = both_set(first, count, last, low, high)?;
    let turns = turns_of(alloc, count, last, commands)?;
    more(started, turns)
}

/// The sets of both locals, after other commands.
fn both_set(
    first: List<Cmd>,
    count: u32,
    last: u32,
    low: BExpr,
    high: BExpr,
) -> Result<List<Cmd>, NoMemory>
    ensures { IfOk result (λ all. all ≡ first ++ roll-Cmd (cmd.Set count low) ∷ roll-Cmd (cmd.Set last high) ∷ []) }
{
    let all = more(first, Cmd::Set(count, low))?;
    more(all, Cmd::Set(last, high))
}

/// The turns, as long as the count is below the last number.
fn turns_of(alloc: Global, count: u32, last: u32, commands: List<Cmd>) -> Result<Cmd, NoMemory>
    ensures { IfOk result (λ turns. turns ≡ roll-Cmd (cmd.While (spec.is_below count last) (spec.turn_of count commands))) }
{
    let turn = Box::new(alloc, turn_of(alloc, count, commands)?)?;
    let test = is_below(alloc, count, last)?;
    Ok(Cmd::While(test, turn))
}

/// The commands of a loop over the elements of an array, whose trip form is its length.
pub fn with_length(alloc: Global, cmds: List<Cmd>, clause: Clause) -> Result<StmtOut, NoMemory>
    ensures { IfOk result (λ out. out ≡ record { cmds = cmds; trips = clause.length ∷ [] }) }
{
    let trips = one_form(alloc, clause.length)?;
    Ok(StmtOut { cmds, trips })
}

/// The number of elements of an array, or the local that has it.
pub fn length_code(at: u32, clause: &Clause) -> Result<BExpr, Fail>
    ensures { Answers result (words.there (len.code clause.now) at 4) }
{
    match code_of_length(clause) {
        Some(code) => Ok(code),
        None => Err(no_instance(at, 4)),
    }
}

fn code_of_length(clause: &Clause) -> Option<BExpr>
    ensures { result ≡ len.code clause.now }
{
    match clause.length_local {
        Some(local) => Some(BExpr::Var(local)),
        None => match number_in(0, u32::MAX, &clause.length) {
            Some(n) => Some(BExpr::Lit(n)),
            None => None,
        },
    }
}

/// The length mentions only entry symbols, as it does in every derivation.
pub fn has_trips(ctx: &Ctx, clause: &Clause) -> bool
    ensures { result ≡ spec.is_entry_form ctx.now.entries clause.now.length }
{
    is_entry_form(ctx.entries(), &clause.length)
}

/// The address of the element of the count.
pub fn place_of(alloc: Global, clause: &Clause, count: u32) -> Result<BExpr, NoMemory>
    ensures { IfOk result (λ code. code ≡ spec.place_of clause.now count) }
{
    address(alloc, clause, BExpr::Var(count))
}

/// The element of the count goes to a local.
pub fn loaded(alloc: Global, clause: &Clause, count: u32, local: u32) -> Result<Cmd, NoMemory>
    ensures { IfOk result (λ command. command ≡ spec.loaded clause.now count local) }
{
    let place = Box::new(alloc, place_of(alloc, clause, count)?)?;
    Ok(Cmd::Set(local, BExpr::Load(size_of(clause.size), place)))
}

/// The type of the elements of an array, which have one byte or four.
pub fn element_kind(clause: &Clause) -> Scalar
    ensures { result ≡ spec.element_kind clause.now }
{
    if clause.size == 1 {
        Scalar::Byte
    } else {
        Scalar::Word
    }
}

/// The name stands in the fact, also under a factor 0.
fn mentions(x: &Name, kept: &Le) -> bool
    ensures { result ≡ spec.mentions x.now kept.now }
{
    stands_in(x, &kept.low) || stands_in(x, &kept.high)
}

fn stands_in(x: &Name, side: &Lin) -> bool
    ensures { result ≡ listed x.now (sides.names side.now) }
{
    match side {
        Lin::Const(_) => false,
        Lin::Var(y) => x == y,
        Lin::Sum(p, q) => stands_in(x, p) || stands_in(x, q),
        Lin::Scale(_, p) => stands_in(x, p),
    }
}

/// Each fact that does not mention the name, with the forms that the scalars have, becomes one of the context.
#[tactic(auto, using(crate::proofs::Nested::narrow_here, crate::proofs::Nested::narrow_left, crate::proofs::Unmentioned::kept_but_on))]
pub fn all_kept_but(ctx: &mut Ctx, at: u32, x: &Name, facts: &[Le]) -> Result<(), Fail>
    requires { all_narrow facts.now ≡ true }
    ensures { AnswersWith result ctx.new (spec.all_kept_but at x.now facts.now ctx.old) }
{
    match facts {
        [] => Ok(()),
        [first, others @ ..] => {
            kept_unless(ctx, mentions(x, first), at, first)?;
            all_kept_but(ctx, at, x, others)
        }
    }
}

fn kept_unless(ctx: &mut Ctx, out: bool, at: u32, kept: &Le) -> Result<(), Fail>
    requires { is_narrow kept.now ≡ true }
    ensures { AnswersWith result ctx.new (spec.kept_unless out at kept.now ctx.old) }
{
    if out {
        Ok(())
    } else {
        kept_fact(ctx, at, kept)
    }
}

/// An equal clause.
pub fn copied(alloc: Global, clause: &Clause) -> Result<Clause, NoMemory>
    ensures { IfOk result (λ copy. copy ≡ clause.now) }
{
    Ok(Clause {
        name: clause.name.copy(alloc)?,
        param: clause.param,
        size: clause.size,
        pointer: clause.pointer,
        length: clause.length.copy(),
        length_local: clause.length_local,
        writes: clause.writes,
    })
}
