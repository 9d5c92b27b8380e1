//! What a derivation gives for notes, and for the statements that have no block.
ghost use Rattle.std.specs.Prelude.{◌≡◌, ◌+◌, ◌≤◌, false, map, OnOk};
ghost use Rattle.rup_base.specs.Answers.{AnswersWith};
ghost use Rattle.model_syntax.specs.declared.stmt.Stmt.{out-Stmt};
ghost use Rattle.expr_rules.specs.Words as words;
ghost use Rattle.expr_rules.specs.Row as expr;
ghost use Rattle.stmt_rules.specs.Row as spec;
ghost use Rattle.stmt_rules.specs.Simple as simple;

use crate::args::first_local;
use crate::kids::{kind_of, one_kid, two_kids};
use crate::loops::{ElementLocals, FoldLocals};
use crate::output::{StmtOut, code_of};
use crate::rules::{binding, folding, mapping, moving, note, put};
use crate::shape::{no_block, no_parts, note_counts};
use deriv_tree::{Block, ExprNode, Step, StmtNode};
use equations::Book;
use expr_rules::words::{counted, need, no_instance};
use model_syntax::{Expr, Scalar, Stmt};
use rup_base::{Fail, Name};
use sym_heap::{Clause, Ctx, Mark};

/// What a note's node gives, where `next` is its number, and afterwards that of the node that follows.
pub fn noted<B: Book>(
    ctx: &mut Ctx,
    next: &mut u32,
    node: &StmtNode,
    book: &B,
) -> Result<StmtOut, Fail>
    requires { next.old + (spec.judged (B.turn book.now) node.now).size ≤ 20_000 }
    ensures row { AnswersWith result ctx.new ((spec.judged (B.turn book.now) node.now).as_note next.old ctx.old) }
    ensures counted { OnOk result (next.new ≡ next.old + (spec.judged (B.turn book.now) node.now).size) }
{
    let _ = book;
    let at = *next;
    *next += 1;
    let step = &node.step;
    no_parts(node.kids.as_slice(), node.blocks.as_slice(), at)?;
    need(note_counts(step), at, 2)?;
    note::row(ctx, at, step.args.as_slice(), step.certs.as_slice())
}

/// What a rule gives that is for a statement without blocks, of the node with the number `at`.
pub fn parts<B: Book>(
    ctx: &mut Ctx,
    next: &mut u32,
    at: u32,
    step: &Step,
    kids: &[ExprNode],
    blocks: &[Block],
    s: &Stmt,
    book: &B,
) -> Result<StmtOut, Fail>
    requires plain { simple.has_blocks (out-Stmt s.now) ≡ false }
    requires numbered { next.old ≡ at + 1 }
    requires small { next.old + words.sizes (map (expr.judged (B.turn book.now)) kids.now) ≤ 20_000 }
    ensures row { AnswersWith result ctx.new
        (spec.parts step.now (map (expr.judged (B.turn book.now)) kids.now) (map (spec.block_judged (B.turn book.now)) blocks.now)
        at (out-Stmt s.now) ctx.old) }
    ensures counted { OnOk result (next.new ≡ next.old + words.sizes (map (expr.judged (B.turn book.now)) kids.now)
        + spec.block_sizes (map (spec.block_judged (B.turn book.now)) blocks.now)) }
{
    no_block(blocks, at)?;
    by_statement(ctx, next, at, step, kids, s, book)
}

/// The same, of a node that has no blocks.
fn by_statement<B: Book>(
    ctx: &mut Ctx,
    next: &mut u32,
    at: u32,
    step: &Step,
    kids: &[ExprNode],
    s: &Stmt,
    book: &B,
) -> Result<StmtOut, Fail>
    requires numbered { next.old ≡ at + 1 }
    requires small { next.old + words.sizes (map (expr.judged (B.turn book.now)) kids.now) ≤ 20_000 }
    ensures row { AnswersWith result ctx.new
        (simple.simple step.now (map (expr.judged (B.turn book.now)) kids.now) at (out-Stmt s.now) ctx.old) }
    ensures counted { OnOk result (next.new ≡ next.old + words.sizes (map (expr.judged (B.turn book.now)) kids.now)) }
{
    match s {
        Stmt::Let(x, a) => bind(ctx, next, at, step, kids, x, a, book),
        Stmt::Put(a, i, v) => store(ctx, next, at, step, kids, a, i, v, book),
        Stmt::Move(b, a, i, v) => store_moved(ctx, next, at, step, kids, b, a, i, v, book),
        Stmt::If(_, _, _, _, _) => Err(no_instance(at, 1)),
        Stmt::For(_, _, _, _, _, _) => Err(no_instance(at, 1)),
        Stmt::Map(a, x, v) => map_each(ctx, next, at, step, kids, a, x, v, book),
        Stmt::Fold(t, a, x, v) => fold(ctx, next, at, step, kids, t, a, x, v, book),
    }
}

/// The name gets the value of the kid, of the node with the number `at`.
fn bind<B: Book>(
    ctx: &mut Ctx,
    next: &mut u32,
    at: u32,
    step: &Step,
    kids: &[ExprNode],
    x: &Name,
    a: &Expr,
    book: &B,
) -> Result<StmtOut, Fail>
    requires numbered { next.old ≡ at + 1 }
    requires small { next.old + words.sizes (map (expr.judged (B.turn book.now)) kids.now) ≤ 20_000 }
    ensures row { AnswersWith result ctx.new
        (spec.binding step.now (map (expr.judged (B.turn book.now)) kids.now) at x.now a.now ctx.old) }
    ensures counted { OnOk result (next.new ≡ next.old + words.sizes (map (expr.judged (B.turn book.now)) kids.now)) }
{
    counted(step, 1, 0, at)?;
    let Some(local) = first_local(step.args.as_slice()) else {
        return Err(no_instance(at, 3));
    };
    let p = one_kid(ctx, next, at, kids, a, book)?;
    let Some(kind) = kind_of(ctx, a) else {
        return Err(no_instance(at, 1));
    };
    binding::after(ctx, at, x, local, kind, p)
}

/// The element of an index gets a value, of the node with the number `at`.
fn store<B: Book>(
    ctx: &mut Ctx,
    next: &mut u32,
    at: u32,
    step: &Step,
    kids: &[ExprNode],
    a: &Name,
    i: &Expr,
    v: &Expr,
    book: &B,
) -> Result<StmtOut, Fail>
    requires numbered { next.old ≡ at + 1 }
    requires small { next.old + words.sizes (map (expr.judged (B.turn book.now)) kids.now) ≤ 20_000 }
    ensures row { AnswersWith result ctx.new
        (spec.putting step.now (map (expr.judged (B.turn book.now)) kids.now) at a.now i.now v.now ctx.old) }
    ensures counted { OnOk result (next.new ≡ next.old + words.sizes (map (expr.judged (B.turn book.now)) kids.now)) }
{
    counted(step, 0, 1, at)?;
    put::before(ctx, at, a)?;
    let (p, q) = two_kids(ctx, next, at, kids, i, v, book)?;
    put::after(ctx, at, step.certs.as_slice(), a, p, q)
}

/// The same, where the array goes on under the name `b`.
fn store_moved<B: Book>(
    ctx: &mut Ctx,
    next: &mut u32,
    at: u32,
    step: &Step,
    kids: &[ExprNode],
    b: &Name,
    a: &Name,
    i: &Expr,
    v: &Expr,
    book: &B,
) -> Result<StmtOut, Fail>
    requires numbered { next.old ≡ at + 1 }
    requires small { next.old + words.sizes (map (expr.judged (B.turn book.now)) kids.now) ≤ 20_000 }
    ensures row { AnswersWith result ctx.new
        (spec.moving step.now (map (expr.judged (B.turn book.now)) kids.now) at b.now a.now i.now v.now ctx.old) }
    ensures counted { OnOk result (next.new ≡ next.old + words.sizes (map (expr.judged (B.turn book.now)) kids.now)) }
{
    counted(step, 0, 1, at)?;
    moving::before(ctx, at, a, b)?;
    let (p, q) = two_kids(ctx, next, at, kids, i, v, book)?;
    moving::after(ctx, at, step.certs.as_slice(), a, b, p, q)
}

/// Each element of the array gets the value of the kid, of the node with the number `at`.
fn map_each<B: Book>(
    ctx: &mut Ctx,
    next: &mut u32,
    at: u32,
    step: &Step,
    kids: &[ExprNode],
    a: &Name,
    x: &Name,
    v: &Expr,
    book: &B,
) -> Result<StmtOut, Fail>
    requires numbered { next.old ≡ at + 1 }
    requires small { next.old + words.sizes (map (expr.judged (B.turn book.now)) kids.now) ≤ 20_000 }
    ensures row { AnswersWith result ctx.new
        (spec.mapping step.now (map (expr.judged (B.turn book.now)) kids.now) at a.now x.now v.now ctx.old) }
    ensures counted { OnOk result (next.new ≡ next.old + words.sizes (map (expr.judged (B.turn book.now)) kids.now)) }
{
    counted(step, 3, 0, at)?;
    let l = mapping::locals(ctx, at, step.args.as_slice())?;
    let clause = mapping::array(ctx, at, a, l)?;
    map_begun(ctx, next, at, kids, a, x, v, l, clause, book)
}

/// The same, once the array is found.
fn map_begun<B: Book>(
    ctx: &mut Ctx,
    next: &mut u32,
    at: u32,
    kids: &[ExprNode],
    a: &Name,
    x: &Name,
    v: &Expr,
    l: ElementLocals,
    clause: Clause,
    book: &B,
) -> Result<StmtOut, Fail>
    requires numbered { next.old ≡ at + 1 }
    requires small { next.old + words.sizes (map (expr.judged (B.turn book.now)) kids.now) ≤ 20_000 }
    ensures row { AnswersWith result ctx.new
        (simple.map_begun at a.now x.now l clause (words.one_kid (map (expr.judged (B.turn book.now)) kids.now) at v.now) ctx.old) }
    ensures counted { OnOk result (next.new ≡ next.old + words.sizes (map (expr.judged (B.turn book.now)) kids.now)) }
{
    let before = ctx.mark()?;
    mapping::begins(ctx, at, a, x, l, &clause)?;
    mapped(ctx, next, at, kids, a, v, l, clause, before, book)
}

/// The same, from the kid on.
fn mapped<B: Book>(
    ctx: &mut Ctx,
    next: &mut u32,
    at: u32,
    kids: &[ExprNode],
    a: &Name,
    v: &Expr,
    l: ElementLocals,
    clause: Clause,
    before: Mark,
    book: &B,
) -> Result<StmtOut, Fail>
    requires numbered { next.old ≡ at + 1 }
    requires small { next.old + words.sizes (map (expr.judged (B.turn book.now)) kids.now) ≤ 20_000 }
    ensures row { AnswersWith result ctx.new
        (simple.mapped at a.now l clause before (words.one_kid (map (expr.judged (B.turn book.now)) kids.now) at v.now) ctx.old) }
    ensures counted { OnOk result (next.new ≡ next.old + words.sizes (map (expr.judged (B.turn book.now)) kids.now)) }
{
    let p = one_kid(ctx, next, at, kids, v, book)?;
    mapping::after(ctx, at, a, l, clause, before, code_of(p))
}

/// The scalar `t` gets the value of the kid for each element of the array, of the node with the number `at`.
fn fold<B: Book>(
    ctx: &mut Ctx,
    next: &mut u32,
    at: u32,
    step: &Step,
    kids: &[ExprNode],
    t: &Name,
    a: &Name,
    x: &Name,
    v: &Expr,
    book: &B,
) -> Result<StmtOut, Fail>
    requires numbered { next.old ≡ at + 1 }
    requires small { next.old + words.sizes (map (expr.judged (B.turn book.now)) kids.now) ≤ 20_000 }
    ensures row { AnswersWith result ctx.new
        (spec.folding step.now (map (expr.judged (B.turn book.now)) kids.now) at t.now a.now x.now v.now ctx.old) }
    ensures counted { OnOk result (next.new ≡ next.old + words.sizes (map (expr.judged (B.turn book.now)) kids.now)) }
{
    counted(step, 4, 0, at)?;
    let l = folding::locals(ctx, at, step.args.as_slice())?;
    let clause = folding::array(ctx, at, t, a, l)?;
    let first = folding::start(ctx, at, t)?;
    fold_begun(ctx, next, at, kids, t, x, v, l, clause, first, book)
}

/// The same, once the array and the scalar's local and type are found.
fn fold_begun<B: Book>(
    ctx: &mut Ctx,
    next: &mut u32,
    at: u32,
    kids: &[ExprNode],
    t: &Name,
    x: &Name,
    v: &Expr,
    l: FoldLocals,
    clause: Clause,
    first: (u32, Scalar),
    book: &B,
) -> Result<StmtOut, Fail>
    requires numbered { next.old ≡ at + 1 }
    requires small { next.old + words.sizes (map (expr.judged (B.turn book.now)) kids.now) ≤ 20_000 }
    ensures row { AnswersWith result ctx.new
        (simple.fold_begun at t.now x.now l clause first (words.one_kid (map (expr.judged (B.turn book.now)) kids.now) at v.now)
        ctx.old) }
    ensures counted { OnOk result (next.new ≡ next.old + words.sizes (map (expr.judged (B.turn book.now)) kids.now)) }
{
    let before = ctx.mark()?;
    folding::begins(ctx, at, t, x, l, &clause, first.1)?;
    folded(ctx, next, at, kids, t, v, l, clause, first, before, book)
}

/// The same, from the kid on.
fn folded<B: Book>(
    ctx: &mut Ctx,
    next: &mut u32,
    at: u32,
    kids: &[ExprNode],
    t: &Name,
    v: &Expr,
    l: FoldLocals,
    clause: Clause,
    first: (u32, Scalar),
    before: Mark,
    book: &B,
) -> Result<StmtOut, Fail>
    requires numbered { next.old ≡ at + 1 }
    requires small { next.old + words.sizes (map (expr.judged (B.turn book.now)) kids.now) ≤ 20_000 }
    ensures row { AnswersWith result ctx.new
        (simple.folded at t.now l clause first before (words.one_kid (map (expr.judged (B.turn book.now)) kids.now) at v.now)
        ctx.old) }
    ensures counted { OnOk result (next.new ≡ next.old + words.sizes (map (expr.judged (B.turn book.now)) kids.now)) }
{
    let p = one_kid(ctx, next, at, kids, v, book)?;
    folding::after(ctx, at, t, l, clause, first, before, code_of(p))
}
