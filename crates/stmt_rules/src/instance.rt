//! What a derivation gives for statements: for blocks, and for the statements that have some.
ghost use Rattle.std.specs.Prelude.{◌≡◌, ◌+◌, ◌≤◌, true, length, map, OnOk};
ghost use Rattle.rup_base.specs.Word.{counted};
ghost use Rattle.rup_base.specs.Answers.{AnswersWith};
ghost use Rattle.model_syntax.specs.declared.stmt.Stmt.{out-Stmt};
ghost use Rattle.deriv_tree.specs.Measure.{block_size, stmt_size};
ghost use Rattle.expr_rules.specs.Words as words;
ghost use Rattle.expr_rules.specs.Row as expr;
ghost use Rattle.stmt_rules.specs.Narrow.{narrow, all_narrow, are_narrow};
ghost use Rattle.stmt_rules.specs.Row as spec;
ghost use Rattle.stmt_rules.specs.rules.For as for_rule;
ghost use Rattle.stmt_rules.specs.rules.If as if_rule;

use crate::kids::{one_kid, two_kids};
use crate::loops::Counter;
use crate::output::{StmtOut, code_of};
use crate::rules::{conditional, counting};
use crate::shape::{fits, for_counts, is_note, two_for_each};
use crate::simple;
use crate::simple::noted;
use deriv_tree::{Block, ExprNode, Step, StmtNode};
use equations::Book;
use expr_rules::ExprOut;
use expr_rules::words::{need, no_instance};
use model_syntax::{Expr, Le, Stmt};
use rup_base::{Fail, Name};
use side_certs::{Cert, Form};
use sym_heap::{Ctx, Mark};

/// The commands of a block by its derivation, and the trip forms of its loops. `at` is the number of its first node, `owner`
/// and `cond` the node and the condition of the fault where a statement has no node. A refusal has the node and the condition
/// of the first fault, or the node and the place of the first certificate that closes nothing.
pub fn block_instance<B: Book>(
    ctx: &mut Ctx,
    at: u32,
    owner: u32,
    cond: u32,
    stmts: &[Stmt],
    block: &Block,
    book: &B,
) -> Result<StmtOut, Fail>
    requires small { at + block_size block.now ≤ 20_000 }
    requires narrow { are_narrow stmts.now ≡ true }
    ensures { AnswersWith result ctx.new ((spec.block_judged (B.turn book.now) block.now).row at owner cond stmts.now ctx.old) }
{
    let mut next = at;
    walk(ctx, &mut next, owner, cond, stmts, block, book)
}

/// The same of one statement, whose node has the number `at`. A note is checked as one, and `s` is not looked at.
pub fn stmt_instance<B: Book>(
    ctx: &mut Ctx,
    at: u32,
    s: &Stmt,
    node: &StmtNode,
    book: &B,
) -> Result<StmtOut, Fail>
    requires small { at + stmt_size node.now ≤ 20_000 }
    requires narrow { narrow s.now ≡ true }
    ensures { AnswersWith result ctx.new (spec.handed (spec.judged (B.turn book.now) node.now) at s.now ctx.old) }
{
    let mut next = at;
    if is_note(node.step.rule) {
        noted(ctx, &mut next, node, book)
    } else {
        judge(ctx, &mut next, node, s, book)
    }
}

/// The nodes of a block in order, where `next` is the number of the first, and afterwards of the one that follows the last.
#[cycle(judge)]
fn walk<B: Book>(
    ctx: &mut Ctx,
    next: &mut u32,
    owner: u32,
    cond: u32,
    stmts: &[Stmt],
    block: &Block,
    book: &B,
) -> Result<StmtOut, Fail>
    requires small { next.old + (spec.block_judged (B.turn book.now) block.now).size ≤ 20_000 }
    requires narrow { are_narrow stmts.now ≡ true }
    ensures row { AnswersWith result ctx.new
        ((spec.block_judged (B.turn book.now) block.now).row next.old owner cond stmts.now ctx.old) }
    ensures counted { OnOk result (next.new ≡ next.old + (spec.block_judged (B.turn book.now) block.now).size) }
{
    let mut out = StmtOut::nothing(ctx.allocator());
    let mut left = stmts;
    let mut nodes = block.nodes.as_slice();
    'nodes: while let [node, rest @ ..] = nodes {
        if is_note(node.step.rule) {
            let given = noted(ctx, next, node, book)?;
            out = out.joined(given)?;
        } else {
            let [s, more @ ..] = left else {
                return Err(no_instance(*next, 1));
            };
            let given = judge(ctx, next, node, s, book)?;
            out = out.joined(given)?;
            left = more;
        }
        nodes = rest;
    }
    all_there(ctx, owner, cond, left, out)
}

/// Every statement has its node.
fn all_there(ctx: &Ctx, owner: u32, cond: u32, left: &[Stmt], out: StmtOut) -> Result<StmtOut, Fail>
    ensures { AnswersWith result ctx.now (spec.all_there owner cond left.now out ctx.now) }
{
    let _ = ctx;
    match left {
        [] => Ok(out),
        _ => Err(no_instance(owner, cond)),
    }
}

/// What a node gives for a statement, where `next` is its number, and afterwards that of the node that follows its last.
#[cycle(judge)]
fn judge<B: Book>(
    ctx: &mut Ctx,
    next: &mut u32,
    node: &StmtNode,
    s: &Stmt,
    book: &B,
) -> Result<StmtOut, Fail>
    requires small { next.old + (spec.judged (B.turn book.now) node.now).size ≤ 20_000 }
    requires narrow { narrow s.now ≡ true }
    ensures row { AnswersWith result ctx.new ((spec.judged (B.turn book.now) node.now).row next.old s.now ctx.old) }
    ensures counted { OnOk result (next.new ≡ next.old + (spec.judged (B.turn book.now) node.now).size) }
{
    let at = *next;
    *next += 1;
    let step = &node.step;
    let kids = node.kids.as_slice();
    let blocks = node.blocks.as_slice();
    need(fits(step.rule, s), at, 1)?;
    parts(ctx, next, at, step, kids, blocks, s, book)
}

/// What a rule that is for the statement gives, of the node with the number `at`.
#[cycle(judge)]
fn parts<B: Book>(
    ctx: &mut Ctx,
    next: &mut u32,
    at: u32,
    step: &Step,
    kids: &[ExprNode],
    blocks: &[Block],
    s: &Stmt,
    book: &B,
) -> Result<StmtOut, Fail>
    requires numbered { next.old ≡ at + 1 }
    requires small { next.old + words.sizes (map (expr.judged (B.turn book.now)) kids.now)
        + spec.block_sizes (map (spec.block_judged (B.turn book.now)) blocks.now) ≤ 20_000 }
    requires narrow { narrow s.now ≡ true }
    ensures row { AnswersWith result ctx.new
        (spec.parts step.now (map (expr.judged (B.turn book.now)) kids.now) (map (spec.block_judged (B.turn book.now)) blocks.now)
        at (out-Stmt s.now) ctx.old) }
    ensures counted { OnOk result (next.new ≡ next.old + words.sizes (map (expr.judged (B.turn book.now)) kids.now)
        + spec.block_sizes (map (spec.block_judged (B.turn book.now)) blocks.now)) }
{
    match s {
        Stmt::If(test, names, keep, first, second) => {
            let names = names.as_slice();
            let keep = keep.as_slice();
            let first = first.as_slice();
            let second = second.as_slice();
            branching(
                ctx, next, at, step, kids, blocks, test, names, keep, first, second, book,
            )
        }
        Stmt::For(x, low, high, names, keep, body) => {
            let names = names.as_slice();
            let keep = keep.as_slice();
            let body = body.as_slice();
            looping(
                ctx, next, at, step, kids, blocks, x, low, high, names, keep, body, book,
            )
        }
        _ => simple::parts(ctx, next, at, step, kids, blocks, s, book),
    }
}

/// A block runs for each number from one bound to another, of the node with the number `at`.
#[cycle(judge)]
fn looping<B: Book>(
    ctx: &mut Ctx,
    next: &mut u32,
    at: u32,
    step: &Step,
    kids: &[ExprNode],
    blocks: &[Block],
    x: &Name,
    low: &Expr,
    high: &Expr,
    names: &[Name],
    keep: &[Le],
    body: &[Stmt],
    book: &B,
) -> Result<StmtOut, Fail>
    requires numbered { next.old ≡ at + 1 }
    requires small { next.old + words.sizes (map (expr.judged (B.turn book.now)) kids.now)
        + spec.block_sizes (map (spec.block_judged (B.turn book.now)) blocks.now) ≤ 20_000 }
    requires facts { all_narrow keep.now ≡ true }
    requires bodies { are_narrow body.now ≡ true }
    ensures row { AnswersWith result ctx.new
        (spec.looping step.now (map (expr.judged (B.turn book.now)) kids.now)
        (map (spec.block_judged (B.turn book.now)) blocks.now) at x.now low.now high.now names.now keep.now body.now ctx.old) }
    ensures counted { OnOk result (next.new ≡ next.old + words.sizes (map (expr.judged (B.turn book.now)) kids.now)
        + spec.block_sizes (map (spec.block_judged (B.turn book.now)) blocks.now)) }
{
    let [block] = blocks else {
        return Err(no_instance(at, 1));
    };
    for_counts(step, keep, at)?;
    let k = counting::counter(ctx, at, step.args.as_slice())?;
    let (p, q) = two_kids(ctx, next, at, kids, low, high, book)?;
    let certs = step.certs.as_slice();
    turns(
        ctx, next, at, certs, x, names, keep, k, p, q, body, block, book,
    )
}

/// The turns of a loop, after its bounds, of the node with the number `at`.
#[cycle(judge)]
fn turns<B: Book>(
    ctx: &mut Ctx,
    next: &mut u32,
    at: u32,
    certs: &[Cert],
    x: &Name,
    names: &[Name],
    keep: &[Le],
    k: Counter,
    p: ExprOut,
    q: ExprOut,
    body: &[Stmt],
    block: &Block,
    book: &B,
) -> Result<StmtOut, Fail>
    requires small { next.old + (spec.block_judged (B.turn book.now) block.now).size ≤ 20_000 }
    requires many { 1 + length keep.now ≤ length certs.now }
    requires facts { all_narrow keep.now ≡ true }
    requires bodies { are_narrow body.now ≡ true }
    ensures row { AnswersWith result ctx.new
        (for_rule.after at x.now names.now keep.now certs.now k p q
        ((spec.block_judged (B.turn book.now) block.now).row next.old at 5 body.now) ctx.old) }
    ensures counted { OnOk result (next.new ≡ next.old + (spec.block_judged (B.turn book.now) block.now).size) }
{
    let marks = counting::opens(ctx, at, x, names, keep, certs, &k, &p.form, &q.form)?;
    let out = walk(ctx, next, at, 5, body, block, book)?;
    counting::finishes(
        ctx,
        at,
        x,
        names,
        keep,
        certs,
        k,
        code_of(p),
        code_of(q),
        marks,
        out,
    )
}

/// One of two blocks runs, by the test, of the node with the number `at`.
#[cycle(judge)]
fn branching<B: Book>(
    ctx: &mut Ctx,
    next: &mut u32,
    at: u32,
    step: &Step,
    kids: &[ExprNode],
    blocks: &[Block],
    test: &Expr,
    names: &[Name],
    keep: &[Le],
    first: &[Stmt],
    second: &[Stmt],
    book: &B,
) -> Result<StmtOut, Fail>
    requires numbered { next.old ≡ at + 1 }
    requires small { next.old + words.sizes (map (expr.judged (B.turn book.now)) kids.now)
        + spec.block_sizes (map (spec.block_judged (B.turn book.now)) blocks.now) ≤ 20_000 }
    requires facts { all_narrow keep.now ≡ true }
    requires firsts { are_narrow first.now ≡ true }
    requires seconds { are_narrow second.now ≡ true }
    ensures row { AnswersWith result ctx.new
        (spec.branching step.now (map (expr.judged (B.turn book.now)) kids.now)
        (map (spec.block_judged (B.turn book.now)) blocks.now) at test.now names.now keep.now first.now second.now ctx.old) }
    ensures counted { OnOk result (next.new ≡ next.old + words.sizes (map (expr.judged (B.turn book.now)) kids.now)
        + spec.block_sizes (map (spec.block_judged (B.turn book.now)) blocks.now)) }
{
    let [one, two] = blocks else {
        return Err(no_instance(at, 1));
    };
    two_for_each(step, keep, at)?;
    let p = one_kid(ctx, next, at, kids, test, book)?;
    let certs = step.certs.as_slice();
    sides(
        ctx, next, at, certs, names, keep, p, first, one, second, two, book,
    )
}

/// Both sides of a conditional, after its test, of the node with the number `at`.
#[cycle(judge)]
fn sides<B: Book>(
    ctx: &mut Ctx,
    next: &mut u32,
    at: u32,
    certs: &[Cert],
    names: &[Name],
    keep: &[Le],
    p: ExprOut,
    first: &[Stmt],
    one: &Block,
    second: &[Stmt],
    two: &Block,
    book: &B,
) -> Result<StmtOut, Fail>
    requires small { next.old + (spec.block_judged (B.turn book.now) one.now).size
        + (spec.block_judged (B.turn book.now) two.now).size ≤ 20_000 }
    requires many { length keep.now ≤ length certs.now }
    requires facts { all_narrow keep.now ≡ true }
    requires firsts { are_narrow first.now ≡ true }
    requires seconds { are_narrow second.now ≡ true }
    ensures row { AnswersWith result ctx.new
        (if_rule.after at names.now keep.now certs.now p
        ((spec.block_judged (B.turn book.now) one.now).row next.old at 4 first.now)
        ((spec.block_judged (B.turn book.now) two.now).row (next.old + (spec.block_judged (B.turn book.now) one.now).size) at 5
        second.now) ctx.old) }
    ensures counted { OnOk result (next.new ≡ next.old + (spec.block_judged (B.turn book.now) one.now).size
        + (spec.block_judged (B.turn book.now) two.now).size) }
{
    let yes = p.yes.as_slice();
    let one = side(
        ctx, next, at, 4, names, keep, 0, certs, yes, first, one, book,
    )?;
    let place = count_of(keep);
    let certs = &certs[keep.len()..];
    let no = p.no.as_slice();
    let two = side(
        ctx, next, at, 5, names, keep, place, certs, no, second, two, book,
    )?;
    conditional::met(ctx, at, names, keep, code_of(p), one, two)
}

/// How many facts there are.
fn count_of(keep: &[Le]) -> u32
    ensures { result ≡ counted (length keep.now) }
{
    keep.len().min(u32::MAX as usize) as u32
}

/// A side of a conditional, of the node with the number `at`: what its block gives, and what stands at its end.
#[cycle(judge)]
fn side<B: Book>(
    ctx: &mut Ctx,
    next: &mut u32,
    at: u32,
    cond: u32,
    names: &[Name],
    keep: &[Le],
    place: u32,
    certs: &[Cert],
    facts: &[Form],
    stmts: &[Stmt],
    block: &Block,
    book: &B,
) -> Result<(StmtOut, Mark), Fail>
    requires small { next.old + (spec.block_judged (B.turn book.now) block.now).size ≤ 20_000 }
    requires facts { all_narrow keep.now ≡ true }
    requires narrow { are_narrow stmts.now ≡ true }
    ensures row { AnswersWith result ctx.new
        (if_rule.side at names.now keep.now place certs.now facts.now
        ((spec.block_judged (B.turn book.now) block.now).row next.old at cond stmts.now) ctx.old) }
    ensures counted { OnOk result (next.new ≡ next.old + (spec.block_judged (B.turn book.now) block.now).size) }
{
    let before = ctx.mark()?;
    conditional::begins(ctx, at, names, facts, &before)?;
    let out = walk(ctx, next, at, cond, stmts, block, book)?;
    let end = conditional::ends(ctx, at, names, keep, place, certs, before)?;
    Ok((out, end))
}
