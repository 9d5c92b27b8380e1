//! The search over statements.
ghost use Rattle.std.specs.Prelude.{◌≡◌, ◌≤◌, [], ◌∷◌, pos, true, map, Some, IfOk, OnOk};
ghost use Rattle.rup_base.specs.Answers.{AnswersWith};
ghost use Rattle.deriv_tree.specs.declared.rule.Rule.TheVariants as rule;
ghost use Rattle.stmt_rules.specs.Narrow.{narrow, all_narrow, are_narrow};
ghost use Rattle.derive_search.specs.Branching as branching;
ghost use Rattle.derive_search.specs.Guide.{guided};
ghost use Rattle.derive_search.specs.Locals.{given};
ghost use Rattle.derive_search.specs.Nodes as nodes;
ghost use Rattle.derive_search.specs.Statements as spec;
ghost use Rattle.derive_search.specs.Turns as turns;

use crate::branching::{Side, begin_side, end_side, met};
use crate::folding::seek_fold;
use crate::found::Found;
use crate::guide::Guide;
use crate::locals::{Homes, choice};
use crate::mapping::seek_map;
use crate::nodes::{one, over, stuck_at};
use crate::notes::notes_before;
use crate::seek::seek;
use crate::seeker::Seeker;
use crate::turns::{LoopStart, begin_loop, end_loop};
use crate::writes::{seek_move, seek_put};
use deriv_tree::{ExprNode, Rule, Step, StmtNode};
use equations::Book;
use model_syntax::{Expr, Le, Stmt};
use rup_base::{Fail, List, Name, NoMemory};
use side_certs::Form;
use std::alloc::Global;
use stmt_rules::kind_of;
use sym_heap::Ctx;

/// The greatest number of nodes.
const MOST_NODES: u32 = 20_000;

/// The node of a binding.
fn let_node(alloc: Global, local: u32, kid: ExprNode) -> Result<StmtNode, NoMemory>
    ensures { IfOk result (λ node. node ≡ nodes.node rule.SLet (pos local ∷ []) [] (kid ∷ [])) }
{
    let args = one(alloc, i64::from(local))?;
    let step = Step {
        rule: Rule::SLet,
        args,
        certs: List::new(alloc),
    };
    Ok(StmtNode {
        step,
        kids: one(alloc, kid)?,
        blocks: List::new(alloc),
    })
}

/// The last step of a binding: the name gets the first local that it may take.
fn bind(
    ctx: &mut Ctx,
    homes: &Homes<'_>,
    at: u32,
    stmt: u32,
    x: &Name,
    a: &Expr,
    f: Found,
) -> Result<StmtNode, Fail>
    ensures { AnswersWith result ctx.new (spec.binding (given homes.now) at (nodes.stuck stmt) x.now a.now f ctx.old) }
{
    let _ = at;
    let Some(local) = choice(ctx, homes, x) else {
        return Err(stuck_at(stmt));
    };
    let Some(kind) = kind_of(ctx, a) else {
        return Err(stuck_at(stmt));
    };
    if !ctx.is_free(local, Some(x)) {
        return Err(stuck_at(stmt));
    }
    let Found { node: kid, out } = f;
    ctx.set_scalar(x, local, out.form, kind)?;
    Ok(let_node(ctx.allocator(), local, kid)?)
}

/// The goal of a binding, whose node has the number `at`.
fn seek_let<B: Book>(
    s: &mut Seeker,
    guide: &Guide<'_, '_, B>,
    deep: u32,
    at: u32,
    stmt: u32,
    x: &Name,
    a: &Expr,
) -> Result<StmtNode, Fail>
    requires { s.old.stmts ≤ s.old.entered }
    ensures found { AnswersWith result s.new (spec.seek_let (guided B.turn guide.now) deep at stmt x.now a.now s.old) }
    ensures fewer { OnOk result (s.new.stmts ≤ s.new.entered) }
{
    let f = seek(s, guide, deep, stmt, a)?;
    bind(&mut s.ctx, &guide.homes, at, stmt, x, a, f)
}

/// The goals of the bounds of a loop, and how its block begins.
fn open_loop<B: Book>(
    s: &mut Seeker,
    guide: &Guide<'_, '_, B>,
    deep: u32,
    at: u32,
    stmt: u32,
    x: &Name,
    low: &Expr,
    high: &Expr,
    names: &[Name],
    keep: &[Le],
) -> Result<((ExprNode, ExprNode), LoopStart), Fail>
    requires counted { s.old.stmts ≤ s.old.entered }
    requires facts { all_narrow keep.now ≡ true }
    ensures found { AnswersWith result s.new
        (turns.loop_opened (guided B.turn guide.now) deep at stmt x.now low.now high.now names.now keep.now s.old) }
    ensures fewer { OnOk result (s.new.stmts ≤ s.new.entered) }
{
    let entries = s.ctx.entries();
    let f = seek(s, guide, deep, stmt, low)?;
    let g = seek(s, guide, deep, stmt, high)?;
    let (first, last) = (&f.out.form, &g.out.form);
    let opened = begin_loop(
        &mut s.ctx,
        &guide.homes,
        entries,
        at,
        stmt,
        x,
        names,
        keep,
        first,
        last,
    )?;
    Ok(((f.node, g.node), opened))
}

/// The notes before a statement and its own goal, behind these nodes.
#[cycle(statements)]
#[tactic(auto, using(crate::proofs::Opened::stmt_noted))]
fn seek_stmt<B: Book>(
    s: &mut Seeker,
    guide: &Guide<'_, '_, B>,
    deep: u32,
    t: &Stmt,
    done: List<StmtNode>,
) -> Result<List<StmtNode>, Fail>
    requires counted { s.old.stmts ≤ s.old.entered }
    requires narrow { narrow t.now ≡ true }
    ensures found { AnswersWith result s.new (spec.seek_stmt (guided B.turn guide.now) deep t.now done s.old) }
    ensures fewer { OnOk result (s.new.stmts ≤ s.new.entered) }
{
    let noted = notes_before(s, guide.lemmas, t, done)?;
    own_node(s, guide, deep, t, noted)
}

/// The statement's own node behind those of its notes.
#[cycle(statements)]
fn own_node<B: Book>(
    s: &mut Seeker,
    guide: &Guide<'_, '_, B>,
    deep: u32,
    t: &Stmt,
    noted: List<StmtNode>,
) -> Result<List<StmtNode>, Fail>
    requires counted { s.old.stmts ≤ s.old.entered }
    requires narrow { narrow t.now ≡ true }
    ensures found { AnswersWith result s.new (spec.behind noted
        (spec.own_goal (guided B.turn guide.now) deep (spec.opened (guided B.turn guide.now) deep t.now)) s.old) }
    ensures fewer { OnOk result (s.new.stmts ≤ s.new.entered) }
{
    let node = own_goal(s, guide, deep, t)?;
    let mut nodes = noted;
    nodes.push(node)?;
    Ok(nodes)
}

/// The goal of a statement itself.
#[cycle(statements)]
fn own_goal<B: Book>(
    s: &mut Seeker,
    guide: &Guide<'_, '_, B>,
    deep: u32,
    t: &Stmt,
) -> Result<StmtNode, Fail>
    requires counted { s.old.stmts ≤ s.old.entered }
    requires narrow { narrow t.now ≡ true }
    ensures found { AnswersWith result s.new
        (spec.own_goal (guided B.turn guide.now) deep (spec.opened (guided B.turn guide.now) deep t.now) s.old) }
    ensures fewer { OnOk result (s.new.stmts ≤ s.new.entered) }
{
    let at = s.entered;
    if at >= MOST_NODES {
        return Err(over());
    }
    let stmt = s.stmts;
    s.entered += 1;
    s.stmts += 1;
    statement(s, guide, deep, at, stmt, t)
}

/// The goals of the statement's parts, and then its own row.
#[cycle(statements)]
fn statement<B: Book>(
    s: &mut Seeker,
    guide: &Guide<'_, '_, B>,
    deep: u32,
    at: u32,
    stmt: u32,
    t: &Stmt,
) -> Result<StmtNode, Fail>
    requires counted { s.old.stmts ≤ s.old.entered }
    requires narrow { narrow t.now ≡ true }
    ensures found { AnswersWith result s.new
        (spec.statement (guided B.turn guide.now) deep at stmt (spec.opened (guided B.turn guide.now) deep t.now) s.old) }
    ensures fewer { OnOk result (s.new.stmts ≤ s.new.entered) }
{
    match t {
        Stmt::Let(x, a) => seek_let(s, guide, deep, at, stmt, x, a),
        Stmt::Put(a, i, v) => seek_put(s, guide, deep, at, stmt, a, i, v),
        Stmt::Move(b, a, i, v) => seek_move(s, guide, deep, at, stmt, b, a, i, v),
        Stmt::If(test, names, keep, first, second) => {
            let names = names.as_slice();
            let keep = keep.as_slice();
            let first = first.as_slice();
            let second = second.as_slice();
            seek_if(s, guide, deep, at, stmt, test, names, keep, first, second)
        }
        Stmt::For(x, low, high, names, keep, body) => {
            let names = names.as_slice();
            let keep = keep.as_slice();
            let body = body.as_slice();
            seek_for(s, guide, deep, at, stmt, x, low, high, names, keep, body)
        }
        Stmt::Map(a, x, v) => seek_map(s, guide, deep, at, stmt, a, x, v),
        Stmt::Fold(t, a, x, v) => seek_fold(s, guide, deep, at, stmt, t, a, x, v),
    }
}

/// The goals of a conditional: its test, one side and then the other.
#[cycle(statements)]
fn seek_if<B: Book>(
    s: &mut Seeker,
    guide: &Guide<'_, '_, B>,
    deep: u32,
    at: u32,
    stmt: u32,
    test: &Expr,
    names: &[Name],
    keep: &[Le],
    first: &[Stmt],
    second: &[Stmt],
) -> Result<StmtNode, Fail>
    requires counted { s.old.stmts ≤ s.old.entered }
    requires facts { all_narrow keep.now ≡ true }
    requires firsts { are_narrow first.now ≡ true }
    requires seconds { are_narrow second.now ≡ true }
    ensures found { AnswersWith result s.new
        (branching.seek_if (guided B.turn guide.now) deep at stmt test.now names.now keep.now
        (map (spec.seek_stmt (guided B.turn guide.now) deep) first.now)
        (map (spec.seek_stmt (guided B.turn guide.now) deep) second.now) s.old) }
    ensures fewer { OnOk result (s.new.stmts ≤ s.new.entered) }
{
    let Found { node, out } = seek(s, guide, deep, stmt, test)?;
    let yes = out.yes.as_slice();
    let one = seek_side(s, guide, deep, at, stmt, names, keep, yes, first)?;
    let no = out.no.as_slice();
    let two = seek_side(s, guide, deep, at, stmt, names, keep, no, second)?;
    met(&mut s.ctx, at, stmt, names, keep, node, one, two)
}

/// The goals of a side, which begins with these facts.
#[cycle(statements)]
fn seek_side<B: Book>(
    s: &mut Seeker,
    guide: &Guide<'_, '_, B>,
    deep: u32,
    at: u32,
    stmt: u32,
    names: &[Name],
    keep: &[Le],
    facts: &[Form],
    block: &[Stmt],
) -> Result<Side, Fail>
    requires counted { s.old.stmts ≤ s.old.entered }
    requires facts { all_narrow keep.now ≡ true }
    requires narrow { are_narrow block.now ≡ true }
    ensures found { AnswersWith result s.new
        (branching.seek_side (guided B.turn guide.now) at stmt names.now keep.now facts.now
        (map (spec.seek_stmt (guided B.turn guide.now) deep) block.now) s.old) }
    ensures fewer { OnOk result (s.new.stmts ≤ s.new.entered) }
{
    let before = begin_side(&mut s.ctx, at, stmt, names, facts)?;
    let nodes = seek_block(s, guide, deep, block)?;
    end_side(&mut s.ctx, stmt, names, keep, before, nodes)
}

/// The goals of a loop: its bounds, and then those of its block.
#[cycle(statements)]
fn seek_for<B: Book>(
    s: &mut Seeker,
    guide: &Guide<'_, '_, B>,
    deep: u32,
    at: u32,
    stmt: u32,
    x: &Name,
    low: &Expr,
    high: &Expr,
    names: &[Name],
    keep: &[Le],
    body: &[Stmt],
) -> Result<StmtNode, Fail>
    requires counted { s.old.stmts ≤ s.old.entered }
    requires facts { all_narrow keep.now ≡ true }
    requires narrow { are_narrow body.now ≡ true }
    ensures found { AnswersWith result s.new
        (turns.seek_for (guided B.turn guide.now) deep at stmt x.now low.now high.now names.now keep.now
        (map (spec.seek_stmt (guided B.turn guide.now) deep) body.now) s.old) }
    ensures fewer { OnOk result (s.new.stmts ≤ s.new.entered) }
{
    let (bounds, opened) = open_loop(s, guide, deep, at, stmt, x, low, high, names, keep)?;
    let nodes = seek_block(s, guide, deep, body)?;
    end_loop(&mut s.ctx, at, stmt, x, names, keep, bounds, opened, nodes)
}

/// The goals of the statements of a block.
#[cycle(statements)]
pub fn seek_block<B: Book>(
    s: &mut Seeker,
    guide: &Guide<'_, '_, B>,
    deep: u32,
    block: &[Stmt],
) -> Result<List<StmtNode>, Fail>
    requires counted { s.old.stmts ≤ s.old.entered }
    requires narrow { are_narrow block.now ≡ true }
    ensures found { AnswersWith result s.new (spec.seek_block (guided B.turn guide.now) deep block.now s.old) }
    ensures fewer { OnOk result (s.new.stmts ≤ s.new.entered) }
{
    let mut nodes = List::new(s.ctx.allocator());
    for t in block {
        nodes = seek_stmt(s, guide, deep, t, nodes)?;
    }
    Ok(nodes)
}
