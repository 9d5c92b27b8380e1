//! The search over writes to an array: s-put and s-move.
ghost use Rattle.std.specs.Prelude.{◌≡◌, ◌≤◌, [], ◌∷◌, None, Some, IfOk, OnOk, MatchOption};
ghost use Rattle.rup_base.specs.Answers.{AnswersWith};
ghost use Rattle.deriv_tree.specs.declared.rule.Rule.TheVariants as rule;
ghost use Rattle.sym_heap.specs.Context as context;
ghost use Rattle.derive_search.specs.Guide.{guided};
ghost use Rattle.derive_search.specs.Nodes as nodes;
ghost use Rattle.derive_search.specs.Statements as spec;

use crate::certificate::certificate;
use crate::elements::is_array;
use crate::found::Found;
use crate::guide::Guide;
use crate::nodes::{one, stuck_at};
use crate::seek::seek;
use crate::seeker::Seeker;
use deriv_tree::{ExprNode, Rule, Step, StmtNode};
use equations::Book;
use expr_rules::rules::get::room;
use model_syntax::Expr;
use rup_base::{Fail, List, Name, NoMemory};
use side_certs::Cert;
use std::alloc::Global;
use sym_heap::Ctx;

/// The greatest number of writes.
const MOST_WRITES: u32 = 4_294_967_295;

/// The node of a write.
fn store_node(
    alloc: Global,
    rule: Rule,
    cert: Cert,
    index: ExprNode,
    value: ExprNode,
) -> Result<StmtNode, NoMemory>
    ensures { IfOk result (λ node. node ≡ nodes.node rule [] (cert ∷ []) (index ∷ value ∷ [])) }
{
    let step = Step {
        rule,
        args: List::new(alloc),
        certs: one(alloc, cert)?,
    };
    let mut kids = one(alloc, index)?;
    kids.push(value)?;
    Ok(StmtNode {
        step,
        kids,
        blocks: List::new(alloc),
    })
}

/// Counts the write to an array whose index is shown to be in range: the certificate of that.
fn write(ctx: &mut Ctx, at: u32, a: &Name, i: &Found, v: &Found) -> Result<Option<Cert>, NoMemory>
    ensures { IfOk result (λ cert. MatchOption cert
        (spec.written at a.now i.now v.now ctx.old ≡ None)
        (λ k. spec.written at a.now i.now v.now ctx.old ≡ Some (k, ctx.new))) }
{
    let _ = at;
    let _ = v;
    let Some(clause) = ctx.own(a) else {
        return Ok(None);
    };
    let Some(goal) = room(&clause.length, &i.out.form) else {
        return Ok(None);
    };
    let Some(cert) = certificate(ctx, &goal)? else {
        return Ok(None);
    };
    if clause.writes >= MOST_WRITES {
        return Ok(None);
    }
    let _ = ctx.wrote(a);
    Ok(Some(cert))
}

/// The last step of a write.
fn store(ctx: &mut Ctx, at: u32, stmt: u32, a: &Name, i: Found, v: Found) -> Result<StmtNode, Fail>
    ensures { AnswersWith result ctx.new (spec.storing at (nodes.stuck stmt) a.now i v ctx.old) }
{
    match write(ctx, at, a, &i, &v)? {
        None => Err(stuck_at(stmt)),
        Some(cert) => Ok(store_node(ctx.allocator(), Rule::SPut, cert, i.node, v.node)?),
    }
}

/// The last step of a write after which the array has another name.
fn store_moved(
    ctx: &mut Ctx,
    at: u32,
    stmt: u32,
    b: &Name,
    a: &Name,
    i: Found,
    v: Found,
) -> Result<StmtNode, Fail>
    ensures { AnswersWith result ctx.new (spec.moving at (nodes.stuck stmt) b.now a.now i v ctx.old) }
{
    let Some(cert) = write(ctx, at, a, &i, &v)? else {
        return Err(stuck_at(stmt));
    };
    if ctx.move_clause(a, b)? {
        Ok(store_node(ctx.allocator(), Rule::SMove, cert, i.node, v.node)?)
    } else {
        Err(stuck_at(stmt))
    }
}

/// The goals of index and value.
fn seek_two<B: Book>(
    s: &mut Seeker,
    guide: &Guide<'_, '_, B>,
    deep: u32,
    stmt: u32,
    i: &Expr,
    v: &Expr,
) -> Result<(Found, Found), Fail>
    requires { s.old.stmts ≤ s.old.entered }
    ensures found { AnswersWith result s.new (spec.seek_two (guided B.turn guide.now) deep stmt i.now v.now s.old) }
    ensures fewer { OnOk result (s.new.stmts ≤ s.new.entered) }
{
    let f = seek(s, guide, deep, stmt, i)?;
    let g = seek(s, guide, deep, stmt, v)?;
    Ok((f, g))
}

/// The goal of a write, whose node has the number `at`.
pub fn seek_put<B: Book>(
    s: &mut Seeker,
    guide: &Guide<'_, '_, B>,
    deep: u32,
    at: u32,
    stmt: u32,
    a: &Name,
    i: &Expr,
    v: &Expr,
) -> Result<StmtNode, Fail>
    requires { s.old.stmts ≤ s.old.entered }
    ensures found { AnswersWith result s.new (spec.seek_put (guided B.turn guide.now) deep at stmt a.now i.now v.now s.old) }
    ensures fewer { OnOk result (s.new.stmts ≤ s.new.entered) }
{
    if !is_array(&s.ctx, a) {
        return Err(stuck_at(stmt));
    }
    let (f, g) = seek_two(s, guide, deep, stmt, i, v)?;
    store(&mut s.ctx, at, stmt, a, f, g)
}

/// The first name is an array's, and no other array has the second.
fn can_move(ctx: &Ctx, a: &Name, b: &Name) -> bool
    ensures { result ≡ context.can_move ctx.now a.now b.now }
{
    ctx.own(a).is_some() && (a == b || ctx.own(b).is_none())
}

/// The goal of a write after which the array has another name.
pub fn seek_move<B: Book>(
    s: &mut Seeker,
    guide: &Guide<'_, '_, B>,
    deep: u32,
    at: u32,
    stmt: u32,
    b: &Name,
    a: &Name,
    i: &Expr,
    v: &Expr,
) -> Result<StmtNode, Fail>
    requires { s.old.stmts ≤ s.old.entered }
    ensures found { AnswersWith result s.new (spec.seek_move (guided B.turn guide.now) deep at stmt b.now a.now i.now v.now s.old) }
    ensures fewer { OnOk result (s.new.stmts ≤ s.new.entered) }
{
    if !can_move(&s.ctx, a, b) {
        return Err(stuck_at(stmt));
    }
    let (f, g) = seek_two(s, guide, deep, stmt, i, v)?;
    store_moved(&mut s.ctx, at, stmt, b, a, f, g)
}
