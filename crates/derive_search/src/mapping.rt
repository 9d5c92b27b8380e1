//! The search over s-map.
ghost use Rattle.std.specs.Prelude.{◌≡◌, ◌≤◌, IfOk, OnOk};
ghost use Rattle.rup_base.specs.Answers.{AnswersWith};
ghost use Rattle.derive_search.specs.Elements as elements;
ghost use Rattle.derive_search.specs.Guide.{guided};
ghost use Rattle.derive_search.specs.Locals.{given};
ghost use Rattle.derive_search.specs.Mapping as spec;
ghost use Rattle.derive_search.specs.Nodes.{stuck};
ghost use Rattle.derive_search.specs.Opening as opening;

use crate::found::Found;
use crate::guide::Guide;
use crate::locals::{Homes, further, new_choice};
use crate::nodes::{one, stuck_at};
use crate::seek::seek;
use crate::seeker::Seeker;
use deriv_tree::{ExprNode, Rule, Step, StmtNode};
use equations::Book;
use model_syntax::Expr;
use rup_base::{Fail, List, Name, NoMemory};
use std::alloc::Global;
use stmt_rules::loops::ElementLocals;
use stmt_rules::rules::mapping::{after, array, begins};
use sym_heap::{Clause, Ctx, Mark};

/// What is known when the kid of an s-map begins: its locals, its array, and what stood before.
#[derive(Debug, Drop)]
pub struct MapStart {
    pub locals: ElementLocals,
    pub clause: Clause,
    pub before: Mark,
}

/// The locals, where there are some left: the element's, that of the count, and that of the number at which it ends.
fn map_locals(ctx: &Ctx, homes: &Homes<'_>, x: &Name) -> Option<ElementLocals>
    ensures { result ≡ elements.map_locals (given homes.now) x.now ctx.now }
{
    let element = new_choice(ctx, homes, x)?;
    let count = further(ctx, homes, &[element])?;
    let last = further(ctx, homes, &[element, count])?;
    Some(ElementLocals {
        count,
        last,
        element,
    })
}

/// Up to the kid: the array, and what stood before.
fn opens(
    ctx: &mut Ctx,
    at: u32,
    a: &Name,
    x: &Name,
    locals: ElementLocals,
) -> Result<(Clause, Mark), Fail>
    ensures { AnswersWith result ctx.new (opening.map_opens at a.now x.now locals ctx.old) }
{
    let clause = array(ctx, at, a, locals)?;
    let before = ctx.mark()?;
    begins(ctx, at, a, x, locals, &clause)?;
    Ok((clause, before))
}

/// Up to the kid, where there are locals and the rule's conditions hold.
fn begin_map(
    ctx: &mut Ctx,
    homes: &Homes<'_>,
    at: u32,
    stmt: u32,
    a: &Name,
    x: &Name,
) -> Result<MapStart, Fail>
    ensures { AnswersWith result ctx.new (spec.map_begun (given homes.now) at (stuck stmt) a.now x.now ctx.old) }
{
    let Some(locals) = map_locals(ctx, homes, x) else {
        return Err(stuck_at(stmt));
    };
    match opens(ctx, at, a, x, locals) {
        Ok((clause, before)) => Ok(MapStart {
            locals,
            clause,
            before,
        }),
        Err(Fail::NoMemory) => Err(Fail::NoMemory),
        Err(Fail::Refused(_)) => Err(stuck_at(stmt)),
    }
}

/// The node over its kid.
fn map_node(alloc: Global, locals: ElementLocals, kid: ExprNode) -> Result<StmtNode, NoMemory>
    ensures { IfOk result (λ node. node ≡ spec.map_node locals kid) }
{
    let mut args = one(alloc, i64::from(locals.count))?;
    args.push(i64::from(locals.last))?;
    args.push(i64::from(locals.element))?;
    let step = Step {
        rule: Rule::SMap,
        args,
        certs: List::new(alloc),
    };
    Ok(StmtNode {
        step,
        kids: one(alloc, kid)?,
        blocks: List::new(alloc),
    })
}

/// After the kid.
fn end_map(
    ctx: &mut Ctx,
    at: u32,
    stmt: u32,
    a: &Name,
    start: MapStart,
    f: Found,
) -> Result<StmtNode, Fail>
    ensures { AnswersWith result ctx.new (spec.mapped at (stuck stmt) a.now start f ctx.old) }
{
    let MapStart {
        locals,
        clause,
        before,
    } = start;
    let Found { node: kid, out } = f;
    match after(ctx, at, a, locals, clause, before, out.code) {
        Ok(_) => Ok(map_node(ctx.allocator(), locals, kid)?),
        Err(Fail::NoMemory) => Err(Fail::NoMemory),
        Err(Fail::Refused(_)) => Err(stuck_at(stmt)),
    }
}

/// The goal of an s-map, whose node has the number `at`.
pub fn seek_map<B: Book>(
    s: &mut Seeker,
    guide: &Guide<'_, '_, B>,
    deep: u32,
    at: u32,
    stmt: u32,
    a: &Name,
    x: &Name,
    v: &Expr,
) -> Result<StmtNode, Fail>
    requires { s.old.stmts ≤ s.old.entered }
    ensures found { AnswersWith result s.new (spec.seek_map (guided B.turn guide.now) deep at stmt a.now x.now v.now s.old) }
    ensures fewer { OnOk result (s.new.stmts ≤ s.new.entered) }
{
    let start = begin_map(&mut s.ctx, &guide.homes, at, stmt, a, x)?;
    let f = seek(s, guide, deep, stmt, v)?;
    end_map(&mut s.ctx, at, stmt, a, start, f)
}
