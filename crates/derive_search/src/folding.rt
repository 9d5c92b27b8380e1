//! The search over s-fold.
ghost use Rattle.std.specs.Prelude.{◌≡◌, ◌≤◌, IfOk, OnOk};
ghost use Rattle.rup_base.specs.Answers.{AnswersWith};
ghost use Rattle.derive_search.specs.Elements as elements;
ghost use Rattle.derive_search.specs.Folding as spec;
ghost use Rattle.derive_search.specs.Guide.{guided};
ghost use Rattle.derive_search.specs.Locals.{given};
ghost use Rattle.derive_search.specs.Nodes.{stuck};
ghost use Rattle.derive_search.specs.Opening as opening;

use crate::found::Found;
use crate::guide::Guide;
use crate::locals::{Homes, choice_after, further, new_choice};
use crate::nodes::{one, stuck_at};
use crate::seek::seek;
use crate::seeker::Seeker;
use deriv_tree::{ExprNode, Rule, Step, StmtNode};
use equations::Book;
use model_syntax::{Expr, Scalar};
use rup_base::{Fail, List, Name, NoMemory};
use std::alloc::Global;
use stmt_rules::loops::{ElementLocals, FoldLocals};
use stmt_rules::rules::folding::{after, array, begins, start};
use sym_heap::{Clause, Ctx, Mark};

/// What is known when the kid of an s-fold begins: its locals, its array, the local and the type that the scalar had, and what
/// stood before.
#[derive(Debug, Drop)]
pub struct FoldStart {
    pub locals: FoldLocals,
    pub clause: Clause,
    pub first: (u32, Scalar),
    pub before: Mark,
}

/// The locals, where there are some left: the element's, the scalar's, and the two of the count.
fn fold_locals(ctx: &Ctx, homes: &Homes<'_>, t: &Name, x: &Name) -> Option<FoldLocals>
    ensures { result ≡ elements.fold_locals (given homes.now) t.now x.now ctx.now }
{
    let element = new_choice(ctx, homes, x)?;
    let so_far = choice_after(ctx, homes, &[element], t)?;
    let count = further(ctx, homes, &[element, so_far])?;
    let last = further(ctx, homes, &[element, so_far, count])?;
    let turn = ElementLocals {
        count,
        last,
        element,
    };
    Some(FoldLocals { turn, so_far })
}

/// Up to the kid: the array, the local and the type that the scalar had, and what stood before.
fn opens(
    ctx: &mut Ctx,
    at: u32,
    t: &Name,
    a: &Name,
    x: &Name,
    locals: FoldLocals,
) -> Result<(Clause, (u32, Scalar), Mark), Fail>
    ensures { AnswersWith result ctx.new (opening.fold_opens at t.now a.now x.now locals ctx.old) }
{
    let clause = array(ctx, at, t, a, locals)?;
    let first = start(ctx, at, t)?;
    let before = ctx.mark()?;
    begins(ctx, at, t, x, locals, &clause, first.1)?;
    Ok((clause, first, before))
}

/// Up to the kid, where there are locals and the rule's conditions hold.
fn begin_fold(
    ctx: &mut Ctx,
    homes: &Homes<'_>,
    at: u32,
    stmt: u32,
    t: &Name,
    a: &Name,
    x: &Name,
) -> Result<FoldStart, Fail>
    ensures { AnswersWith result ctx.new (spec.fold_begun (given homes.now) at (stuck stmt) t.now a.now x.now ctx.old) }
{
    let Some(locals) = fold_locals(ctx, homes, t, x) else {
        return Err(stuck_at(stmt));
    };
    match opens(ctx, at, t, a, x, locals) {
        Ok((clause, first, before)) => Ok(FoldStart {
            locals,
            clause,
            first,
            before,
        }),
        Err(Fail::NoMemory) => Err(Fail::NoMemory),
        Err(Fail::Refused(_)) => Err(stuck_at(stmt)),
    }
}

/// The node over its kid.
fn fold_node(alloc: Global, locals: FoldLocals, kid: ExprNode) -> Result<StmtNode, NoMemory>
    ensures { IfOk result (λ node. node ≡ spec.fold_node locals kid) }
{
    let mut args = one(alloc, i64::from(locals.turn.count))?;
    args.push(i64::from(locals.turn.last))?;
    args.push(i64::from(locals.turn.element))?;
    args.push(i64::from(locals.so_far))?;
    let step = Step {
        rule: Rule::SFold,
        args,
        certs: List::new(alloc),
    };
    Ok(StmtNode {
        step,
        kids: one(alloc, kid)?,
        blocks: List::new(alloc),
    })
}

/// After the kid.
fn end_fold(
    ctx: &mut Ctx,
    at: u32,
    stmt: u32,
    t: &Name,
    start: FoldStart,
    f: Found,
) -> Result<StmtNode, Fail>
    ensures { AnswersWith result ctx.new (spec.folded at (stuck stmt) t.now start f ctx.old) }
{
    let FoldStart {
        locals,
        clause,
        first,
        before,
    } = start;
    let Found { node: kid, out } = f;
    match after(ctx, at, t, locals, clause, first, before, out.code) {
        Ok(_) => Ok(fold_node(ctx.allocator(), locals, kid)?),
        Err(Fail::NoMemory) => Err(Fail::NoMemory),
        Err(Fail::Refused(_)) => Err(stuck_at(stmt)),
    }
}

/// The goal of an s-fold, whose node has the number `at`.
pub fn seek_fold<B: Book>(
    s: &mut Seeker,
    guide: &Guide<'_, '_, B>,
    deep: u32,
    at: u32,
    stmt: u32,
    t: &Name,
    a: &Name,
    x: &Name,
    v: &Expr,
) -> Result<StmtNode, Fail>
    requires { s.old.stmts ≤ s.old.entered }
    ensures found { AnswersWith result s.new (spec.seek_fold (guided B.turn guide.now) deep at stmt t.now a.now x.now v.now s.old) }
    ensures fewer { OnOk result (s.new.stmts ≤ s.new.entered) }
{
    let start = begin_fold(&mut s.ctx, &guide.homes, at, stmt, t, a, x)?;
    let f = seek(s, guide, deep, stmt, v)?;
    end_fold(&mut s.ctx, at, stmt, t, start, f)
}
