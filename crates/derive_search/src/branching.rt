//! How the sides of a conditional begin and end, and how they meet.
ghost use Rattle.std.specs.Prelude.{◌≡◌, true, IfOk};
ghost use Rattle.rup_base.specs.Answers.{AnswersWith};
ghost use Rattle.stmt_rules.specs.Narrow.{all_narrow};
ghost use Rattle.derive_search.specs.Branching as spec;
ghost use Rattle.derive_search.specs.Nodes.{stuck};

use crate::kept::certificates;
use crate::nodes::{both, one, stuck_at};
use deriv_tree::{Block, ExprNode, Rule, Step, StmtNode};
use model_syntax::Le;
use rup_base::{Fail, List, Name, NoMemory};
use side_certs::{Cert, Form};
use std::alloc::Global;
use stmt_rules::nesting::{forms_at, unlisted_kept};
use stmt_rules::rules::conditional::{begins, joins};
use sym_heap::{Ctx, Mark};

/// What the search finds of a side: the nodes of its block, the certificates of the kept facts at its end, and what stands there.
#[derive(Debug, Drop)]
pub struct Side {
    pub nodes: List<StmtNode>,
    pub certs: List<Cert>,
    pub at_end: Mark,
}

/// A side begins, with these facts: what stood before it.
pub fn begin_side(
    ctx: &mut Ctx,
    at: u32,
    stmt: u32,
    names: &[Name],
    facts: &[Form],
) -> Result<Mark, Fail>
    ensures { AnswersWith result ctx.new (spec.side_begun at (stuck stmt) names.now facts.now ctx.old) }
{
    let before = ctx.mark()?;
    match begins(ctx, at, names, facts, &before) {
        Ok(()) => Ok(before),
        Err(Fail::NoMemory) => Err(Fail::NoMemory),
        Err(Fail::Refused(_)) => Err(stuck_at(stmt)),
    }
}

/// A side ends, before which this stood; the context goes back to it.
pub fn end_side(
    ctx: &mut Ctx,
    stmt: u32,
    names: &[Name],
    keep: &[Le],
    before: Mark,
    nodes: List<StmtNode>,
) -> Result<Side, Fail>
    requires { all_narrow keep.now ≡ true }
    ensures { AnswersWith result ctx.new (spec.side_ended (stuck stmt) names.now keep.now before nodes ctx.old) }
{
    if !unlisted_kept(names, before.clauses(), ctx.clauses()) {
        return Err(stuck_at(stmt));
    }
    let forms = forms_at(names, ctx.scalars(), before.scalars());
    let Some(certs) = certificates(ctx, &forms, keep)? else {
        return Err(stuck_at(stmt));
    };
    Ok(Side {
        nodes,
        certs,
        at_end: ctx.end_block(before),
    })
}

/// Both sides are done, and their ends meet: the node of the conditional, whose test has this node.
pub fn met(
    ctx: &mut Ctx,
    at: u32,
    stmt: u32,
    names: &[Name],
    keep: &[Le],
    test: ExprNode,
    one: Side,
    two: Side,
) -> Result<StmtNode, Fail>
    requires { all_narrow keep.now ≡ true }
    ensures { AnswersWith result ctx.new (spec.met at (stuck stmt) names.now keep.now test one two ctx.old) }
{
    match joins(ctx, at, names, keep, &one.at_end, &two.at_end) {
        Ok(()) => Ok(branch(ctx.allocator(), test, one, two)?),
        Err(Fail::NoMemory) => Err(Fail::NoMemory),
        Err(Fail::Refused(_)) => Err(stuck_at(stmt)),
    }
}

/// The node over both sides.
fn branch(alloc: Global, test: ExprNode, first: Side, second: Side) -> Result<StmtNode, NoMemory>
    ensures { IfOk result (λ node. node ≡ spec.branch test first second) }
{
    let step = Step {
        rule: Rule::SIf,
        args: List::new(alloc),
        certs: both(first.certs, second.certs)?,
    };
    let mut blocks = one(alloc, Block { nodes: first.nodes })?;
    blocks.push(Block {
        nodes: second.nodes,
    })?;
    Ok(StmtNode {
        step,
        kids: one(alloc, test)?,
        blocks,
    })
}
