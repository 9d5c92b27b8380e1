//! The bound of what a derivation gives: a polynomial of the entry symbols. No call takes memory.
ghost use Rattle.std.specs.Prelude.{◌≡◌, ◌+◌, ◌*◌, ◌^◌, ◌<◌, ◌≤◌, map, sum, IfSome};
ghost use Rattle.rup_base.specs.Answers.{Answers, AnswersWith};
ghost use Rattle.deriv_tree.specs.Measure.{stmt_size, block_size, size};
ghost use Rattle.deriv_tree.specs.declared.tree.StmtNode.{out-StmtNode};
ghost use Rattle.bed_syntax.specs.Shape.{cmd_size};
ghost use Rattle.replayer.specs.Bounds as spec;

use crate::sizes::{kids_size, size_of_block, size_of_stmt};
use crate::weights::weight_of_expr;
use bed_syntax::{Cmd, Weights};
use cost_poly::{Poly, Wide};
use deriv_tree::{Block, Derivation, Rule, StmtNode};
use rup_base::{Fail, Refusal};
use side_certs::Form;

/// The trip forms that no loop has taken yet.
#[derive(Drop)]
struct Trips<'a> {
    left: &'a [Form],
}

/// The bound of the commands that a derivation of so many nodes gives, or the first sum or product that passes a limit.
pub fn bound(d: &Derivation, nodes: u32, cmds: &[Cmd], trips: &[Form]) -> Result<Poly, Fail>
    requires nodes { nodes ≡ size d.now }
    requires few { nodes ≤ 20_000 }
    requires small { sum (map cmd_size cmds.now) ≤ 400_000 }
    ensures { Answers result (spec.bound Weights.LARGE d.now cmds.now trips.now) }
{
    let mut trips = Trips { left: trips };
    let entry = constant(nodes, Weights::LARGE.entry);
    in_order(
        nodes,
        0,
        0,
        d.body.nodes.as_slice(),
        cmds,
        entry,
        &mut trips,
    )
}

// Sums and products, each made for the node of a number.

fn limited(at: u32, made: Result<Poly, Wide>) -> Result<Poly, Refusal>
    ensures { result ≡ spec.limited_at at made }
{
    match made {
        Ok(p) => Ok(p),
        Err(wide) => Err(Refusal::OverBound {
            node: at,
            degree: wide.degree,
            coefficient: wide.coefficient,
        }),
    }
}

/// A number, which is no sum of its own.
fn constant(at: u32, n: u32) -> Result<Poly, Refusal>
    ensures { result ≡ spec.constant_at at n }
{
    match Poly::term(None, None, u64::from(n)) {
        Some(p) => Ok(p),
        None => Err(Refusal::OverBound {
            node: at,
            degree: 0,
            coefficient: u128::from(n),
        }),
    }
}

fn with_constant(at: u32, p: &Poly, n: u32) -> Result<Poly, Refusal>
    ensures { result ≡ spec.with_constant at p.now n }
{
    let q = constant(at, n)?;
    limited(at, p.add(&q))
}

/// The sum with one bound more.
fn added(at: u32, so_far: Result<Poly, Refusal>, p: &Poly) -> Result<Poly, Refusal>
    ensures { result ≡ spec.added at so_far p.now }
{
    let sum = so_far?;
    limited(at, sum.add(p))
}

/// The product with a trip form, and then a number.
fn turned(at: u32, body: &Poly, trips: &Form, n: u32) -> Result<Poly, Refusal>
    ensures { result ≡ spec.turned at body.now trips.now n }
{
    let turns = limited(at, body.scale(trips))?;
    with_constant(at, &turns, n)
}

// Rules.

/// The rule gives commands.
fn gives(rule: Rule) -> bool
    ensures { result ≡ spec.gives rule }
{
    rule != Rule::SNote
}

/// The rule gives sets and then a loop.
fn is_loop(rule: Rule) -> bool
    ensures { result ≡ spec.is_loop rule }
{
    match rule {
        Rule::SFor | Rule::SMap | Rule::SFold => true,
        _ => false,
    }
}

// Commands.

/// What a set or a store weighs.
fn weight(c: &Cmd) -> Option<u32>
    requires { cmd_size c.now < 2 ^ 28 }
    ensures weight { result ≡ (spec.priced Weights.LARGE c.now).weight }
    ensures bounded { IfSome result (λ n. n ≤ 8 * cmd_size c.now) }
{
    let w = Weights::LARGE;
    match c {
        Cmd::Set(_, e) => Some(weight_of_expr(e) + w.set),
        Cmd::Store(_, a, e) => Some(weight_of_expr(a) + weight_of_expr(e) + w.store),
        Cmd::Cond(_, _, _) | Cmd::Seq(_) | Cmd::While(_, _) => None,
    }
}

/// What the sets and stores in front weigh, and the commands from the first other on.
#[tactic(auto, using(crate::proofs::Split::sum_first))]
fn sets(cmds: &[Cmd], held: u32) -> (u32, &[Cmd])
    requires { held + 8 * sum (map cmd_size cmds.now) < 2 ^ 31 }
    ensures sets { spec.sets (map (spec.priced Weights.LARGE) cmds.now) held
        ≡ (result.0, map (spec.priced Weights.LARGE) result.1.now) }
    ensures bounded { result.0 + 8 * sum (map cmd_size result.1.now) ≤ held + 8 * sum (map cmd_size cmds.now) }
{
    match cmds {
        [] => (held, cmds),
        [c, rest @ ..] => match weight(c) {
            Some(n) => sets(rest, held + n),
            None => (held, cmds),
        },
    }
}

/// What a node's sets weigh, and the commands from its last on.
fn begun(rule: Rule, cmds: &[Cmd]) -> (u32, &[Cmd])
    requires { 8 * sum (map cmd_size cmds.now) < 2 ^ 31 }
    ensures begun { spec.begun rule (map (spec.priced Weights.LARGE) cmds.now)
        ≡ (result.0, map (spec.priced Weights.LARGE) result.1.now) }
    ensures bounded { result.0 + 8 * sum (map cmd_size result.1.now) ≤ 8 * sum (map cmd_size cmds.now) }
{
    if is_loop(rule) {
        sets(cmds, 0)
    } else {
        (0, cmds)
    }
}

#[tactic(auto, using(crate::proofs::Split::sum_first))]
fn behind(cmds: &[Cmd]) -> &[Cmd]
    ensures behind { map (spec.priced Weights.LARGE) result.now ≡ spec.behind (map (spec.priced Weights.LARGE) cmds.now) }
    ensures fewer { sum (map cmd_size result.now) ≤ sum (map cmd_size cmds.now) }
{
    match cmds {
        [] => cmds,
        [_, rest @ ..] => rest,
    }
}

/// The blocks behind the first, where `first` is the number of the first node in all.
#[tactic(auto, using(crate::proofs::Split::sum_first))]
fn others(first: u32, blocks: &[Block]) -> (u32, &[Block])
    requires { first + sum (map block_size blocks.now) ≤ 20_000 }
    ensures others { spec.others (first, blocks.now) ≡ (result.0, result.1.now) }
    ensures few { result.0 + sum (map block_size result.1.now) ≤ first + sum (map block_size blocks.now) }
{
    match blocks {
        [] => (first, blocks),
        [block, rest @ ..] => (first + size_of_block(block), rest),
    }
}

/// The nodes of the first block.
#[tactic(auto, using(crate::proofs::Split::sum_first, crate::proofs::Split::block_sum))]
fn nodes_of(blocks: &[Block]) -> &[StmtNode]
    ensures nodes { result.now ≡ spec.nodes_of blocks.now }
    ensures few { sum (map stmt_size result.now) ≤ sum (map block_size blocks.now) }
{
    match blocks {
        [] => &[],
        [block, ..] => block.nodes.as_slice(),
    }
}

/// The bound of a command for the node of a number, which adds the number `more`; `first` is that of the first node in its
/// blocks.
#[cycle(bound)]
fn bound_of(
    c: &Cmd,
    at: u32,
    more: u32,
    first: u32,
    blocks: &[Block],
    trips: &mut Trips<'_>,
) -> Result<Poly, Fail>
    requires few { first + sum (map block_size blocks.now) ≤ 20_000 }
    requires small { more + 8 * cmd_size c.now < 2 ^ 31 }
    ensures { AnswersWith result trips.new.left.now
        ((spec.priced Weights.LARGE c.now).bound at more (first, blocks.now) trips.old.left.now) }
{
    let w = Weights::LARGE;
    match c {
        Cmd::Set(_, e) => Ok(constant(at, more + (weight_of_expr(e) + w.set))?),
        Cmd::Store(_, a, e) => {
            let weight = weight_of_expr(a) + weight_of_expr(e) + w.store;
            Ok(constant(at, more + weight)?)
        }
        Cmd::Cond(e, p, q) => {
            let test = weight_of_expr(e) + w.test;
            choice(test, p, q, at, more, first, blocks, trips)
        }
        Cmd::Seq(cs) => {
            let none = Ok(Poly::zero());
            in_order(
                at,
                more,
                first,
                nodes_of(blocks),
                cs.as_slice(),
                none,
                trips,
            )
        }
        Cmd::While(e, p) => {
            let test = weight_of_expr(e) + w.turn;
            turns(test, p, at, more, first, blocks, trips)
        }
    }
}

/// The greater of two sides, and then the test.
#[cycle(bound)]
fn choice(
    test: u32,
    p: &Cmd,
    q: &Cmd,
    at: u32,
    more: u32,
    first: u32,
    blocks: &[Block],
    trips: &mut Trips<'_>,
) -> Result<Poly, Fail>
    requires few { first + sum (map block_size blocks.now) ≤ 20_000 }
    requires small { more + test + 8 * cmd_size p.now + 8 * cmd_size q.now < 2 ^ 31 }
    ensures { AnswersWith result trips.new.left.now
        (spec.choice test (spec.priced Weights.LARGE p.now) (spec.priced Weights.LARGE q.now) at more (first, blocks.now)
        trips.old.left.now) }
{
    let one = bound_of(p, at, 0, first, blocks, trips)?;
    let (next, rest) = others(first, blocks);
    let two = bound_of(q, at, 0, next, rest, trips)?;
    Ok(with_constant(at, &one.max(&two), more + test)?)
}

/// The body with the test of one turn, then the product, then the last test.
#[cycle(bound)]
fn turns(
    test: u32,
    p: &Cmd,
    at: u32,
    more: u32,
    first: u32,
    blocks: &[Block],
    trips: &mut Trips<'_>,
) -> Result<Poly, Fail>
    requires few { first + sum (map block_size blocks.now) ≤ 20_000 }
    requires small { more + test + 8 * cmd_size p.now < 2 ^ 31 }
    ensures { AnswersWith result trips.new.left.now
        (spec.loop test (spec.priced Weights.LARGE p.now) at more (first, blocks.now) trips.old.left.now) }
{
    let [trip, rest @ ..] = trips.left else {
        return Ok(constant(at, more)?);
    };
    trips.left = rest;
    let body = bound_of(p, at, test, first, blocks, trips)?;
    Ok(turned(at, &body, trip, more + test)?)
}

/// The bound of a node of a number, whose sets weigh `held`, and whose last command is the first of these.
#[cycle(bound)]
fn last_bound(
    at: u32,
    node: &StmtNode,
    held: u32,
    cmds: &[Cmd],
    trips: &mut Trips<'_>,
) -> Result<Poly, Fail>
    requires few { at + stmt_size node.now ≤ 20_000 }
    requires small { held + 8 * sum (map cmd_size cmds.now) < 2 ^ 31 }
    ensures { AnswersWith result trips.new.left.now
        (spec.last_bound at (spec.inside at node.now) (held, map (spec.priced Weights.LARGE) cmds.now) trips.old.left.now) }
{
    match cmds {
        [] => Ok(constant(at, held)?),
        [c, ..] => {
            let first = at + 1 + kids_size(node.kids.as_slice());
            bound_of(c, at, held, first, node.blocks.as_slice(), trips)
        }
    }
}

/// The rule's own commands, whose weights are added to its number, and then the number to the sum.
#[cycle(bound)]
fn own(
    at: u32,
    cmds: &[Cmd],
    more: u32,
    so_far: Result<Poly, Refusal>,
    trips: &mut Trips<'_>,
) -> Result<Poly, Fail>
    requires small { more + 8 * sum (map cmd_size cmds.now) < 2 ^ 31 }
    ensures { AnswersWith result trips.new.left.now
        (spec.own at (map (spec.priced Weights.LARGE) cmds.now) more so_far trips.old.left.now) }
{
    match cmds {
        [] => {
            let sum = so_far?;
            Ok(with_constant(at, &sum, more)?)
        }
        [c, rest @ ..] => match weight(c) {
            Some(n) => own(at, rest, more + n, so_far, trips),
            None => {
                let p = bound_of(c, at, 0, 0, &[], trips)?;
                own(at, rest, more, added(at, so_far, &p), trips)
            }
        },
    }
}

/// The sum of the bounds of nodes in order, the first of which has the number `first`, and the number `more`.
#[cycle(bound)]
fn in_order(
    at: u32,
    more: u32,
    first: u32,
    nodes: &[StmtNode],
    cmds: &[Cmd],
    so_far: Result<Poly, Refusal>,
    trips: &mut Trips<'_>,
) -> Result<Poly, Fail>
    requires few { first + sum (map stmt_size nodes.now) ≤ 20_000 }
    requires small { more + 8 * sum (map cmd_size cmds.now) < 2 ^ 31 }
    ensures { AnswersWith result trips.new.left.now
        (spec.in_order at more first nodes.now (map (spec.priced Weights.LARGE) cmds.now) so_far trips.old.left.now) }
{
    let mut next = first;
    let mut left = nodes;
    let mut cmds = cmds;
    let mut sum = so_far;
    'nodes: while let [node, rest @ ..] = left {
        if gives(node.step.rule) {
            let (held, last) = begun(node.step.rule, cmds);
            let p = last_bound(next, node, held, last, trips)?;
            cmds = behind(last);
            sum = added(at, sum, &p);
        }
        next += size_of_stmt(node);
        left = rest;
    }
    own(at, cmds, more, sum, trips)
}
