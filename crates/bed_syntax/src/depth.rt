//! How many variables the evaluation of a command's expressions takes.
ghost use Rattle.std.specs.Prelude.{◌≡◌, ◌^◌, ◌<◌, ◌≤◌, map, sum};
ghost use Rattle.rup_base.specs.Gather.{greatest};
ghost use Rattle.bed_syntax.specs.Shape.{expr_size, cmd_size, expr_depth, cmd_depth};

use crate::command::Cmd;
use crate::expression::BExpr;

fn depth_of_expr(e: &BExpr) -> u32
    requires { expr_size e.now < 2 ^ 32 }
    ensures depth { result ≡ expr_depth e.now }
    ensures bounded { result ≤ expr_size e.now }
{
    match e {
        BExpr::Lit(_) => 1,
        BExpr::Var(_) => 1,
        BExpr::Bin(_, a, b) => 1 + depth_of_expr(a).max(depth_of_expr(b)),
        BExpr::Load(_, a) => 1 + depth_of_expr(a),
        BExpr::Table(_, _, i) => 1 + depth_of_expr(i),
    }
}

/// The greatest depth of a command's expressions, where a store counts one more than the greater of its two; 0 where there
/// is none.
#[cycle(depth)]
pub fn depth_of_cmd(c: &Cmd) -> u32
    requires { cmd_size c.now < 2 ^ 32 }
    ensures depth { result ≡ cmd_depth c.now }
    ensures bounded { result ≤ cmd_size c.now }
{
    match c {
        Cmd::Set(_, e) => depth_of_expr(e),
        Cmd::Store(_, a, e) => 1 + depth_of_expr(a).max(depth_of_expr(e)),
        Cmd::Cond(e, p, q) => depth_of_expr(e).max(depth_of_cmd(p).max(depth_of_cmd(q))),
        Cmd::Seq(cs) => depth_of_cmds(cs.as_slice()),
        Cmd::While(e, p) => depth_of_expr(e).max(depth_of_cmd(p)),
    }
}

#[cycle(depth)]
fn depth_of_cmds(cs: &[Cmd]) -> u32
    requires { sum (map cmd_size cs.now) < 2 ^ 32 }
    ensures depth { result ≡ greatest (map cmd_depth cs.now) }
    ensures bounded { result ≤ sum (map cmd_size cs.now) }
{
    let mut deepest = 0;
    for c in cs {
        deepest = deepest.max(depth_of_cmd(c));
    }
    deepest
}
