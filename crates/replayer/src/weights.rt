//! What commands weigh where every variable has a slot of the stack.
ghost use Rattle.std.specs.Prelude.{◌≡◌, ◌*◌, ◌^◌, ◌<◌, ◌≤◌, map, sum};
ghost use Rattle.bed_syntax.specs.Shape.{expr_size, cmd_size};
ghost use Rattle.bed_syntax.specs.Weight as spec;

use bed_syntax::{BExpr, Cmd, Weights};

/// The weights of an expression's nodes.
pub fn weight_of_expr(e: &BExpr) -> u32
    requires { expr_size e.now < 2 ^ 28 }
    ensures weight { result ≡ spec.expr_weight Weights.LARGE e.now }
    ensures bounded { result ≤ 8 * expr_size e.now }
{
    let w = Weights::LARGE;
    match e {
        BExpr::Lit(_) => w.literal,
        BExpr::Var(_) => w.variable,
        BExpr::Bin(_, a, b) => weight_of_expr(a) + weight_of_expr(b) + w.operation,
        BExpr::Load(_, a) => weight_of_expr(a) + w.load,
        BExpr::Table(_, _, i) => weight_of_expr(i) + w.table,
    }
}

/// The weights of a command's nodes, without the entry.
#[cycle(weight)]
pub fn weight_of_cmd(c: &Cmd) -> u32
    requires { cmd_size c.now < 2 ^ 28 }
    ensures weight { result ≡ spec.cmd_weight Weights.LARGE c.now }
    ensures bounded { result ≤ 8 * cmd_size c.now }
{
    let w = Weights::LARGE;
    match c {
        Cmd::Set(_, e) => weight_of_expr(e) + w.set,
        Cmd::Store(_, a, e) => weight_of_expr(a) + weight_of_expr(e) + w.store,
        Cmd::Cond(e, p, q) => weight_of_expr(e) + w.test + weight_of_cmd(p) + weight_of_cmd(q),
        Cmd::Seq(cs) => weight_of_cmds(cs.as_slice()),
        Cmd::While(e, p) => weight_of_expr(e) + w.turn + weight_of_cmd(p),
    }
}

#[cycle(weight)]
fn weight_of_cmds(cs: &[Cmd]) -> u32
    requires { sum (map cmd_size cs.now) < 2 ^ 28 }
    ensures weight { result ≡ sum (map (spec.cmd_weight Weights.LARGE) cs.now) }
    ensures bounded { result ≤ 8 * sum (map cmd_size cs.now) }
{
    let mut weight = 0;
    for c in cs {
        weight += weight_of_cmd(c);
    }
    weight
}
