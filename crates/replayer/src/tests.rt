//! What no clause says: that a derivation is replayed where memory is left, and what the sum of two arguments comes to.
ghost use Rattle.std.specs.Prelude.{◌≡◌, map, true, IfOk, IsTrue};
ghost use Rattle.rup_base.specs.Gather.{all_true};
ghost use Rattle.rup_base.specs.Name.{is_name};
ghost use Rattle.model_syntax.specs.Formed.{expr_formed, param_formed, ret_formed, stmt_formed};
ghost use Rattle.model_syntax.specs.Spelling.{expr_spellable, stmt_spellable};
ghost use Rattle.deriv_tree.specs.Measure.{expr_size, stmt_size, block_size};
ghost use Rattle.deriv_tree.specs.Shape.{IsWhole, expr_shaped, stmt_shaped, block_shaped};

use crate::replay;
use deriv_tree::{Block, Derivation, ExprNode, Rule, Step, StmtNode};
use equations::WordBook;
use model_syntax::{Expr, Model, Op, Param, Ret, Stmt, over_limit};
use model_types::{Typed, check_types};
use rup_base::{Box, List, Name, NoMemory};
use std::alloc::Global;
use std::test::Fail as Failed;

fn name(alloc: Global, text: &[u8]) -> Result<Name, Failed>
    ensures { IfOk result (λ x. is_name x ≡ true) }
{
    Ok(Name::read(alloc, text)?.ok_or("a name")?)
}

/// `(params (x word) (y word))`
fn params(alloc: Global) -> Result<List<Param>, Failed>
    ensures { IfOk result (λ params. all_true (map param_formed params) ≡ true) }
{
    let mut params = List::new(alloc);
    params.push(Param::Word(name(alloc, b"x")?))?;
    params.push(Param::Word(name(alloc, b"y")?))?;
    Ok(params)
}

/// `(add x y)`
fn sum(alloc: Global) -> Result<Expr, Failed>
    ensures spellable { IfOk result (λ e. IsTrue (expr_spellable e)) }
    ensures formed { IfOk result (λ e. expr_formed e ≡ true) }
{
    let x = Box::new(alloc, Expr::Var(name(alloc, b"x")?))?;
    let y = Box::new(alloc, Expr::Var(name(alloc, b"y")?))?;
    Ok(Expr::Bin(Op::Add, x, y))
}

/// `(do (let z (add x y)))`
fn body(alloc: Global) -> Result<List<Stmt>, Failed>
    ensures spellable { IfOk result (λ body. IsTrue (all_true (map stmt_spellable body))) }
    ensures formed { IfOk result (λ body. all_true (map stmt_formed body) ≡ true) }
{
    let mut body = List::new(alloc);
    body.push(Stmt::Let(name(alloc, b"z")?, sum(alloc)?))?;
    Ok(body)
}

/// `(ret z)`
fn rets(alloc: Global) -> Result<List<Ret>, Failed>
    ensures { IfOk result (λ rets. all_true (map ret_formed rets) ≡ true) }
{
    let mut rets = List::new(alloc);
    rets.push(Ret::Scalar(name(alloc, b"z")?))?;
    Ok(rets)
}

/// `(model sum (params (x word) (y word)) (require) (do (let z (add x y))) (ret z))`
fn typed(alloc: Global) -> Result<Typed, Failed> {
    let model = Model {
        name: name(alloc, b"sum")?,
        params: params(alloc)?,
        requires_: List::new(alloc),
        body: body(alloc)?,
        rets: rets(alloc)?,
    };
    if over_limit(&model).is_some() {
        return Err("the model is within the limits".into());
    }
    Ok(check_types(alloc, model)?)
}

fn step(alloc: Global, rule: Rule) -> Step
    ensures { result.rule ≡ rule }
{
    Step {
        rule,
        args: List::new(alloc),
        certs: List::new(alloc),
    }
}

fn variable(alloc: Global) -> ExprNode
    ensures shaped { expr_shaped result ≡ true }
    ensures size { expr_size result ≡ 1 }
{
    ExprNode {
        step: step(alloc, Rule::EVar),
        kids: List::new(alloc),
    }
}

fn operation(alloc: Global) -> Result<ExprNode, NoMemory>
    ensures shaped { IfOk result (λ n. expr_shaped n ≡ true) }
    ensures size { IfOk result (λ n. expr_size n ≡ 3) }
{
    let mut kids = List::new(alloc);
    kids.push(Box::new(alloc, variable(alloc))?)?;
    kids.push(Box::new(alloc, variable(alloc))?)?;
    Ok(ExprNode {
        step: step(alloc, Rule::EOp),
        kids,
    })
}

fn let_step(alloc: Global, local: i64) -> Result<Step, NoMemory>
    ensures { IfOk result (λ s. s.rule ≡ Rule.SLet) }
{
    let mut args = List::new(alloc);
    args.push(local)?;
    Ok(Step {
        rule: Rule::SLet,
        args,
        certs: List::new(alloc),
    })
}

fn statement(alloc: Global, local: i64) -> Result<StmtNode, NoMemory>
    ensures shaped { IfOk result (λ n. stmt_shaped n ≡ true) }
    ensures size { IfOk result (λ n. stmt_size n ≡ 4) }
{
    let mut kids = List::new(alloc);
    kids.push(operation(alloc)?)?;
    Ok(StmtNode {
        step: let_step(alloc, local)?,
        kids,
        blocks: List::new(alloc),
    })
}

fn block(alloc: Global, local: i64) -> Result<Block, NoMemory>
    ensures shaped { IfOk result (λ b. block_shaped b ≡ true) }
    ensures size { IfOk result (λ b. block_size b ≡ 4) }
{
    let mut nodes = List::new(alloc);
    nodes.push(statement(alloc, local)?)?;
    Ok(Block { nodes })
}

/// The sum is kept in a local.
fn derivation(alloc: Global, local: i64) -> Result<Derivation, Failed>
    ensures { IfOk result (λ d. IsWhole d) }
{
    Ok(Derivation {
        model: name(alloc, b"sum")?,
        body: block(alloc, local)?,
    })
}

#[test]
fn a_sum_is_replayed(rt: HostRuntime) -> Result<(), Failed> {
    let model = typed(rt.alloc())?;
    let derivation = derivation(rt.alloc(), 2)?;
    let checked = replay(rt.alloc(), &model, &derivation, 1_000_000, &WordBook)?;
    let command = &checked.command;
    assert_eq!(rt; checked.nodes, 4);
    assert_eq!(rt; command.args, 2);
    assert_eq!(rt; command.rets.as_slice(), [2].as_slice());
    assert_eq!(rt; command.locals, 3);
    assert_eq!(rt; command.depth, 2);
    assert_eq!(rt; command.weight, 59);
    assert_eq!(rt; command.bound.at(&[]), 59);
    Ok(())
}
