//! What no clause says: that the calls succeed where memory is left, and how the commands read.
ghost use Rattle.std.specs.Prelude.{◌≡◌, IfOk};
ghost use Rattle.deriv_tree.specs.Measure.{expr_size, stmt_size, block_size};

use crate::{block_instance, stmt_instance};
use bed_syntax::print_cmd;
use deriv_tree::{Block, ExprNode, Rule, Step, StmtNode};
use equations::WordBook;
use model_syntax::{Expr, Model, Stmt};
use rup_base::{List, Name, NoMemory};
use side_certs::Cert;
use std::alloc::Global;
use std::test::Fail as Failed;
use sym_heap::Ctx;

fn name(alloc: Global, text: &[u8]) -> Result<Name, Failed> {
    Ok(Name::read(alloc, text)?.ok_or("a name")?)
}

/// The context of a model that takes nothing.
fn context(alloc: Global) -> Result<Ctx, Failed> {
    let model = Model {
        name: name(alloc, b"empty")?,
        params: List::new(alloc),
        requires_: List::new(alloc),
        body: List::new(alloc),
        rets: List::new(alloc),
    };
    Ok(Ctx::start(alloc, &model)?)
}

/// `[rule, [0], certs]`
fn step(alloc: Global, rule: Rule, certs: List<Cert>) -> Result<Step, NoMemory> {
    let mut args = List::new(alloc);
    args.push(0)?;
    Ok(Step { rule, args, certs })
}

/// The number 0 is at least 0.
fn note(alloc: Global) -> Result<StmtNode, NoMemory>
    ensures { IfOk result (λ n. stmt_size n ≡ 1) }
{
    let mut certs = List::new(alloc);
    certs.push(Cert {
        d: 1,
        entries: List::new(alloc),
    })?;
    Ok(StmtNode {
        step: step(alloc, Rule::SNote, certs)?,
        kids: List::new(alloc),
        blocks: List::new(alloc),
    })
}

fn number(alloc: Global) -> ExprNode
    ensures { expr_size result ≡ 1 }
{
    ExprNode {
        step: Step {
            rule: Rule::ELit,
            args: List::new(alloc),
            certs: List::new(alloc),
        },
        kids: List::new(alloc),
    }
}

/// A number is kept in local 0.
fn binding(alloc: Global) -> Result<StmtNode, NoMemory>
    ensures { IfOk result (λ n. stmt_size n ≡ 2) }
{
    let mut kids = List::new(alloc);
    kids.push(number(alloc))?;
    Ok(StmtNode {
        step: step(alloc, Rule::SLet, List::new(alloc))?,
        kids,
        blocks: List::new(alloc),
    })
}

fn block(alloc: Global) -> Result<Block, NoMemory>
    ensures { IfOk result (λ b. block_size b ≡ 3) }
{
    let mut nodes = List::new(alloc);
    nodes.push(note(alloc)?)?;
    nodes.push(binding(alloc)?)?;
    Ok(Block { nodes })
}

#[test]
fn a_block_is_an_instance(rt: HostRuntime) -> Result<(), Failed> {
    let mut ctx = context(rt.alloc())?;
    let mut stmts = List::new(rt.alloc());
    stmts.push(Stmt::Let(name(rt.alloc(), b"x")?, Expr::Lit(7)))?;
    let block = block(rt.alloc())?;
    let out = block_instance(&mut ctx, 0, 3, 4, stmts.as_slice(), &block, &WordBook)?;
    assert_eq!(rt; (out.cmds.len(), out.trips.len()), (1, 0));
    let [command] = out.cmds.as_slice() else {
        return Err("one command".into());
    };
    let text = print_cmd(rt.alloc(), command)?;
    let want: &[u8] = b"(set v0 7)";
    assert_eq!(rt; text.as_slice(), want, "the text of the command");
    assert_eq!(rt; (ctx.scalars().len(), ctx.facts().len()), (1, 1));
    Ok(())
}

#[test]
fn a_statement_is_an_instance(rt: HostRuntime) -> Result<(), Failed> {
    let mut ctx = context(rt.alloc())?;
    let stmt = Stmt::Let(name(rt.alloc(), b"x")?, Expr::Lit(7));
    let node = binding(rt.alloc())?;
    let out = stmt_instance(&mut ctx, 0, &stmt, &node, &WordBook)?;
    assert_eq!(rt; out.cmds.len(), 1);
    Ok(())
}
