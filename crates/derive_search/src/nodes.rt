//! The nodes that the search makes.
ghost use Rattle.std.specs.Prelude.{◌≡◌, ◌++◌, [], ◌∷◌, IfOk};
ghost use Rattle.rup_base.specs.declared.fail.Fail.TheVariants as fail;
ghost use Rattle.derive_search.specs.Words as words;
ghost use Rattle.derive_search.specs.Expressions as spec;
ghost use Rattle.derive_search.specs.Nodes as statement;

use deriv_tree::{ExprNode, Rule, Step};
use model_printer::print_expr;
use model_syntax::Expr;
use rup_base::{Box, Fail, Goal, List, NoMemory, Refusal};
use side_certs::Cert;
use std::alloc::Global;

/// The refusal at the goal of an expression.
pub fn stuck(alloc: Global, stmt: u32, e: &Expr) -> Result<Refusal, NoMemory>
    ensures { IfOk result (λ refusal. refusal ≡ spec.stuck stmt e.now) }
{
    let goal = Goal::Expr(print_expr(alloc, e)?);
    Ok(Refusal::Stuck { stmt, goal })
}

/// The refusal at a statement.
pub fn stuck_at(stmt: u32) -> Fail
    ensures { result ≡ fail.Refused (statement.stuck stmt) }
{
    Fail::Refused(Refusal::Stuck {
        stmt,
        goal: Goal::Stmt,
    })
}

/// The refusal of the first node too many.
pub fn over() -> Fail
    ensures { result ≡ fail.Refused words.over }
{
    Fail::Refused(Refusal::OverNodes { count: 20_001 })
}

/// A list of one element.
pub fn one<T: Drop>(alloc: Global, element: T) -> Result<List<T>, NoMemory>
    ensures { IfOk result (λ list. list ≡ element ∷ []) }
{
    let mut list = List::new(alloc);
    list.push(element)?;
    Ok(list)
}

/// The elements of one list and then those of the other.
pub fn both<T: Drop>(first: List<T>, second: List<T>) -> Result<List<T>, NoMemory>
    ensures { IfOk result (λ all. all ≡ first ++ second) }
{
    let mut all = first;
    for element in second.into_vec() {
        all.push(element)?;
    }
    Ok(all)
}

/// A node without kids.
pub fn leaf(alloc: Global, rule: Rule) -> ExprNode
    ensures { result ≡ spec.node rule [] [] }
{
    ExprNode {
        step: step(alloc, rule, List::new(alloc)),
        kids: List::new(alloc),
    }
}

/// A node with one kid.
pub fn over_one(
    alloc: Global,
    rule: Rule,
    certs: List<Cert>,
    kid: ExprNode,
) -> Result<ExprNode, NoMemory>
    ensures { IfOk result (λ node. node ≡ spec.node rule certs (kid ∷ [])) }
{
    let kids = one(alloc, Box::new(alloc, kid)?)?;
    Ok(ExprNode {
        step: step(alloc, rule, certs),
        kids,
    })
}

/// A node with two kids.
pub fn over_two(
    alloc: Global,
    rule: Rule,
    certs: List<Cert>,
    first: ExprNode,
    second: ExprNode,
) -> Result<ExprNode, NoMemory>
    ensures { IfOk result (λ node. node ≡ spec.node rule certs (first ∷ second ∷ [])) }
{
    let mut kids = one(alloc, Box::new(alloc, first)?)?;
    kids.push(Box::new(alloc, second)?)?;
    Ok(ExprNode {
        step: step(alloc, rule, certs),
        kids,
    })
}

/// An instance of a rule without arguments.
fn step(alloc: Global, rule: Rule, certs: List<Cert>) -> Step
    ensures { result ≡ record { rule = rule; args = []; certs = certs } }
{
    Step {
        rule,
        args: List::new(alloc),
        certs,
    }
}
