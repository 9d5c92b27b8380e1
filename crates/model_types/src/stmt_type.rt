//! The rules of statements. A statement is numbered from 0 in text order, an outer one before its inner ones.
ghost use Rattle.std.specs.Prelude.{◌≡◌, map};
ghost use Rattle.rup_base.specs.Answers.{Answers};
ghost use Rattle.model_syntax.specs.declared.stmt.Stmt.TheOpen as s;
ghost use Rattle.model_syntax.specs.Types as spec;
ghost use Rattle.model_types.specs.Placed as placed;

use crate::carried::{counter, distinct, distinct_known, folded_element, joined, kept};
use crate::expr_type::{type_of, wanted};
use crate::facts::facts;
use crate::in_scope::{array_in, array_may_take, element_in, scalar_in, scalar_may_take};
use crate::place::at;
use crate::scope::Scope;
use model_syntax::{Expr, Le, NameType, Scalar, Stmt};
use rup_base::{Fail, Name, TypePlace};
use std::alloc::Global;

/// The number of the next statement, and the names in scope there.
pub type State = (u32, Scope);

/// The state after a statement, or its first fault.
#[cycle(stmt)]
fn check_stmt(alloc: Global, state: State, stmt: &Stmt) -> Result<State, Fail>
    ensures { Answers result (spec.stmt stmt.now state) }
{
    let (k, scope) = state;
    match stmt {
        Stmt::Let(x, e) => check_let(alloc, k, scope, x, e),
        Stmt::Put(a, index, e) => check_put(k, scope, a, index, e),
        Stmt::Move(b, a, index, e) => check_move(alloc, k, scope, b, a, index, e),
        Stmt::Map(a, x, e) => check_map(alloc, k, scope, a, x, e),
        Stmt::Fold(t, a, x, e) => check_fold(alloc, k, scope, t, a, x, e),
        Stmt::If(test, names, keep, first, second) => {
            let names = names.as_slice();
            enter_if(alloc, k, &scope, test, names)?;
            let one = check_block(alloc, k.saturating_add(1), &scope, first.as_slice())?;
            let two = check_block(alloc, one.0, &scope, second.as_slice())?;
            leave_if(alloc, k, scope, names, keep.as_slice(), &one.1, two)
        }
        Stmt::For(x, low, high, names, keep, body) => {
            let names = names.as_slice();
            let inner = enter_for(alloc, k, &scope, x, low, high, names, keep.as_slice())?;
            let end = check_block(alloc, k.saturating_add(1), &inner, body.as_slice())?;
            leave_for(k, scope, names, end)
        }
    }
}

/// The state after a block that begins in a scope, which stays, or the block's first fault.
#[cycle(stmt)]
pub fn check_block(alloc: Global, k: u32, scope: &Scope, stmts: &[Stmt]) -> Result<State, Fail>
    ensures { Answers result (spec.in_turn (map spec.stmt stmts.now) (k, scope.now)) }
{
    let mut state = (k, scope.copy(alloc)?);
    for stmt in stmts {
        state = check_stmt(alloc, state, stmt)?;
    }
    Ok(state)
}

#[tactic(auto, using(crate::proofs::AtPlace::at_then))]
fn check_let(alloc: Global, k: u32, scope: Scope, x: &Name, e: &Expr) -> Result<State, Fail>
    ensures { Answers result (spec.stmt_step (s.Let x.now e.now) (k, scope)) }
{
    let place = TypePlace::Statement(k);
    at(place, scalar_may_take(&scope, x))?;
    let t = at(place, type_of(&scope, e))?;
    let after = scope.bind(alloc, x, NameType::Scalar(t))?;
    Ok((k.saturating_add(1), after))
}

#[tactic(auto, using(crate::proofs::AtPlace::at_then))]
fn check_put(k: u32, scope: Scope, a: &Name, index: &Expr, e: &Expr) -> Result<State, Fail>
    ensures { Answers result (spec.stmt_step (s.Put a.now index.now e.now) (k, scope)) }
{
    let place = TypePlace::Statement(k);
    let t = at(place, element_in(&scope, a))?;
    at(place, wanted(Scalar::Word, type_of(&scope, index)))?;
    at(place, wanted(t, type_of(&scope, e)))?;
    Ok((k.saturating_add(1), scope))
}

#[tactic(auto, using(crate::proofs::AtPlace::at_then))]
fn check_move(
    alloc: Global,
    k: u32,
    scope: Scope,
    b: &Name,
    a: &Name,
    index: &Expr,
    e: &Expr,
) -> Result<State, Fail>
    ensures { Answers result (spec.stmt_step (s.Move b.now a.now index.now e.now) (k, scope)) }
{
    let place = TypePlace::Statement(k);
    at(place, array_may_take(&scope, b))?;
    let t = at(place, element_in(&scope, a))?;
    at(place, wanted(Scalar::Word, type_of(&scope, index)))?;
    at(place, wanted(t, type_of(&scope, e)))?;
    let shape = array_in(alloc, place, &scope, a)?;
    let after = scope.bind(alloc, b, shape)?;
    Ok((k.saturating_add(1), after))
}

#[tactic(auto, using(crate::proofs::AtPlace::at_then))]
fn check_map(
    alloc: Global,
    k: u32,
    scope: Scope,
    a: &Name,
    x: &Name,
    e: &Expr,
) -> Result<State, Fail>
    ensures { Answers result (spec.stmt_step (s.Map a.now x.now e.now) (k, scope)) }
{
    let place = TypePlace::Statement(k);
    let t = at(place, element_in(&scope, a))?;
    at(place, scalar_may_take(&scope, x))?;
    let inner = scope.extended(alloc, x, NameType::Scalar(t))?;
    at(place, wanted(t, type_of(&inner, e)))?;
    Ok((k.saturating_add(1), scope))
}

#[tactic(auto, using(crate::proofs::AtPlace::at_then))]
fn check_fold(
    alloc: Global,
    k: u32,
    scope: Scope,
    t: &Name,
    a: &Name,
    x: &Name,
    e: &Expr,
) -> Result<State, Fail>
    ensures { Answers result (spec.stmt_step (s.Fold t.now a.now x.now e.now) (k, scope)) }
{
    let place = TypePlace::Statement(k);
    let so_far = at(place, scalar_in(&scope, t))?;
    let element = at(place, element_in(&scope, a))?;
    at(place, folded_element(&scope, t, x))?;
    let inner = scope.extended(alloc, x, NameType::Scalar(element))?;
    at(place, wanted(so_far, type_of(&inner, e)))?;
    Ok((k.saturating_add(1), scope))
}

/// What an `if` asks before its blocks.
#[tactic(auto, unfolding(crate::specs::Placed::enter_if))]
fn enter_if(alloc: Global, k: u32, scope: &Scope, test: &Expr, names: &[Name]) -> Result<(), Fail>
    ensures { Answers result (placed.enter_if k scope.now test.now names.now) }
{
    let place = TypePlace::Statement(k);
    at(place, wanted(Scalar::Flag, type_of(scope, test)))?;
    distinct(alloc, place, names)
}

/// The state after an `if` whose blocks end in the scope `one` and in the state `two`.
#[tactic(auto, unfolding(crate::specs::Placed::leave_if))]
fn leave_if(
    alloc: Global,
    k: u32,
    scope: Scope,
    names: &[Name],
    keep: &[Le],
    one: &Scope,
    two: State,
) -> Result<State, Fail>
    ensures { Answers result (placed.leave_if k scope names.now keep.now one.now two) }
{
    let place = TypePlace::Statement(k);
    let after = joined(alloc, place, names, one, &two.1, scope)?;
    facts(alloc, place, keep, &after)?;
    Ok((two.0, after))
}

/// The scope in which the body of a `for` begins.
#[tactic(auto, unfolding(crate::specs::Placed::enter_for))]
fn enter_for(
    alloc: Global,
    k: u32,
    scope: &Scope,
    x: &Name,
    low: &Expr,
    high: &Expr,
    names: &[Name],
    keep: &[Le],
) -> Result<Scope, Fail>
    ensures { Answers result (placed.enter_for k scope.now x.now low.now high.now names.now keep.now) }
{
    let place = TypePlace::Statement(k);
    at(place, counter(scope, x, names))?;
    at(place, wanted(Scalar::Word, type_of(scope, low)))?;
    at(place, wanted(Scalar::Word, type_of(scope, high)))?;
    distinct_known(alloc, place, scope, names)?;
    let inner = scope.extended(alloc, x, NameType::Scalar(Scalar::Word))?;
    facts(alloc, place, keep, &inner)?;
    Ok(inner)
}

/// The state after a `for` whose body ends in the state `end`.
#[tactic(auto, unfolding(crate::specs::Placed::leave_for))]
fn leave_for(k: u32, scope: Scope, names: &[Name], end: State) -> Result<State, Fail>
    ensures { Answers result (placed.leave_for k scope names.now end) }
{
    at(TypePlace::Statement(k), kept(names, &scope, &end.1))?;
    Ok((end.0, scope))
}
