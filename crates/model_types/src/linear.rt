//! The sides of requirements as linear forms.
ghost use Rattle.std.specs.Prelude.{◌≡◌, ◌+◌, ◌*◌, [], ◌∷◌, ◌++◌, IfOk};
ghost use Rattle.rup_base.specs.Answers.{Answers};
ghost use Rattle.model_syntax.specs.Types.{at};
ghost use Rattle.model_syntax.specs.Linear as spec;
ghost use Rattle.model_types.specs.Placed.{plus_side};

use crate::place::at;
use model_syntax::{Lin, Linear, Term};
use rup_base::{Fail, List, Name, NoMemory, TypePlace, TypeWhy};
use std::alloc::Global;

/// The greatest factor or constant, and the greatest number of names.
const GREATEST: u64 = 1 << 40;

const NAMES: usize = 16;

/// A side as a linear form, where it and each part of it has at most 16 names and no number over 2^40.
#[cycle(linear)]
#[tactic(auto, using(crate::proofs::AtPlace::at_then))]
pub fn linear(alloc: Global, place: TypePlace, side: &Lin) -> Result<Linear, Fail>
    ensures { Answers result (at place (spec.linear side.now)) }
{
    match side {
        Lin::Const(n) => Ok(Linear {
            constant: *n as u64,
            terms: List::new(alloc),
        }),
        Lin::Var(x) => name_alone(alloc, x),
        Lin::Sum(p, q) => {
            let p = linear(alloc, place, p)?;
            plus_side(alloc, place, &p, q)
        }
        Lin::Scale(k, p) => {
            let p = linear(alloc, place, p)?;
            times(alloc, place, *k, &p)
        }
    }
}

/// The form and a side that comes behind it.
#[cycle(linear)]
#[tactic(auto, using(crate::proofs::AtPlace::at_then))]
fn plus_side(alloc: Global, place: TypePlace, p: &Linear, side: &Lin) -> Result<Linear, Fail>
    ensures { Answers result (at place (plus_side p.now side.now)) }
{
    let q = linear(alloc, place, side)?;
    plus(alloc, place, p, &q)
}

fn name_alone(alloc: Global, x: &Name) -> Result<Linear, Fail>
    ensures { Answers result (Ok (spec.form 0 (spec.term x.now 1 ∷ []))) }
{
    let mut terms = List::new(alloc);
    terms.push(Term {
        name: x.copy(alloc)?,
        factor: 1,
    })?;
    Ok(Linear { constant: 0, terms })
}

fn plus(alloc: Global, place: TypePlace, p: &Linear, q: &Linear) -> Result<Linear, Fail>
    ensures { Answers result (at place (spec.plus p.now q.now)) }
{
    let constant = at(place, sum(p.constant, q.constant))?;
    let terms = added(alloc, place, p.terms.as_slice(), q.terms.as_slice())?;
    Ok(Linear { constant, terms })
}

fn times(alloc: Global, place: TypePlace, k: u32, p: &Linear) -> Result<Linear, Fail>
    ensures { Answers result (at place (spec.times k p.now)) }
{
    if k == 0 {
        return Ok(Linear {
            constant: 0,
            terms: List::new(alloc),
        });
    }
    let constant = at(place, product(k, p.constant))?;
    let terms = scaled(alloc, place, k, p.terms.as_slice())?;
    Ok(Linear { constant, terms })
}

/// The terms and further ones, one by one.
fn added(
    alloc: Global,
    place: TypePlace,
    terms: &[Term],
    further: &[Term],
) -> Result<List<Term>, Fail>
    ensures { Answers result (at place (spec.added terms.now further.now)) }
{
    let mut sum = copies(alloc, List::new(alloc), terms)?;
    for term in further {
        let longer = more(alloc, place, &term.name, term.factor, sum.as_slice())?;
        sum = at(place, few(longer))?;
    }
    Ok(sum)
}

/// The terms with `k` times a name more.
fn more(
    alloc: Global,
    place: TypePlace,
    x: &Name,
    k: u64,
    terms: &[Term],
) -> Result<List<Term>, Fail>
    ensures { Answers result (at place (spec.more x.now k terms.now)) }
{
    let mut kept = List::new(alloc);
    for i in 0..terms.len() {
        let term = &terms[i];
        if term.name == *x {
            let factor = at(place, sum(term.factor, k))?;
            let name = term.name.copy(alloc)?;
            kept.push(Term { name, factor })?;
            return Ok(copies(alloc, kept, &terms[i + 1..])?);
        }
        kept.push(copy(alloc, term)?)?;
    }
    let name = x.copy(alloc)?;
    kept.push(Term { name, factor: k })?;
    Ok(kept)
}

/// `k` times each term.
fn scaled(alloc: Global, place: TypePlace, k: u32, terms: &[Term]) -> Result<List<Term>, Fail>
    ensures { Answers result (at place (spec.scaled k terms.now)) }
{
    let mut products = List::new(alloc);
    for term in terms {
        let factor = at(place, product(k, term.factor))?;
        let name = term.name.copy(alloc)?;
        products.push(Term { name, factor })?;
    }
    Ok(products)
}

fn few(terms: List<Term>) -> Result<List<Term>, TypeWhy>
    ensures { result ≡ spec.few terms }
{
    if terms.len() <= NAMES {
        Ok(terms)
    } else {
        Err(TypeWhy::WideForm)
    }
}

fn sum(a: u64, b: u64) -> Result<u64, TypeWhy>
    ensures { result ≡ spec.number (a + b) }
{
    match a.checked_add(b) {
        Some(sum) => number(sum),
        None => Err(TypeWhy::WideForm),
    }
}

fn product(k: u32, a: u64) -> Result<u64, TypeWhy>
    ensures { result ≡ spec.number (k * a) }
{
    match (k as u64).checked_mul(a) {
        Some(product) => number(product),
        None => Err(TypeWhy::WideForm),
    }
}

fn number(n: u64) -> Result<u64, TypeWhy>
    ensures { result ≡ spec.number n }
{
    if n <= GREATEST {
        Ok(n)
    } else {
        Err(TypeWhy::WideForm)
    }
}

fn copy(alloc: Global, term: &Term) -> Result<Term, NoMemory>
    ensures { IfOk result (λ copy. copy ≡ term.now) }
{
    let name = term.name.copy(alloc)?;
    Ok(Term {
        name,
        factor: term.factor,
    })
}

/// The terms before and copies of further ones.
fn copies(alloc: Global, before: List<Term>, terms: &[Term]) -> Result<List<Term>, NoMemory>
    ensures { IfOk result (λ all. all ≡ before ++ terms.now) }
{
    let mut all = before;
    for term in terms {
        all.push(copy(alloc, term)?)?;
    }
    Ok(all)
}
