//! The words of rules that have blocks: how a block begins, what has to hold at its end, and what the context after it takes
//! over.
ghost use Rattle.std.specs.Prelude.{◌≡◌, true, OnOk};
ghost use Rattle.std.specs.List.{find, list_all};
ghost use Rattle.std.specs.Option.{option_copied};
ghost use Rattle.rup_base.specs.Answers.{AnswersWith};
ghost use Rattle.rup_base.specs.declared.fail.Fail.TheVariants as fail;
ghost use Rattle.rup_base.specs.declared.refusal.Refusal.TheVariants as refusal;
ghost use Rattle.model_syntax.specs.Names.{listed};
ghost use Rattle.sym_heap.specs.Context as context;
ghost use Rattle.sym_heap.specs.Ends as ends;
ghost use Rattle.sym_heap.specs.Sides.{form_in, form_of};
ghost use Rattle.sym_heap.specs.Turns as turns;
ghost use Rattle.expr_rules.specs.Words as words;
ghost use Rattle.stmt_rules.specs.Nesting as spec;
ghost use Rattle.model_syntax.specs.Linear.{is_narrow};
ghost use Rattle.stmt_rules.specs.Narrow.{all_narrow};

use expr_rules::words::{fact, fresh, made, no_instance};
use model_syntax::{Le, Scalar};
use rup_base::{Fail, Name, NoMemory, Refusal};
use side_certs::{Cert, Form, closes};
use sym_heap::{Clause, Ctx, Held, Mark, NameForms, difference};

/// Further facts, which are within the limits.
pub fn all_added(ctx: &mut Ctx, at: u32, facts: &[Form]) -> Result<(), Fail>
    ensures { AnswersWith result ctx.new (spec.all_added at facts.now ctx.old) }
{
    for form in facts {
        added(ctx, at, form.copy())?;
    }
    Ok(())
}

fn added(ctx: &mut Ctx, at: u32, form: Form) -> Result<(), Fail>
    ensures { AnswersWith result ctx.new (words.added at form ctx.old) }
{
    if ctx.add_fact(form)? {
        Ok(())
    } else {
        Err(no_instance(at, 3))
    }
}

/// The locals of the scalars that are not listed are reserved.
#[tactic(auto, using(crate::proofs::Reserving::reserving_none, crate::proofs::Reserving::reserving_one))]
pub fn unlisted_reserved(ctx: &mut Ctx, names: &[Name], scalars: &[Held]) -> Result<(), NoMemory>
    ensures { OnOk result (ctx.new ≡ turns.reserving (turns.unlisted_locals names.now scalars.now) ctx.old) }
{
    for held in scalars {
        if !is_listed(names, &held.name) {
            ctx.reserve_local(held.local)?;
        }
    }
    Ok(())
}

/// The name is one of them.
pub fn is_listed(names: &[Name], x: &Name) -> bool
    ensures { result ≡ listed x.now names.now }
{
    names.iter().any(|name| x == name)
}

/// The forms of names: those of an end for the listed ones, and for all others these.
pub fn forms_at<'a>(names: &'a [Name], ends: &'a [Held], others: &'a [Held]) -> NameForms<'a>
    ensures { form_of result ≡ spec.end_form names.now ends.now others.now }
{
    NameForms {
        given: None,
        listed: names,
        ends,
        others,
    }
}

/// With these forms for its names each fact is at least 0, by the certificates from the place on in the node's list.
#[tactic(auto, using(crate::proofs::Nested::narrow_here, crate::proofs::Nested::narrow_left, crate::proofs::Nested::shown_on, crate::proofs::Nested::shown_stops, crate::proofs::Reserving::narrow_is))]
pub fn all_shown(
    ctx: &Ctx,
    at: u32,
    place: u32,
    certs: &[Cert],
    forms: &NameForms<'_>,
    facts: &[Le],
) -> Result<(), Fail>
    requires { all_narrow facts.now ≡ true }
    ensures { AnswersWith result ctx.now (spec.all_shown at place certs.now (form_of forms.now) facts.now ctx.now) }
{
    match facts {
        [] => Ok(()),
        [first, others @ ..] => {
            let [cert, rest @ ..] = certs else {
                return Err(bad_certificate(at, place));
            };
            shown_at(ctx, at, place, cert, difference(forms, first))?;
            all_shown(ctx, at, place.saturating_add(1), rest, forms, others)
        }
    }
}

/// The form is at least 0 by the certificate at this place of the node's list.
fn shown_at(ctx: &Ctx, at: u32, place: u32, cert: &Cert, goal: Option<Form>) -> Result<(), Fail>
    ensures { AnswersWith result ctx.now (spec.shown_at at place cert.now goal ctx.now) }
{
    let goal = made(at, goal)?;
    if closes(ctx.facts(), ctx.tops(), &goal, cert) {
        Ok(())
    } else {
        Err(bad_certificate(at, place))
    }
}

fn bad_certificate(node: u32, cert: u32) -> Fail
    ensures { result ≡ fail.Refused (refusal.BadCertificate node cert) }
{
    Fail::Refused(Refusal::BadCertificate { node, cert })
}

/// Each fact, with the forms that the scalars have, becomes one of the context.
#[tactic(auto, using(crate::proofs::Nested::narrow_here, crate::proofs::Nested::narrow_left, crate::proofs::Nested::kept_on))]
pub fn all_kept(ctx: &mut Ctx, at: u32, facts: &[Le]) -> Result<(), Fail>
    requires { all_narrow facts.now ≡ true }
    ensures { AnswersWith result ctx.new (spec.all_kept at facts.now ctx.old) }
{
    match facts {
        [] => Ok(()),
        [first, others @ ..] => {
            kept_fact(ctx, at, first)?;
            all_kept(ctx, at, others)
        }
    }
}

/// A fact, with the forms that the scalars have, becomes one of the context.
#[tactic(auto, using(crate::proofs::Reserving::narrow_is))]
pub fn kept_fact(ctx: &mut Ctx, at: u32, kept: &Le) -> Result<(), Fail>
    requires { is_narrow kept.now ≡ true }
    ensures { AnswersWith result ctx.new (spec.kept_fact at kept.now ctx.old) }
{
    let form = difference(&forms_in(ctx.scalars()), kept);
    fact(ctx, at, form)
}

/// The forms of names are the scalars'.
fn forms_in<'a>(scalars: &'a [Held]) -> NameForms<'a>
    ensures { form_of result ≡ form_in scalars.now }
{
    NameForms {
        given: None,
        listed: &[],
        ends: &[],
        others: scalars,
    }
}

/// Each clause at the end whose name is not listed has the name and the writes that it had.
pub fn unlisted_kept(names: &[Name], before: &[Clause], ends: &[Clause]) -> bool
    ensures { result ≡ spec.unlisted_kept names.now before.now ends.now }
{
    ends.iter().all(|clause| is_kept(names, before, clause))
}

fn is_kept(names: &[Name], before: &[Clause], clause: &Clause) -> bool
    ensures { result ≡ spec.is_kept names.now before.now clause.now }
{
    is_listed(names, &clause.name) || is_as_before(of_param(before, clause.param), clause)
}

fn is_as_before(before: Option<&Clause>, clause: &Clause) -> bool
    ensures { result ≡ spec.is_as_before (option_copied before.entry) clause.now }
{
    match before {
        None => false,
        Some(was) => was.name == clause.name && was.writes == clause.writes,
    }
}

/// The clause of the array parameter of this number.
pub fn of_param(clauses: &[Clause], param: u32) -> Option<&Clause>
    ensures { option_copied result ≡ ends.of_param param clauses.now }
{
    clauses.iter().find(|clause| clause.param == param)
}

/// Each listed scalar stands in the same local at both ends.
pub fn stand_alike(one: &Mark, two: &Mark, names: &[Name]) -> bool
    ensures { result ≡ list_all (spec.stands_alike one.now two.now) names.now }
{
    names.iter().all(|y| stands_alike(one, two, y))
}

fn stands_alike(one: &Mark, two: &Mark, y: &Name) -> bool
    ensures { result ≡ spec.stands_alike one.now two.now y.now }
{
    match (scalar(one.scalars(), y), scalar(two.scalars(), y)) {
        (None, None) => true,
        (Some(h), Some(l)) => h.local == l.local,
        _ => false,
    }
}

/// The scalar of a name.
pub fn scalar<'a>(scalars: &'a [Held], y: &Name) -> Option<&'a Held>
    ensures { option_copied result ≡ find (context.is_scalar y.now) scalars.now }
{
    scalars.iter().find(|held| held.name == *y)
}

/// Each listed array is of the same parameter at both ends.
pub fn are_arrays_alike(one: &Mark, two: &Mark, names: &[Name]) -> bool
    ensures { result ≡ list_all (spec.is_array_alike one.now two.now) names.now }
{
    names.iter().all(|y| is_array_alike(one, two, y))
}

fn is_array_alike(one: &Mark, two: &Mark, y: &Name) -> bool
    ensures { result ≡ spec.is_array_alike one.now two.now y.now }
{
    scalar(one.scalars(), y).is_some()
        || same_param(array(one.clauses(), y), array(two.clauses(), y))
}

fn same_param(one: Option<&Clause>, two: Option<&Clause>) -> bool
    ensures { result ≡ spec.same_param (option_copied one.entry) (option_copied two.entry) }
{
    match (one, two) {
        (Some(k), Some(l)) => k.param == l.param,
        _ => false,
    }
}

fn array<'a>(clauses: &'a [Clause], y: &Name) -> Option<&'a Clause>
    ensures { option_copied result ≡ find (context.is_clause y.now) clauses.now }
{
    clauses.iter().find(|clause| clause.name == *y)
}

/// Each listed scalar has a fresh symbol, in the local where it stands at the end.
pub fn all_renewed(ctx: &mut Ctx, at: u32, names: &[Name], ends: &[Held]) -> Result<(), Fail>
    ensures { AnswersWith result ctx.new (spec.all_renewed at names.now ends.now ctx.old) }
{
    for y in names {
        renewed(ctx, at, y, scalar(ends, y))?;
    }
    Ok(())
}

fn renewed(ctx: &mut Ctx, at: u32, y: &Name, end: Option<&Held>) -> Result<(), Fail>
    ensures { AnswersWith result ctx.new (spec.renewed at y.now (option_copied end.entry) ctx.old) }
{
    match end {
        None => Ok(()),
        Some(held) => {
            let symbol = fresh(ctx, at, top_of(held.kind))?;
            ctx.set_scalar(y, held.local, symbol, held.kind)?;
            Ok(())
        }
    }
}

/// The greatest number of a type.
pub fn top_of(kind: Scalar) -> u32
    ensures { result ≡ context.top_of kind }
{
    match kind {
        Scalar::Word => 4_294_967_295,
        Scalar::Byte => 255,
        Scalar::Flag => 1,
    }
}
