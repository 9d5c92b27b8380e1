//! The notes before a statement.
ghost use Rattle.std.specs.Prelude.{◌≡◌, ◌≤◌, ◌∷◌, [], true, map, Some, IfOk, OnOk};
ghost use Rattle.std.specs.Option.{ForSome};
ghost use Rattle.rup_base.specs.Answers.{AnswersWith};
ghost use Rattle.deriv_tree.specs.declared.rule.Rule.TheVariants as rule;
ghost use Rattle.model_syntax.specs.Linear as linear;
ghost use Rattle.model_syntax.specs.declared.stmt.Stmt.{out-Stmt};
ghost use Rattle.side_certs.specs.LinearForm.{within};
ghost use Rattle.stmt_rules.specs.Words as words;
ghost use Rattle.sym_heap.specs.Context as context;
ghost use Rattle.sym_heap.specs.Sides as sides;
ghost use Rattle.derive_search.specs.Nodes as nodes;
ghost use Rattle.derive_search.specs.Notes as spec;

use crate::certificate::certificate;
use crate::fresh::has_room;
use crate::nodes::{one, over};
use crate::seeker::Seeker;
use crate::trips::as_args;
use deriv_tree::{Rule, Step, StmtNode};
use lemma_files::{Lemma, fits};
use model_syntax::{Le, Lin, Stmt};
use model_types::is_narrow;
use rup_base::{Fail, List, NoMemory};
use side_certs::{Cert, Form};
use std::alloc::Global;
use stmt_rules::args::flat;
use sym_heap::{Ctx, Held, NameForms, difference};

/// The greatest number of nodes.
const MOST_NODES: u32 = 20_000;

/// A note: the form that becomes a fact, as the arguments of its node and as it is read from them, and its certificate.
#[derive(Debug, Drop)]
pub struct Noted {
    pub args: List<i64>,
    pub form: Form,
    pub cert: Cert,
}

/// The names of a side are scalars in scope.
fn in_scope(ctx: &Ctx, side: &Lin) -> bool
    ensures { result ≡ spec.in_scope ctx.now side.now }
{
    match side {
        Lin::Const(_) => true,
        Lin::Var(x) => ctx.scalar(x).is_some(),
        Lin::Sum(p, q) => in_scope(ctx, p) && in_scope(ctx, q),
        Lin::Scale(_, p) => in_scope(ctx, p),
    }
}

/// The note of the form that these arguments stand for, where it has a certificate and there is room for a fact.
fn with_args(ctx: &Ctx, args: List<i64>) -> Result<Option<Noted>, NoMemory>
    ensures note { IfOk result (λ note. note ≡ spec.with_form ctx.now args (words.flat args)) }
    ensures room { IfOk result (λ note. ForSome note (λ n. context.has_room ctx.now ≡ true)) }
{
    let Some(form) = flat(args.as_slice()) else {
        return Ok(None);
    };
    if !has_room(ctx) {
        return Ok(None);
    }
    match certificate(ctx, &form)? {
        None => Ok(None),
        Some(cert) => Ok(Some(Noted { args, form, cert })),
    }
}

/// The forms of names are the scalars'.
fn forms_in<'a>(scalars: &'a [Held]) -> NameForms<'a>
    ensures { sides.form_of result ≡ sides.form_in scalars.now }
{
    NameForms {
        given: None,
        listed: &[],
        ends: &[],
        others: scalars,
    }
}

/// The form of a fact, where it is within the limits of forms.
#[tactic(auto, using(crate::proofs::Shown::narrow_is))]
fn form_of(ctx: &Ctx, fact: &Le) -> Option<Form>
    requires { linear.is_narrow fact.now ≡ true }
    ensures { result ≡ within (sides.difference (sides.form_in ctx.now.scalars) fact.now) }
{
    difference(&forms_in(ctx.scalars()), fact)
}

/// The note of a fact, where it may be noted here.
fn note_of(ctx: &Ctx, fact: &Le) -> Result<Option<Noted>, NoMemory>
    ensures note { IfOk result (λ note. note ≡ spec.note_of ctx.now fact.now) }
    ensures room { IfOk result (λ note. ForSome note (λ n. context.has_room ctx.now ≡ true)) }
{
    if !in_scope(ctx, &fact.low) || !in_scope(ctx, &fact.high) {
        return Ok(None);
    }
    if !is_narrow(ctx.allocator(), fact)? {
        return Ok(None);
    }
    match form_of(ctx, fact) {
        None => Ok(None),
        Some(form) => with_args(ctx, as_args(ctx.allocator(), &form)?),
    }
}

/// The node of a note.
fn note_node(alloc: Global, args: List<i64>, cert: Cert) -> Result<StmtNode, NoMemory>
    ensures { IfOk result (λ node. node ≡ nodes.node rule.SNote args (cert ∷ []) []) }
{
    let step = Step {
        rule: Rule::SNote,
        args,
        certs: one(alloc, cert)?,
    };
    Ok(StmtNode {
        step,
        kids: List::new(alloc),
        blocks: List::new(alloc),
    })
}

/// The note is given: its node goes behind the others, and its form becomes a fact.
fn give(s: &mut Seeker, note: Noted, done: List<StmtNode>) -> Result<List<StmtNode>, Fail>
    requires counted { s.old.stmts ≤ s.old.entered }
    requires room { context.has_room s.old.ctx ≡ true }
    ensures found { AnswersWith result s.new (spec.given (Some note) done s.old) }
    ensures fewer { OnOk result (s.new.stmts ≤ s.new.entered) }
{
    if s.entered >= MOST_NODES {
        return Err(over());
    }
    s.entered += 1;
    let Noted { args, form, cert } = note;
    let _ = s.ctx.add_fact(form)?;
    let mut nodes = done;
    nodes.push(note_node(s.ctx.allocator(), args, cert)?)?;
    Ok(nodes)
}

/// The note of a fact, behind these nodes, where it may be noted.
fn note_fact(s: &mut Seeker, fact: &Le, done: List<StmtNode>) -> Result<List<StmtNode>, Fail>
    requires { s.old.stmts ≤ s.old.entered }
    ensures found { AnswersWith result s.new (spec.noted fact.now done s.old) }
    ensures fewer { OnOk result (s.new.stmts ≤ s.new.entered) }
{
    match note_of(&s.ctx, fact)? {
        None => Ok(done),
        Some(note) => give(s, note, done),
    }
}

/// The notes of facts in order.
fn all_noted(s: &mut Seeker, facts: &[Le], done: List<StmtNode>) -> Result<List<StmtNode>, Fail>
    requires { s.old.stmts ≤ s.old.entered }
    ensures found { AnswersWith result s.new (nodes.in_order (map spec.noted facts.now) done s.old) }
    ensures fewer { OnOk result (s.new.stmts ≤ s.new.entered) }
{
    let mut nodes = done;
    for fact in facts {
        nodes = note_fact(s, fact, nodes)?;
    }
    Ok(nodes)
}

/// What a lemma notes before a statement.
fn notes_of(
    s: &mut Seeker,
    lemma: &Lemma,
    t: &Stmt,
    done: List<StmtNode>,
) -> Result<List<StmtNode>, Fail>
    requires { s.old.stmts ≤ s.old.entered }
    ensures found { AnswersWith result s.new (spec.notes_of (out-Stmt t.now) lemma.now done s.old) }
    ensures fewer { OnOk result (s.new.stmts ≤ s.new.entered) }
{
    match lemma {
        Lemma::Note(_, _, facts) if fits(lemma, t) => all_noted(s, facts.as_slice(), done),
        _ => Ok(done),
    }
}

/// The notes before a statement, behind these nodes: those of each lemma in order.
pub fn notes_before(
    s: &mut Seeker,
    lemmas: &[Lemma],
    t: &Stmt,
    done: List<StmtNode>,
) -> Result<List<StmtNode>, Fail>
    requires { s.old.stmts ≤ s.old.entered }
    ensures found { AnswersWith result s.new (spec.notes_before lemmas.now (out-Stmt t.now) done s.old) }
    ensures fewer { OnOk result (s.new.stmts ≤ s.new.entered) }
{
    let mut nodes = done;
    for lemma in lemmas {
        nodes = notes_of(s, lemma, t, nodes)?;
    }
    Ok(nodes)
}
