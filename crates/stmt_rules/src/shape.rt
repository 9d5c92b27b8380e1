//! The shape of a node: that its rule is for the statement, and how many parts, arguments and certificates it has.
ghost use Rattle.std.specs.Prelude.{◌≡◌, [], ◌+◌, ◌≤◌, ◌&&◌, length, OnOk};
ghost use Rattle.rup_base.specs.Answers.{Answers};
ghost use Rattle.model_syntax.specs.declared.stmt.Stmt.{out-Stmt};
ghost use Rattle.expr_rules.specs.Words as words;
ghost use Rattle.stmt_rules.specs.Row as spec;
ghost use Rattle.stmt_rules.specs.rules.For as for_rule;

use crate::rules::counting;
use deriv_tree::{Block, ExprNode, Rule, Step};
use expr_rules::words::need;
use model_syntax::{Le, Stmt};
use rup_base::Fail;

/// The rule is a note's.
pub fn is_note(rule: Rule) -> bool
    ensures { result ≡ spec.is_note rule }
{
    rule == Rule::SNote
}

/// The rule is for the statement.
pub fn fits(rule: Rule, s: &Stmt) -> bool
    ensures { result ≡ spec.fits rule (out-Stmt s.now) }
{
    match (rule, s) {
        (Rule::SLet, Stmt::Let(_, _)) => true,
        (Rule::SPut, Stmt::Put(_, _, _)) => true,
        (Rule::SMove, Stmt::Move(_, _, _, _)) => true,
        (Rule::SIf, Stmt::If(_, _, _, _, _)) => true,
        (Rule::SFor, Stmt::For(_, _, _, _, _, _)) => true,
        (Rule::SMap, Stmt::Map(_, _, _)) => true,
        (Rule::SFold, Stmt::Fold(_, _, _, _)) => true,
        _ => false,
    }
}

/// There are no kids and no blocks.
pub fn no_parts(kids: &[ExprNode], blocks: &[Block], at: u32) -> Result<(), Fail>
    ensures row { Answers result (words.asked (words.are_none kids.now && words.are_none blocks.now) at 1) }
    ensures none { OnOk result ((kids.now ≡ []) × (blocks.now ≡ [])) }
{
    need(kids.is_empty() && blocks.is_empty(), at, 1)
}

/// There are no blocks.
pub fn no_block(blocks: &[Block], at: u32) -> Result<(), Fail>
    ensures row { Answers result (words.asked (words.are_none blocks.now) at 1) }
    ensures none { OnOk result (blocks.now ≡ []) }
{
    need(blocks.is_empty(), at, 1)
}

/// There is at least the constant of a form, and one certificate.
pub fn note_counts(step: &Step) -> bool
    ensures { result ≡ spec.note_counts step.now }
{
    1 <= step.args.len() && step.certs.len() == 1
}

/// There are two locals and the constant of a form at least, a certificate for the trips, and two for each fact.
pub fn for_counts(step: &Step, keep: &[Le], at: u32) -> Result<(), Fail>
    ensures row { Answers result (words.asked (for_rule.counts step.now (length keep.now)) at 2) }
    ensures args { OnOk result (2 ≤ length step.now.args) }
    ensures many { OnOk result (1 + length keep.now ≤ length step.now.certs) }
{
    need(counting::counts(step, keep), at, 2)
}

/// There are two certificates for each fact, and no argument.
pub fn two_for_each(step: &Step, keep: &[Le], at: u32) -> Result<(), Fail>
    ensures row { Answers result (words.asked (words.has_counts step.now 0 (length keep.now + length keep.now)) at 2) }
    ensures many { OnOk result (length keep.now ≤ length step.now.certs) }
{
    let certs = step.certs.len();
    let twice = certs % 2 == 0 && certs / 2 == keep.len();
    need(step.args.is_empty() && twice, at, 2)
}
