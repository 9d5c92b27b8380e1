//! e-tab: an entry of a table.
ghost use Rattle.std.specs.Prelude.{◌≡◌, ◌++◌, [], ◌∷◌, ◌+ℤ◌, ◌≤◌, pos, negsuc, length, IfOk, OnOk};
ghost use Rattle.rup_base.specs.Answers.{Answers, AnswersWith};
ghost use Rattle.rup_base.specs.Gather.{greatest};
ghost use Rattle.side_certs.specs.LinearForm.{within};
ghost use Rattle.model_syntax.specs.Limits.{entry_bytes};
ghost use Rattle.expr_rules.specs.Words as words;
ghost use Rattle.expr_rules.specs.rules.Tab as spec;

use crate::elements::{offset, size_of};
use crate::output::ExprOut;
use crate::words::{fresh_result, need, shown};
use bed_syntax::BExpr;
use model_syntax::Scalar;
use rup_base::{Box, Fail, NoMemory, Text};
use side_certs::{Cert, Form, Part};
use std::alloc::Global;
use sym_heap::Ctx;

/// The greatest number of entries.
const MOST_ENTRIES: usize = 65_536;

/// The table has no more entries than one of a model within its limits.
pub fn before(at: u32, entries: &[u32]) -> Result<(), Fail>
    ensures { Answers result (words.asked (spec.is_small entries.now) at 4) }
{
    need(entries.len() <= MOST_ENTRIES, at, 4)
}

pub fn after(
    ctx: &mut Ctx,
    at: u32,
    certs: &[Cert],
    scalar: Scalar,
    entries: &[u32],
    p: ExprOut,
) -> Result<ExprOut, Fail>
    ensures { AnswersWith result ctx.new (spec.after certs.now at scalar entries.now p ctx.old) }
{
    shown(ctx, at, certs, room(entries, &p.form))?;
    let code = code(ctx.allocator(), scalar, entries, p.code)?;
    fresh_result(ctx, at, greatest(entries), code)
}

fn code(alloc: Global, scalar: Scalar, entries: &[u32], index: BExpr) -> Result<BExpr, NoMemory>
    ensures { IfOk result (λ code. code ≡ spec.code scalar entries.now index) }
{
    let bytes = entry_bytes(scalar);
    let before = offset(alloc, bytes, index)?;
    let text = text(alloc, scalar, entries)?;
    Ok(BExpr::Table(size_of(bytes), text, Box::new(alloc, before)?))
}

/// The number of entries less the index and 1.
pub fn room(entries: &[u32], index: &Form) -> Option<Form>
    ensures { result ≡ within (words.sum_of (pos (length entries.now) +ℤ negsuc 0) ((negsuc 0, index.now) ∷ [])) }
{
    Form::sum(
        entries.len() as i64 - 1,
        &[Part {
            times: -1,
            form: index,
        }],
    )
}

/// The bytes of an entry.
fn entry_bytes(scalar: Scalar) -> u32
    ensures { result ≡ entry_bytes scalar }
{
    match scalar {
        Scalar::Word => 4,
        Scalar::Byte => 1,
        Scalar::Flag => 0,
    }
}

/// The greatest entry.
fn greatest(entries: &[u32]) -> u32
    ensures { result ≡ greatest entries.now }
{
    let mut most = 0;
    let mut left = entries;
    'entries: while let [first, rest @ ..] = left {
        most = most.max(*first);
        left = rest;
    }
    most
}

/// The bytes of all entries.
fn text(alloc: Global, scalar: Scalar, entries: &[u32]) -> Result<Text, NoMemory>
    ensures { IfOk result (λ text. text ≡ spec.text scalar entries.now) }
{
    let mut text = Text::new(alloc);
    let mut left = entries;
    'entries: while let [first, rest @ ..] = left {
        put_entry(&mut text, scalar, *first)?;
        left = rest;
    }
    Ok(text)
}

fn put_entry(text: &mut Text, scalar: Scalar, entry: u32) -> Result<(), NoMemory>
    ensures { OnOk result (text.new ≡ text.old ++ spec.entry scalar entry) }
{
    match scalar {
        Scalar::Word => text.extend_from_slice(&entry.to_le_bytes()),
        Scalar::Byte => text.push((entry % 256) as u8),
        Scalar::Flag => Ok(()),
    }
}
