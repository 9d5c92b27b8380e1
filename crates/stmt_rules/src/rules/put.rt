//! s-put: the element of an index gets a value.
ghost use Rattle.std.specs.Prelude.{◌≡◌, [], ◌∷◌, pos, negsuc, IfOk};
ghost use Rattle.expr_rules.specs.rules.Get as get_rule;
ghost use Rattle.rup_base.specs.Answers.{AnswersWith};
ghost use Rattle.side_certs.specs.LinearForm.{within};
ghost use Rattle.expr_rules.specs.Words.{sum_of};
ghost use Rattle.stmt_rules.specs.rules.Put as spec;

use crate::output::StmtOut;
use bed_syntax::{BExpr, Cmd};
use expr_rules::ExprOut;
use expr_rules::elements::{address, size_of};
use expr_rules::words::{need, no_instance, shown};
use rup_base::{Fail, Name, NoMemory};
use side_certs::{Cert, Form, Part};
use std::alloc::Global;
use sym_heap::{Clause, Ctx};

/// The greatest number of writes.
const MOST_WRITES: u32 = 4_294_967_295;

/// The name is an array's.
pub fn before(ctx: &Ctx, at: u32, a: &Name) -> Result<(), Fail>
    ensures { AnswersWith result ctx.now (get_rule.before at a.now ctx.now) }
{
    need(ctx.own(a).is_some(), at, 4)
}

/// After index and value.
pub fn after(
    ctx: &mut Ctx,
    at: u32,
    certs: &[Cert],
    a: &Name,
    p: ExprOut,
    q: ExprOut,
) -> Result<StmtOut, Fail>
    ensures { AnswersWith result ctx.new (spec.after certs.now at a.now p q ctx.old) }
{
    let Some(clause) = ctx.own(a) else {
        return Err(no_instance(at, 4));
    };
    shown(ctx, at, certs, room(&clause.length, &p.form))?;
    need(clause.writes < MOST_WRITES, at, 3)?;
    let out = storing(ctx.allocator(), clause, p.code, q.code)?;
    let _ = ctx.wrote(a);
    Ok(out)
}

/// The length less the index and 1.
fn room(length: &Form, index: &Form) -> Option<Form>
    ensures { result ≡ within (sum_of (negsuc 0) ((pos 1, length.now) ∷ (negsuc 0, index.now) ∷ [])) }
{
    Form::sum(
        -1,
        &[
            Part {
                times: 1,
                form: length,
            },
            Part {
                times: -1,
                form: index,
            },
        ],
    )
}

/// The command that stores the element.
fn storing(alloc: Global, clause: &Clause, index: BExpr, value: BExpr) -> Result<StmtOut, NoMemory>
    ensures { IfOk result (λ out. out ≡ spec.storing clause.now index value) }
{
    let address = address(alloc, clause, index)?;
    StmtOut::only(alloc, Cmd::Store(size_of(clause.size), address, value))
}
