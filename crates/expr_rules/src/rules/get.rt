//! e-get: an element of an array.
ghost use Rattle.std.specs.Prelude.{◌≡◌, [], ◌∷◌, pos, negsuc, IfOk};
ghost use Rattle.rup_base.specs.Answers.{Answers, AnswersWith};
ghost use Rattle.side_certs.specs.LinearForm.{within};
ghost use Rattle.expr_rules.specs.Words.{sum_of};
ghost use Rattle.expr_rules.specs.rules.Get as spec;

use crate::elements::{address, element_top, size_of};
use crate::output::ExprOut;
use crate::words::{fresh_result, need, no_instance, shown};
use bed_syntax::BExpr;
use rup_base::{Box, Fail, Name, NoMemory};
use side_certs::{Cert, Form, Part};
use std::alloc::Global;
use sym_heap::{Clause, Ctx};

/// The name is an array's.
pub fn before(ctx: &Ctx, at: u32, a: &Name) -> Result<(), Fail>
    ensures { AnswersWith result ctx.now (spec.before at a.now ctx.now) }
{
    need(ctx.own(a).is_some(), at, 4)
}

pub fn after(ctx: &mut Ctx, at: u32, certs: &[Cert], a: &Name, p: ExprOut) -> Result<ExprOut, Fail>
    ensures { AnswersWith result ctx.new (spec.after certs.now at a.now p ctx.old) }
{
    let Some(clause) = ctx.own(a) else {
        return Err(no_instance(at, 4));
    };
    shown(ctx, at, certs, room(&clause.length, &p.form))?;
    let top = element_top(clause.size);
    let code = code(ctx.allocator(), clause, p.code)?;
    fresh_result(ctx, at, top, code)
}

fn code(alloc: Global, clause: &Clause, index: BExpr) -> Result<BExpr, NoMemory>
    ensures { IfOk result (λ code. code ≡ spec.code clause.now index) }
{
    let address = address(alloc, clause, index)?;
    Ok(BExpr::Load(size_of(clause.size), Box::new(alloc, address)?))
}

/// The length less the index and 1.
pub fn room(length: &Form, index: &Form) -> Option<Form>
    ensures { result ≡ within (sum_of (negsuc 0) ((pos 1, length.now) ∷ (negsuc 0, index.now) ∷ [])) }
{
    Form::sum(
        -1,
        &[
            Part {
                times: 1,
                form: length,
            },
            Part {
                times: -1,
                form: index,
            },
        ],
    )
}
