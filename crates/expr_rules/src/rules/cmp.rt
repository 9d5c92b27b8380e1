//! e-cmp: a comparison is a flag, with what it says of its parts.
ghost use Rattle.std.specs.Prelude.{◌≡◌, [], ◌∷◌, pos, negsuc};
ghost use Rattle.rup_base.specs.Answers.{AnswersWith};
ghost use Rattle.side_certs.specs.LinearForm.{within};
ghost use Rattle.expr_rules.specs.Operations.{test_of};
ghost use Rattle.expr_rules.specs.Words.{sum_of};
ghost use Rattle.expr_rules.specs.rules.Cmp as spec;

use crate::output::ExprOut;
use crate::words::{fresh, made, operation};
use bed_syntax::BOp;
use model_syntax::Cmp;
use rup_base::{Fail, List};
use side_certs::{Form, Part};
use sym_heap::Ctx;

/// The comparison of Bedrock2 that stands for one of models.
fn test_of(cmp: Cmp) -> BOp
    ensures { result ≡ test_of cmp }
{
    match cmp {
        Cmp::Eq => BOp::Eq,
        Cmp::Lt => BOp::Ltu,
        Cmp::Slt => BOp::Lts,
    }
}

pub fn after(ctx: &mut Ctx, at: u32, cmp: Cmp, p: ExprOut, q: ExprOut) -> Result<ExprOut, Fail>
    ensures { AnswersWith result ctx.new (spec.after at cmp p q ctx.old) }
{
    let symbol = fresh(ctx, at, 1)?;
    let (yes, no) = facts(ctx, at, cmp, &p.form, &q.form)?;
    let code = operation(ctx.allocator(), test_of(cmp), p.code, q.code)?;
    Ok(ExprOut {
        code,
        form: symbol,
        yes,
        no,
    })
}

/// What holds where the flag is true, and where it is false.
fn facts(ctx: &Ctx, at: u32, cmp: Cmp, f: &Form, g: &Form) -> Result<(List<Form>, List<Form>), Fail>
    ensures { AnswersWith result ctx.now (spec.facts at cmp f.now g.now ctx.now) }
{
    match cmp {
        Cmp::Eq => equal(ctx, at, f, g),
        Cmp::Lt => less(ctx, at, f, g),
        Cmp::Slt => Ok((List::new(ctx.allocator()), List::new(ctx.allocator()))),
    }
}

fn equal(ctx: &Ctx, at: u32, f: &Form, g: &Form) -> Result<(List<Form>, List<Form>), Fail>
    ensures { AnswersWith result ctx.now (spec.equal at f.now g.now ctx.now) }
{
    let one = made(at, f.sub(g))?;
    let two = made(at, g.sub(f))?;
    let mut yes = List::new(ctx.allocator());
    yes.push(one)?;
    yes.push(two)?;
    Ok((yes, List::new(ctx.allocator())))
}

fn less(ctx: &Ctx, at: u32, f: &Form, g: &Form) -> Result<(List<Form>, List<Form>), Fail>
    ensures { AnswersWith result ctx.now (spec.less at f.now g.now ctx.now) }
{
    let one = made(at, gap(f, g))?;
    let two = made(at, f.sub(g))?;
    let mut yes = List::new(ctx.allocator());
    yes.push(one)?;
    let mut no = List::new(ctx.allocator());
    no.push(two)?;
    Ok((yes, no))
}

/// The second form less the first and 1.
fn gap(f: &Form, g: &Form) -> Option<Form>
    ensures { result ≡ within (sum_of (negsuc 0) ((pos 1, g.now) ∷ (negsuc 0, f.now) ∷ [])) }
{
    Form::sum(
        -1,
        &[Part { times: 1, form: g }, Part { times: -1, form: f }],
    )
}
