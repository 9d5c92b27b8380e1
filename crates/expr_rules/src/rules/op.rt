//! e-op: an operation of words, of whose result it is only known that it is a word.
ghost use Rattle.std.specs.Prelude.{◌≡◌};
ghost use Rattle.rup_base.specs.Answers.{AnswersWith};
ghost use Rattle.expr_rules.specs.Operations.{code_of};
ghost use Rattle.expr_rules.specs.rules.Op as spec;

use crate::output::ExprOut;
use crate::words::{fresh_result, operation};
use bed_syntax::BOp;
use model_syntax::Op;
use rup_base::Fail;
use sym_heap::Ctx;

/// The operation of Bedrock2 that stands for one of models.
pub fn code_of(op: Op) -> BOp
    ensures { result ≡ code_of op }
{
    match op {
        Op::Add => BOp::Add,
        Op::Sub => BOp::Sub,
        Op::Mul => BOp::Mul,
        Op::Mulhuu => BOp::Mulhuu,
        Op::Divu => BOp::Divu,
        Op::Remu => BOp::Remu,
        Op::And => BOp::And,
        Op::Or => BOp::Or,
        Op::Xor => BOp::Xor,
        Op::Shl => BOp::Slu,
        Op::Shr => BOp::Sru,
        Op::Sar => BOp::Srs,
    }
}

pub fn after(ctx: &mut Ctx, at: u32, op: Op, p: ExprOut, q: ExprOut) -> Result<ExprOut, Fail>
    ensures { AnswersWith result ctx.new (spec.after at op p q ctx.old) }
{
    let code = operation(ctx.allocator(), code_of(op), p.code, q.code)?;
    fresh_result(ctx, at, u32::MAX, code)
}
