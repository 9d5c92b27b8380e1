//! The check of a model's types.
ghost use Rattle.std.specs.Prelude.{◌≡◌, true};
ghost use Rattle.rup_base.specs.Answers.{Answers};
ghost use Rattle.model_syntax.specs.Formed.{model_formed};
ghost use Rattle.model_syntax.specs.Limits.{Within};
ghost use Rattle.model_syntax.specs.Spelling.{Spellable};
ghost use Rattle.model_syntax.specs.Types.{judge};
ghost use Rattle.model_types.specs.Checked.{checked, model_of};

use crate::facts::requirements;
use crate::params::declare_params;
use crate::ret_type::check_results;
use crate::stmt_type::check_block;
use crate::typed::Typed;
use model_syntax::Model;
use rup_base::Fail;
use std::alloc::Global;

/// The model, if each rule of types holds; else the place and cause of the first fault in text order.
pub fn check_types(alloc: Global, m: Model) -> Result<Typed, Fail>
    requires within { Within m }
    requires spellable { Spellable m }
    requires formed { model_formed m ≡ true }
    ensures { Answers (model_of result) (checked m) }
{
    judge(alloc, &m)?;
    Ok(Typed { inner: m })
}

/// All rules of types, in text order.
fn judge(alloc: Global, m: &Model) -> Result<(), Fail>
    ensures { Answers result (judge m.now) }
{
    let start = declare_params(alloc, m.params.as_slice())?;
    requirements(alloc, m.requires_.as_slice(), &start)?;
    let end = check_block(alloc, 0, &start, m.body.as_slice())?;
    check_results(alloc, &start, &end.1, m.rets.as_slice())
}
