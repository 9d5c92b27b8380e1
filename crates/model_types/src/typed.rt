//! Models that are known to be well typed.
ghost use Rattle.std.specs.Prelude.{◌≡◌, ◌≤◌, true, length, map, IfOk};
ghost use Rattle.model_syntax.specs.Formed.{model_formed};
ghost use Rattle.model_syntax.specs.Limits.{Within};
ghost use Rattle.model_syntax.specs.Spelling.{Spellable};
ghost use Rattle.model_syntax.specs.Types.{Well, kind_of};

use model_syntax::Model;
use rup_base::{Kind, List, NoMemory};
use std::alloc::Global;

/// A model that is well typed, within the limits, spellable and formed.
#[derive(Debug, Drop)]
pub struct Typed {
    /// The model. It is public, since the contracts of the crates above cite it; `model` says what is known of it besides.
    pub inner: Model,
    ghost well: { Well inner },
    ghost within: { Within inner },
    ghost spellable: { Spellable inner },
    ghost formed: { model_formed inner ≡ true },
}

impl Typed {
    pub fn model(&self) -> &Model
        ensures model { result.now ≡ self.now.inner }
        ensures well { Well result.now }
        ensures within { Within result.now }
        ensures spellable { Spellable result.now }
        ensures formed { model_formed result.now ≡ true }
    {
        &self.inner
    }

    /// The kinds of the parameters, in order. There are at most eight.
    pub fn kinds(&self, alloc: Global) -> Result<List<Kind>, NoMemory>
        ensures kinds { IfOk result (λ kinds. kinds ≡ map kind_of self.now.inner.params) }
        ensures few { IfOk result (λ kinds. length kinds ≤ 8) }
    {
        let mut kinds = List::new(alloc);
        for param in self.inner.params.as_slice() {
            kinds.push(param.kind())?;
        }
        Ok(kinds)
    }
}
