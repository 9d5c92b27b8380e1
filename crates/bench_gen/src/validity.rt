//! What holds of every generated model. The call does nothing.
ghost use Rattle.std.specs.Prelude.{◌≡◌, ◌≤◌, true};
ghost use Rattle.model_syntax.specs.Formed.{model_formed};
ghost use Rattle.model_syntax.specs.Limits.{Within};
ghost use Rattle.model_syntax.specs.Spelling.{Spellable};
ghost use Rattle.model_syntax.specs.Types.{Well};
ghost use Rattle.model_syntax.specs.Value.{Meets};
ghost use Rattle.bench_gen.specs.Generator as generator;

/// For each seed and each count up to 1990 the generated model is well typed, formed, spellable and within the limits of
/// models, and the generated arguments meet it.
pub fn generated_models_are_valid(seed: u32, count: u32)
    requires { count ≤ 1990 }
    ensures well { Well (generator.model seed count) }
    ensures formed { model_formed (generator.model seed count) ≡ true }
    ensures spellable { Spellable (generator.model seed count) }
    ensures within { Within (generator.model seed count) }
    ensures met { Meets (generator.model seed count) (generator.arguments seed) }
{}
