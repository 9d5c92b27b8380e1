//! Type soundness: what holds of every well typed term. No call does anything.
ghost use Rattle.model_syntax.specs.Sound.{ExpressionLaw, StatementLaw, ArrayLaw, ModelLaw};

/// A well typed expression that is formed and spellable has a value of its type, in every environment that gives the
/// names in scope values of their types.
pub fn expressions_are_sound()
    ensures { ExpressionLaw }
{}

/// A well typed statement takes such an environment to one that gives the names in scope after it values of their types.
pub fn statements_are_sound()
    ensures { StatementLaw }
{}

/// In such an environment the length of an array is the number of its elements, and an element that is put is put whole.
pub fn nothing_is_cut()
    ensures { ArrayLaw }
{}

/// A well typed model gives results of their kinds at arguments that meet it: words below 2^32, bytes below 2^8, flags 0
/// or 1, and arrays as long as their parameters' arguments with elements of their kind.
pub fn models_are_sound()
    ensures { ModelLaw }
{}
