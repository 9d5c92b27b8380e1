//! What holds of contexts and states.
ghost use Rattle.sym_heap.specs.Arrival.{StartFits};
ghost use Rattle.sym_heap.specs.Moves.{CallsMove};
ghost use Rattle.sym_heap.specs.Rehearsal.{LoopsRehearsed};
ghost use Rattle.sym_heap.specs.Scoped.{StartIsScoped, CallsAreScoped, EndsAreScoped};
ghost use Rattle.sym_heap.specs.Turns.{TurnsFit};
ghost use Rattle.sym_heap.specs.Writes.{WritesFit};

/// Where the arguments meet the model and stand in locals and memory as they should, the context at the start fits,
/// with the arguments' numbers for the entry symbols.
pub fn start_fits()
    ensures { StartFits }
{}

/// The context at the start of a well typed model says of names what the scope of its parameters does.
pub fn start_is_scoped()
    ensures { StartIsScoped }
{}

/// What each call makes of a context says of names what the scope after it does.
pub fn calls_are_scoped()
    ensures { CallsAreScoped }
{}

/// What the calls make of a context, whatever the state: arrays follow one another by their parameters, and what is bound
/// is not reserved, or was there before.
pub fn calls_move()
    ensures { CallsMove }
{}

/// A context fits after a write to an array as it did before, so that a loop's context fits at its second turn.
pub fn writes_fit()
    ensures { WritesFit }
{}

/// What the ends of blocks make of a context says of names what the scope after them does.
pub fn ends_are_scoped()
    ensures { EndsAreScoped }
{}

/// The context at the start of a loop's block fits in every turn, whatever the turns before have written, and the context after
/// the loop fits when none is left.
pub fn turns_fit()
    ensures { TurnsFit }
{}

/// The context at the start of a model says of names what its scope does and fits each call, and from there a loop that writes
/// to a listed array goes round.
pub fn loops_rehearsed()
    ensures { LoopsRehearsed }
{}
