//! What holds of code over places.
ghost use Rattle.reg_alloc.specs.Kept.{PlacesKeep};

/// Where a plan serves a code, the code over places ends as the code over variables does: with the same fuel, memory and
/// ticks, and with each result that is set in its place.
pub fn places_keep()
    ensures { PlacesKeep }
{}
