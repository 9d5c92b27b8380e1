//! Faults at their places.
ghost use Rattle.rup_base.specs.Answers.{Answers};
ghost use Rattle.model_syntax.specs.Types as spec;

use rup_base::{Fail, Refusal, TypePlace, TypeWhy};

/// A fault at a place.
pub fn at<T: Drop>(place: TypePlace, found: Result<T, TypeWhy>) -> Result<T, Fail>
    ensures { Answers result (spec.at place found) }
{
    match found {
        Ok(value) => Ok(value),
        Err(why) => Err(Fail::Refused(Refusal::IllTyped { place, why })),
    }
}
