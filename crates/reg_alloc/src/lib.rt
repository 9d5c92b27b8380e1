//! Where the variables of three-address code live: in registers, or in slots of the stack frame.
#![tactic(auto)]

mod allocation;
mod checking;
pub mod laws;
mod marks;
mod places;
mod plan;
mod sharing;
mod uses;
mod visit;
mod watch;

pub use allocation::allocate;
pub use checking::{check_plan, live, live_arguments};
pub use laws::places_keep;
pub use plan::{At, Live, Plan};

#[cfg(test)]
mod tests;
