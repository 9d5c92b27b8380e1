//! Running an image: arguments from the words of a command line, the state that a run starts from, and the results
//! of the state at its end.
#![tactic(auto)]

mod arguments;
mod digits;
mod judging;
pub mod laws;
mod loading;
mod reading;
mod results;

pub use digits::{behind, put_word};
pub use judging::{judge_size, symbol_values};
pub use laws::{good_is_served, judged_is_met, loaded_is_ready, returned_is_machine};
pub use loading::{RETURN_ADDRESS, load};
pub use reading::{ArgsFail, read_args};
pub use results::{print_results, read_results};

#[cfg(test)]
mod tests;
