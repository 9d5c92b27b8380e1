//! The search of certificates: for a goal that is to be at least 0, the certificate that a fixed order finds first.
//! `side_certs` judges certificates; what is found here passes there.
#![tactic(auto)]

mod candidates;
mod difference;
pub mod laws;
mod search;

pub use laws::found_closes;
pub use search::find;

#[cfg(test)]
mod tests;
