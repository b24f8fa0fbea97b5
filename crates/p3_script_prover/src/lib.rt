//! Proving scripts, with all values at hand.
#![tactic(auto)]

mod proving;
mod sending;
mod stepping;

pub use proving::{Proved, prove};
pub use stepping::{Played, prover_step};
