//! Verifying scripts: one step, and whole proofs.
#![tactic(auto)]

mod answer;
mod known;
mod receives;
mod stepping;
mod verifying;
mod work;

pub use answer::Answer;
pub use stepping::verifier_step;
pub use verifying::{Verified, verify};
