//! The two drivers of a transcript: one state over a proof that a prover writes and a verifier reads.
#![tactic(auto)]

mod driver;
mod tape;
mod writing;

pub use driver::{DriverState, ProverState, VerifierState};
pub use tape::{Tape, Unread, Written};
