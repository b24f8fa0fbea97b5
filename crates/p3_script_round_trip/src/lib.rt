//! A verifier accepts each proof that a prover makes of a script.
#![tactic(auto)]

mod round_trip;

pub use round_trip::{prove_and_verify, verify_proved};
