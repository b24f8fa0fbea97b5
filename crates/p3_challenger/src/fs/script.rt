//! Scripts: a protocol as a list of steps, which one call plays on either side.
//!
//! ```text
//! steps, values     ->  prove   ->  the proof
//! steps, the proof  ->  verify  ->  the values, the challenges
//! ```
//!
//! A [`Suite`] names the types that play together. Where a value depends on a challenge, [`prove_by`] asks for the
//! value at its step. [`prover_step`] and [`verifier_step`] play a single step of either side. The law
//! [`proofs_have_one_run`] says that bytes are a proof of at most one run. The law [`binding`] says how the symbols
//! fed to the challenger bind the run. Not in the Rust crate.

pub use p3_binding::binding;
pub use p3_script::{
    AcceptAll, AcceptRule, BitsPow, Both, Distinct, Drawn, Fault, Meaning, Plain, Received, Sent,
    Step, StepGroup, Suite, proofs_have_one_run,
};
pub use p3_script_answers::{Answered, ProveByError, prove_by};
pub use p3_script_checks::{
    admitted, carried_len, fits, pattern, sent_matches, step_admitted, step_matches,
};
pub use p3_script_prover::{Played, Proved, prove, prover_step};
pub use p3_script_round_trip::{prove_and_verify, verify_proved};
pub use p3_script_verifier::{Answer, Verified, verifier_step, verify};
