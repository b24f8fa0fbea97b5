//! Proving scripts whose messages depend on the challenges.
//!
//! ```text
//! steps  ->  prove_by  ->  the proof, and the values
//!             |    ^
//!  challenges |    | value
//!             v    |
//!            answers
//! ```
//!
//! [`prove`](p3_script_prover::prove) is handed all values before it begins. [`prove_by`] is handed a closure, which
//! it asks for each value at its step. The closure sees everything drawn before: a FRI prover folds its layer by the
//! last challenge, and answers the Merkle root of the result.
//!
//! The contract holds for any closure, honest or not. The result is that of `prove` for the returned values, and the
//! closure returned each of them for exactly the challenges drawn before its step. Not in the Rust crate.
#![tactic(auto)]

mod answering;
mod asking;
mod errors;
mod playing;

pub use answering::{Answered, prove_by};
pub use errors::ProveByError;
