//! Transcripts that a caller in C plays step by step: what each call answers.
//!
//! A side plays a protocol that is prepared, whose steps have to come in order. `docs/BINDINGS.md` says what the bytes of
//! a request and of an answer are. `tealmuze_c` exports the calls.
#![tactic(auto)]

mod live;
mod prover;
mod request;
mod side;
mod starts;
mod telling;
mod tells;
mod verifier;

pub use live::Live;
pub use prover::Prover;
pub use side::{NotBegun, Side};
pub use starts::Starts;
pub use tells::Tells;
pub use verifier::Verifier;
