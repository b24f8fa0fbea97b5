//! The traits of challengers: prover and verifier observe the same messages, and sample the same random
//! challenges.
//!
//! The traits say what each challenger promises. The challengers themselves are in crates that depend on
//! this one.
//!
//! A law is a function without effect whose contract a caller cites. The Rust crate has none.
#![tactic(auto)]

mod arrays;
mod challenger;
mod error;
mod field_challenger;
mod forward;
mod segments;

pub use arrays::{array_has_places, sample_array};
pub use challenger::{CanFinalizeDigest, CanObserve, CanSample, CanSampleBits, Sponge};
pub use error::ChallengerError;
pub use field_challenger::FieldChallenger;
pub use segments::calls_have_one_cut;
