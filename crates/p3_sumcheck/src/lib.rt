//! Sumcheck over a table of values, played step by step on both drivers of a typed transcript.
//!
//! The claim is the sum of a table of `2^n` values. In each of `n` rounds the prover sends the sums
//! of the table's two halves, and a challenge is drawn. The prover folds the table at the
//! challenge, to half as many values. The verifier checks that the two sums add up to its claim,
//! and computes its next claim from them and the challenge. The last claim is on one value, that of
//! the table folded at all challenges. The caller, who knows the table or a commitment to it, has
//! to check that value.
//!
//! [`declare`] records the steps, and [`prove`] and [`verify`] play them. A false claim survives
//! only through a round whose challenge gives two different pairs the same claim: a clause of
//! [`verify`].
#![tactic(auto)]

mod error;
mod pattern;
mod prover;
mod round;
mod table;
mod verifier;
mod view;

pub use error::SumcheckError;
pub use pattern::{declare, declared_rounds_are_next};
pub use prover::prove;
pub use round::Round;
pub use table::sum;
pub use verifier::verify;
pub use view::Sums;
