//! The errors of a prover that asks for its values.
use p3_script::Fault;
use std::fmt::Display;
use thiserror::Error;

/// Says why [`prove_by`](crate::prove_by) stopped, and at which step. Not in the Rust crate.
///
/// The position of a step is its index in the script.
#[derive(Debug, PartialEq, Drop, Error)]
#[error_bound(E: Display)]
pub enum ProveByError<E> {
    /// The script is refused for the values answered so far, whatever the later ones are, as
    /// [`prove`](p3_script_prover::prove) refuses it.
    #[error(transparent)]
    Refused(Fault),
    /// The closure returned an error for the step.
    #[error("step {position}: no value: {error}")]
    Unanswered {
        /// The position of the step.
        position: usize,
        /// The error that the closure returned.
        error: E,
    },
    /// The answer for the step is not of its type or, where the step fixes a length, not of that length.
    #[error("step {position}: the value does not fit the step")]
    Unfit {
        /// The position of the step.
        position: usize,
    },
}
