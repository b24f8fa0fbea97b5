//! A round of a sumcheck.

/// A round: the pair that was sent, and the challenge that was drawn after it.
#[derive(Clone, Copy, Debug, PartialEq, Eq)]
pub struct Round<F> {
    /// The prover's value for the sum of the table's first half.
    pub first: F,
    /// The prover's value for the sum of the second half.
    pub second: F,
    /// The element at which the table is folded.
    pub challenge: F,
}
