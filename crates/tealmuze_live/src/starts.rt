//! A side at the start of its protocol.
ghost use Rattle.std.specs.Prelude.{ℕ, List, Option};

/// What one side of a transcript is before its first step, of whichever suite.
pub trait Starts {
    /// What it plays.
    type Played;

    // It stands at the start of what is played: the verifier of this proof, where there is one, and else a prover. The first
    // number is by how many coefficients a scalar has over its own field.
    ghost starts: { ℕ → Self.Played → Option (List ℕ) → Self → Type 0 };
}
