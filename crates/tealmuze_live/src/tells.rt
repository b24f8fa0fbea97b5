//! What is told of a transcript.
ghost use Rattle.std.specs.Prelude.{ℕ, List};

/// What is told of one side of a transcript, of whichever suite.
pub trait Tells {
    // Of a request, to which these bytes are the answer: with the side as it was, and as it is then. The first number is by how
    // many coefficients a scalar has over its own field.
    ghost tells: { ℕ → Self → List ℕ → List ℕ → Self → Type 0 };
}
