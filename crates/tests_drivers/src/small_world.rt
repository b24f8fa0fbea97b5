// The small world: a duplex challenger over the field of 257 elements, that field as its own extension, and a separator
// without chunks. Right after the seed, whatever the pattern is, it draws 2, 6, 8, 132, 134, 6.
use p3_challenger::fs::{
    DomainSeparator, FieldToFieldCodec, FieldUnit, Hierarchy, Interaction, InteractionPattern,
    Kind, Label, Length, ProverState, TranscriptError, VerifierState,
};
use p3_challenger::{CanSample, ChallengerError, DuplexChallenger};
use p3_field::{F257, PrimeCharacteristicRing, PrimeField64};
use p3_symmetric::{Sha256Hasher, Turn};
use std::alloc::Global;

/// The challenger: three cells, of which two are the rate.
pub type World = DuplexChallenger<F257, Turn<2>, 3, 2>;

/// Byte strings are elements: their length, and each byte.
pub type Alphabet = FieldUnit<F257>;

/// An element is observed as it is, and is two bytes in the proof.
pub type Scalars = FieldToFieldCodec<F257>;

/// What a transcript of the world begins with.
pub type Separator = DomainSeparator<Alphabet, Sha256Hasher>;

/// A prover of the world, over its challenger or one that is lent.
pub type Prover<C> = ProverState<C, Alphabet, Sha256Hasher>;

/// A verifier of the world, over its challenger or one that is lent.
pub type Verifier<'a, C> = VerifierState<'a, C, Alphabet, Sha256Hasher>;

/// The challenger that observed nothing yet.
pub fn world() -> World {
    DuplexChallenger::new(Turn, 10)
}

/// The element of a number.
pub fn element(number: u64) -> F257 {
    F257::from_u64(number)
}

/// The separator of a protocol of these steps.
pub fn separator(alloc: Global, steps: Vec<Interaction>) -> Result<Separator, TranscriptError> {
    let pattern = InteractionPattern::new(steps)?;
    DomainSeparator::new(alloc, 1, b"world", pattern)
}

/// The number of the next element that a challenger draws.
pub fn drawn<C: CanSample<F257>>(challenger: &mut C) -> Result<u64, ChallengerError> {
    Ok(challenger.sample()?.as_canonical_u64())
}

/// The step of elements of the field.
pub fn scalars(kind: Kind, label: Label, length: Length) -> Interaction {
    Interaction::algebra::<F257, F257, Sha256Hasher>(Hierarchy::Atomic, kind, label, length)
}

/// The step that draws one scalar.
pub fn challenge() -> Interaction {
    scalars(Kind::Challenge, "c", Length::Scalar)
}
