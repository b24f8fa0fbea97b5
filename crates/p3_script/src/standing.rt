//! Where the value of a step stands.
ghost use Rattle.p3_script.specs.{Scripts.play_of, Standings.StandsSo};

use crate::steps::Step;
use crate::suite::{Meaning, Suite};
use p3_challenger_core::Sponge;

/// Says where the value of a step stands. Not in the Rust crate.
#[derive(Clone, Copy, Debug)]
pub enum Standing {
    /// The step has no value.
    Nowhere,
    /// The prover is handed the value, and the proof carries it.
    Sent,
    /// The value is a witness that the prover finds, and the proof carries it.
    Found,
    /// The value is a witness that the prover finds, and the caller carries it to the verifier.
    Carried,
}

/// Returns where the value of the step stands. Not in the Rust crate.
pub fn standing_of<S: Suite>(step: &Step<S>) -> Standing
    ensures { StandsSo (play_of (⟦<S as Meaning>⟧.rules S.Field.DIMENSION) step.now) result }
{
    match step {
        Step::Begin { .. } => Standing::Nowhere,
        Step::End { .. } => Standing::Nowhere,
        Step::Salt { .. } => Standing::Sent,
        Step::Bytes { .. } => Standing::Sent,
        Step::Hint { .. } => Standing::Sent,
        Step::BytesBounded { .. } => Standing::Sent,
        Step::HintBounded { .. } => Standing::Sent,
        Step::PublicScalar { .. } => Standing::Nowhere,
        Step::PublicScalars { .. } => Standing::Nowhere,
        Step::PublicScalarsBounded { .. } => Standing::Nowhere,
        Step::Scalar { .. } => Standing::Sent,
        Step::Scalars { .. } => Standing::Sent,
        Step::ScalarsBounded { .. } => Standing::Sent,
        Step::Extension { .. } => Standing::Sent,
        Step::ObserveExtension { .. } => Standing::Nowhere,
        Step::ObserveExtensions { .. } => Standing::Nowhere,
        Step::ObserveExtensionsBounded { .. } => Standing::Nowhere,
        Step::Opaque { .. } => Standing::Nowhere,
        Step::ChallengeScalar { .. } => Standing::Nowhere,
        Step::ChallengeScalars { .. } => Standing::Nowhere,
        Step::ChallengeExtension { .. } => Standing::Nowhere,
        Step::ChallengeExtensions { .. } => Standing::Nowhere,
        Step::ChallengeExtensionsRejecting { .. } => Standing::Nowhere,
        Step::ChallengeBits { .. } => Standing::Nowhere,
        Step::ChallengeUniformBits { .. } => Standing::Nowhere,
        Step::ChallengeUniformBitsRejecting { .. } => Standing::Nowhere,
        Step::Pow { .. } => Standing::Found,
        Step::ObservePow { .. } => Standing::Carried,
    }
}
