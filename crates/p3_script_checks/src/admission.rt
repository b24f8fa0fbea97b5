//! Whether a suite can play the steps of a script.
ghost use Rattle.std.specs.Prelude.{◌↔◌, ◌≤◌, IsTrue};
ghost use Rattle.p3_runs.specs.Runs.{AreAdmitted};
ghost use Rattle.p3_script.specs.Scripts.{play_of};

use p3_challenger_core::Sponge;
use p3_codecs::{Codec, MIN_CHALLENGE_SECURITY_BITS};
use p3_script::{Meaning, Step, StepGroup, Suite};

/// Returns whether the suite can play each step, as [`step_admitted`] says.
///
/// The functions that play a script require this of its steps. Not in the Rust crate.
pub fn admitted<S: Suite>(steps: &[Step<S>]) -> bool
    ensures { let rules = ⟦<S as Meaning>⟧.rules S.Field.DIMENSION in
        IsTrue result ↔ AreAdmitted (play_of rules) steps.now }
{
    for step in steps {
        if !step_admitted(step) {
            return false;
        }
    }
    true
}

/// Returns whether the suite can play the step. The suite's group has to have the step. A draw or a proof of work has at
/// most as many bits as the challenger draws at once. A limit is at least 1. Where a step draws through the codec, the
/// codec has at least 128 bits of security.
///
/// The functions that play one step require this of it. Not in the Rust crate.
pub fn step_admitted<S: Suite>(step: &Step<S>) -> bool
    ensures { let rules = ⟦<S as Meaning>⟧.rules S.Field.DIMENSION in
        IsTrue result ↔ (play_of rules step.now).admitted }
{
    match step {
        Step::Begin { .. } => true,
        Step::End { .. } => true,
        Step::Salt { .. } => true,
        Step::Bytes { .. } => true,
        Step::Hint { .. } => true,
        Step::BytesBounded { .. } => true,
        Step::HintBounded { .. } => true,
        Step::PublicScalar { .. } => true,
        Step::PublicScalars { .. } => true,
        Step::PublicScalarsBounded { .. } => true,
        Step::Scalar { .. } => true,
        Step::Scalars { .. } => true,
        Step::ScalarsBounded { .. } => true,
        Step::Extension { .. } => true,
        Step::ObserveExtension { .. } => true,
        Step::ObserveExtensions { .. } => true,
        Step::ObserveExtensionsBounded { .. } => true,
        Step::Opaque { .. } => true,
        Step::ChallengeScalar { .. } => is_secure::<S>(),
        Step::ChallengeScalars { .. } => is_secure::<S>(),
        Step::ChallengeExtension { .. } => is_secure::<S>(),
        Step::ChallengeExtensions { .. } => is_secure::<S>(),
        Step::ChallengeExtensionsRejecting { limit, .. } => is_secure::<S>() && *limit >= 1,
        Step::ChallengeBits { width, .. } => S::Group::HAS_POW && draws_at_once::<S>(*width),
        Step::ChallengeUniformBits { width, .. } => {
            S::Group::HAS_UNIFORM && draws_at_once::<S>(*width)
        }
        Step::ChallengeUniformBitsRejecting { width, limit, .. } => {
            S::Group::HAS_UNIFORM && draws_at_once::<S>(*width) && *limit >= 1
        }
        Step::Pow { bits, .. } => S::Group::HAS_POW && draws_at_once::<S>(*bits),
        Step::ObservePow { bits, .. } => S::Group::HAS_POW && draws_at_once::<S>(*bits),
    }
}

// The codec has at least as many bits of security as a challenge wants.
fn is_secure<S: Suite>() -> bool
    ensures { IsTrue result ↔ 128 ≤ S.Codec.SECURITY_BITS }
{
    S::Codec::SECURITY_BITS >= MIN_CHALLENGE_SECURITY_BITS
}

// The challenger draws so many bits at once.
fn draws_at_once<S: Suite>(bits: usize) -> bool
    ensures { IsTrue result ↔ bits ≤ S.Group.most_bits }
{
    bits <= S::Group::max_bits()
}
