//! One step of a script, on the verifier's side.
ghost use Rattle.std.specs.Prelude.{None};
ghost use Rattle.p3_runs.specs.Stepping.{IsCarriedTo};
ghost use Rattle.p3_script.specs.{Scripts.play_of, StepFamilies.SendsNothing};
ghost use Rattle.p3_script_verifier.specs.VerifierAnswers.{AnswersStep};

use crate::answer::Answer;
use crate::{known, receives, work};
use p3_challenger_core::Sponge;
use p3_drivers::VerifierState;
use p3_fs_core::TranscriptError;
use p3_script::{Meaning, Step, Suite, play_alike};
use std::alloc::Global;

/// Plays one step of a script on a verifier, and returns what is received and what is drawn.
///
/// The verifier calls the method for the step, and the errors are those of that method. Where memory for the results
/// is refused, the error is [`TranscriptError::OutOfMemory`]. After every refused step the verifier is finished.
///
/// Conditions: the step is admitted, and there is a witness exactly where the step is `ObservePow`. Not in the Rust
/// crate.
pub fn verifier_step<'a, S: Suite>(
    alloc: Global,
    verifier: &mut VerifierState<'a, S::Challenger, S::Unit, S::Digest>,
    step: &Step<S>,
    witness: Option<S::Field>,
) -> Result<Answer<'a, S>, TranscriptError>
    requires admitted { (play_of (⟦<S as Meaning>⟧.rules S.Field.DIMENSION) step.now).admitted }
    requires carried { let rules = ⟦<S as Meaning>⟧.rules S.Field.DIMENSION in
        IsCarriedTo (play_of rules step.now).place witness }
    ensures { AnswersStep (⟦<S as Meaning>⟧.rules S.Field.DIMENSION) S.Challenger.state
        step.now witness verifier.old result verifier.new }
{
    match step {
        Step::Salt { label, len } => receives::receive_salt(verifier, *label, *len),
        Step::Bytes { label, len } => receives::receive_bytes(verifier, *label, *len),
        Step::Hint { label, len } => receives::receive_hint(verifier, *label, *len),
        Step::BytesBounded { label, max } => {
            receives::receive_counted_bytes(verifier, *label, *max)
        }
        Step::HintBounded { label, max } => {
            receives::receive_counted_hint(verifier, *label, *max)
        }
        Step::Scalar { label } => receives::receive_scalar(verifier, *label),
        Step::Scalars { label, n } => receives::receive_scalars(alloc, verifier, *label, *n),
        Step::ScalarsBounded { label, max } => {
            receives::receive_counted_scalars(alloc, verifier, *label, *max)
        }
        Step::Extension { label } => receives::receive_extension(verifier, *label),
        Step::Pow { label, bits } => work::receive_witness(verifier, *label, *bits),
        Step::ObservePow { label, bits } => match witness {
            Some(carried) => work::check_carried(verifier, *label, *bits, carried),
            None => unreachable!(),
        },
        _ => unsent_step(alloc, verifier, step),
    }
}

// Plays a step of which nothing is sent.
fn unsent_step<'a, S: Suite>(
    alloc: Global,
    verifier: &mut VerifierState<'a, S::Challenger, S::Unit, S::Digest>,
    step: &Step<S>,
) -> Result<Answer<'a, S>, TranscriptError>
    requires family { SendsNothing step.now }
    requires admitted { (play_of (⟦<S as Meaning>⟧.rules S.Field.DIMENSION) step.now).admitted }
    ensures { AnswersStep (⟦<S as Meaning>⟧.rules S.Field.DIMENSION) S.Challenger.state
        step.now None verifier.old result verifier.new }
{
    match step {
        Step::PublicScalar { label, value } => known::public_scalar(verifier, *label, value),
        Step::PublicScalars { label, values } => known::public_scalars(verifier, *label, values),
        Step::PublicScalarsBounded { label, values, max } => {
            known::counted_public_scalars(verifier, *label, values, *max)
        }
        Step::ObserveExtensions { label, values } => known::extensions(verifier, *label, values),
        Step::ObserveExtensionsBounded { label, values, max } => {
            known::counted_extensions(verifier, *label, values, *max)
        }
        _ => {
            let drawn = play_alike(alloc, verifier, step)?;
            Ok((None, drawn))
        }
    }
}
