//! Proof of work, on the verifier's side.
ghost use Rattle.std.specs.Prelude.{◌≤◌, None, Some, IsTrue};
ghost use Rattle.p3_script_verifier.specs.VerifierAnswers.{AnswersStep};

use crate::answer::Answer;
use p3_challenger_core::Sponge;
use p3_drivers::VerifierState;
use p3_fs_core::{Label, TranscriptError, TranscriptField};
use p3_script::{Meaning, Received, Step, StepGroup, Suite};

// Reads a witness, and checks it.
pub(crate) fn receive_witness<'a, S: Suite>(
    verifier: &mut VerifierState<'a, S::Challenger, S::Unit, S::Digest>,
    label: Label,
    bits: usize,
) -> Result<Answer<'a, S>, TranscriptError>
    requires has { IsTrue S.Group.HAS_POW }
    requires within { bits ≤ S.Group.most_bits }
    ensures { AnswersStep (⟦<S as Meaning>⟧.rules S.Field.DIMENSION) S.Challenger.state
        (Step.Pow label.entry bits) None verifier.old result verifier.new }
{
    S::Group::steps_are_lawful();
    let unread = verifier.unread();
    S::Group::check_pow(verifier, label, bits)?;
    let witness = <S::Field as TranscriptField>::decode(unread)?;
    Ok((Some(Received::Witness(witness)), None))
}

// Checks a witness that the caller carries.
pub(crate) fn check_carried<'a, S: Suite>(
    verifier: &mut VerifierState<'a, S::Challenger, S::Unit, S::Digest>,
    label: Label,
    bits: usize,
    witness: S::Field,
) -> Result<Answer<'a, S>, TranscriptError>
    requires has { IsTrue S.Group.HAS_POW }
    requires within { bits ≤ S.Group.most_bits }
    ensures { AnswersStep (⟦<S as Meaning>⟧.rules S.Field.DIMENSION) S.Challenger.state
        (Step.ObservePow label.entry bits) (Some witness) verifier.old result verifier.new }
{
    S::Group::check_carried_pow(verifier, label, bits, witness)?;
    Ok((None, None))
}
