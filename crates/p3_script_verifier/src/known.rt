//! The steps whose value both sides know, and that a verifier plays in its own way.
ghost use Rattle.std.specs.Prelude.{None};
ghost use Rattle.p3_script_verifier.specs.VerifierAnswers.{AnswersStep};

use crate::answer::Answer;
use p3_challenger_core::Sponge;
use p3_drivers::VerifierState;
use p3_fs_core::{Label, TranscriptError};
use p3_script::{Meaning, Step, Suite};

// Observes a scalar that both sides know.
pub(crate) fn public_scalar<'a, S: Suite>(
    verifier: &mut VerifierState<'a, S::Challenger, S::Unit, S::Digest>,
    label: Label,
    value: &S::Field,
) -> Result<Answer<'a, S>, TranscriptError>
    ensures { AnswersStep (⟦<S as Meaning>⟧.rules S.Field.DIMENSION) S.Challenger.state
        (Step.PublicScalar label.entry value.now) None verifier.old result verifier.new }
{
    verifier.observe_public_scalar::<S::Field, S::Codec>(label, value)?;
    Ok((None, None))
}

// Observes scalars that both sides know.
pub(crate) fn public_scalars<'a, S: Suite>(
    verifier: &mut VerifierState<'a, S::Challenger, S::Unit, S::Digest>,
    label: Label,
    values: &Vec<S::Field>,
) -> Result<Answer<'a, S>, TranscriptError>
    ensures { AnswersStep (⟦<S as Meaning>⟧.rules S.Field.DIMENSION) S.Challenger.state
        (Step.PublicScalars label.entry values.now) None verifier.old result verifier.new }
{
    verifier.observe_public_scalars::<S::Field, S::Codec>(label, values)?;
    Ok((None, None))
}

// Observes at most so many scalars that both sides know, after their count.
pub(crate) fn counted_public_scalars<'a, S: Suite>(
    verifier: &mut VerifierState<'a, S::Challenger, S::Unit, S::Digest>,
    label: Label,
    values: &Vec<S::Field>,
    max: usize,
) -> Result<Answer<'a, S>, TranscriptError>
    ensures { AnswersStep (⟦<S as Meaning>⟧.rules S.Field.DIMENSION) S.Challenger.state
        (Step.PublicScalarsBounded label.entry values.now max) None verifier.old result
        verifier.new }
{
    verifier.observe_public_scalars_bounded::<S::Field, S::Codec>(label, values, max)?;
    Ok((None, None))
}

// Observes elements of the extension.
pub(crate) fn extensions<'a, S: Suite>(
    verifier: &mut VerifierState<'a, S::Challenger, S::Unit, S::Digest>,
    label: Label,
    values: &Vec<S::Extension>,
) -> Result<Answer<'a, S>, TranscriptError>
    ensures { AnswersStep (⟦<S as Meaning>⟧.rules S.Field.DIMENSION) S.Challenger.state
        (Step.ObserveExtensions label.entry values.now) None verifier.old result verifier.new }
{
    verifier.observe_extensions::<S::Field, S::Extension, S::Codec>(label, values)?;
    Ok((None, None))
}

// Observes at most so many elements of the extension, after their count.
pub(crate) fn counted_extensions<'a, S: Suite>(
    verifier: &mut VerifierState<'a, S::Challenger, S::Unit, S::Digest>,
    label: Label,
    values: &Vec<S::Extension>,
    max: usize,
) -> Result<Answer<'a, S>, TranscriptError>
    ensures { AnswersStep (⟦<S as Meaning>⟧.rules S.Field.DIMENSION) S.Challenger.state
        (Step.ObserveExtensionsBounded label.entry values.now max) None verifier.old result
        verifier.new }
{
    verifier.observe_extensions_bounded::<S::Field, S::Extension, S::Codec>(label, values, max)?;
    Ok((None, None))
}
