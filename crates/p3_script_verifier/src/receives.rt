//! The steps that a verifier reads.
ghost use Rattle.std.specs.Prelude.{None};
ghost use Rattle.p3_script_verifier.specs.VerifierAnswers.{AnswersStep};

use crate::answer::Answer;
use p3_challenger_core::{CanObserve, Sponge};
use p3_codecs::{Codec, ExtensionFieldCodec, Unit};
use p3_drivers::VerifierState;
use p3_fs_core::{Label, TranscriptError};
use p3_script::{Meaning, Received, Step, Suite, unbound};
use p3_step_laws::{read_bytes_are_encoded, read_hints_are_encoded, read_values_are_encoded};
use std::alloc::Global;

// Reads so many bytes of salt.
pub(crate) fn receive_salt<'a, S: Suite>(
    verifier: &mut VerifierState<'a, S::Challenger, S::Unit, S::Digest>,
    label: Label,
    len: usize,
) -> Result<Answer<'a, S>, TranscriptError>
    ensures { AnswersStep (⟦<S as Meaning>⟧.rules S.Field.DIMENSION) S.Challenger.state
        (Step.Salt label.entry len) None verifier.old result verifier.new }
{
    read_bytes_are_encoded::<S::Unit, S::Challenger>();
    let _unread = verifier.unread();
    let bytes = verifier.next_salt(label, len)?;
    Ok((Some(Received::Bytes(bytes)), None))
}

// Reads so many bytes.
pub(crate) fn receive_bytes<'a, S: Suite>(
    verifier: &mut VerifierState<'a, S::Challenger, S::Unit, S::Digest>,
    label: Label,
    len: usize,
) -> Result<Answer<'a, S>, TranscriptError>
    ensures { AnswersStep (⟦<S as Meaning>⟧.rules S.Field.DIMENSION) S.Challenger.state
        (Step.Bytes label.entry len) None verifier.old result verifier.new }
{
    read_bytes_are_encoded::<S::Unit, S::Challenger>();
    let _unread = verifier.unread();
    let bytes = verifier.next_bytes(label, len)?;
    Ok((Some(Received::Bytes(bytes)), None))
}

// Reads at most so many bytes, after their count.
pub(crate) fn receive_counted_bytes<'a, S: Suite>(
    verifier: &mut VerifierState<'a, S::Challenger, S::Unit, S::Digest>,
    label: Label,
    max: usize,
) -> Result<Answer<'a, S>, TranscriptError>
    ensures { AnswersStep (⟦<S as Meaning>⟧.rules S.Field.DIMENSION) S.Challenger.state
        (Step.BytesBounded label.entry max) None verifier.old result verifier.new }
{
    read_bytes_are_encoded::<S::Unit, S::Challenger>();
    let _unread = verifier.unread();
    let bytes = verifier.next_bytes_bounded(label, max)?;
    Ok((Some(Received::Bytes(bytes)), None))
}

// Reads so many bytes that the challenger takes no part in.
pub(crate) fn receive_hint<'a, S: Suite>(
    verifier: &mut VerifierState<'a, S::Challenger, S::Unit, S::Digest>,
    label: Label,
    len: usize,
) -> Result<Answer<'a, S>, TranscriptError>
    ensures { AnswersStep (⟦<S as Meaning>⟧.rules S.Field.DIMENSION) S.Challenger.state
        (Step.Hint label.entry len) None verifier.old result verifier.new }
{
    read_hints_are_encoded::<S::Challenger>();
    let _unread = verifier.unread();
    let bytes = verifier.next_hint(label, len)?;
    Ok((Some(Received::Bytes(bytes)), None))
}

// Reads at most so many of them, after their count.
pub(crate) fn receive_counted_hint<'a, S: Suite>(
    verifier: &mut VerifierState<'a, S::Challenger, S::Unit, S::Digest>,
    label: Label,
    max: usize,
) -> Result<Answer<'a, S>, TranscriptError>
    ensures { AnswersStep (⟦<S as Meaning>⟧.rules S.Field.DIMENSION) S.Challenger.state
        (Step.HintBounded label.entry max) None verifier.old result verifier.new }
{
    read_hints_are_encoded::<S::Challenger>();
    let _unread = verifier.unread();
    let bytes = verifier.next_hint_bounded(label, max)?;
    Ok((Some(Received::Bytes(bytes)), None))
}

// Reads one scalar.
pub(crate) fn receive_scalar<'a, S: Suite>(
    verifier: &mut VerifierState<'a, S::Challenger, S::Unit, S::Digest>,
    label: Label,
) -> Result<Answer<'a, S>, TranscriptError>
    ensures { AnswersStep (⟦<S as Meaning>⟧.rules S.Field.DIMENSION) S.Challenger.state
        (Step.Scalar label.entry) None verifier.old result verifier.new }
{
    read_values_are_encoded::<S::Field, S::Unit, S::Challenger, S::Codec>();
    let _unread = verifier.unread();
    let bound = verifier.next_scalar::<S::Field, S::Codec>(label)?;
    Ok((Some(Received::Scalar(bound.into_inner())), None))
}

// Reads one element of the extension.
pub(crate) fn receive_extension<'a, S: Suite>(
    verifier: &mut VerifierState<'a, S::Challenger, S::Unit, S::Digest>,
    label: Label,
) -> Result<Answer<'a, S>, TranscriptError>
    ensures { AnswersStep (⟦<S as Meaning>⟧.rules S.Field.DIMENSION) S.Challenger.state
        (Step.Extension label.entry) None verifier.old result verifier.new }
{
    read_values_are_encoded::<
        S::Extension,
        S::Unit,
        S::Challenger,
        ExtensionFieldCodec<S::Field, S::Extension, S::Codec>,
    >();
    let _unread = verifier.unread();
    let bound = verifier.next_extension::<S::Field, S::Extension, S::Codec>(label)?;
    Ok((Some(Received::Extension(bound.into_inner())), None))
}

// Reads so many scalars.
pub(crate) fn receive_scalars<'a, S: Suite>(
    alloc: Global,
    verifier: &mut VerifierState<'a, S::Challenger, S::Unit, S::Digest>,
    label: Label,
    n: usize,
) -> Result<Answer<'a, S>, TranscriptError>
    ensures { AnswersStep (⟦<S as Meaning>⟧.rules S.Field.DIMENSION) S.Challenger.state
        (Step.Scalars label.entry n) None verifier.old result verifier.new }
{
    read_values_are_encoded::<S::Field, S::Unit, S::Challenger, S::Codec>();
    let _unread = verifier.unread();
    let bounds = verifier.next_scalars::<S::Field, S::Codec>(label, n)?;
    let values = unbound(alloc, verifier, bounds)?;
    Ok((Some(Received::Scalars(values)), None))
}

// Reads at most so many scalars, after their count.
pub(crate) fn receive_counted_scalars<'a, S: Suite>(
    alloc: Global,
    verifier: &mut VerifierState<'a, S::Challenger, S::Unit, S::Digest>,
    label: Label,
    max: usize,
) -> Result<Answer<'a, S>, TranscriptError>
    ensures { AnswersStep (⟦<S as Meaning>⟧.rules S.Field.DIMENSION) S.Challenger.state
        (Step.ScalarsBounded label.entry max) None verifier.old result verifier.new }
{
    read_values_are_encoded::<S::Field, S::Unit, S::Challenger, S::Codec>();
    let _unread = verifier.unread();
    let bounds = verifier.next_scalars_bounded::<S::Field, S::Codec>(label, max)?;
    let values = unbound(alloc, verifier, bounds)?;
    Ok((Some(Received::Scalars(values)), None))
}
