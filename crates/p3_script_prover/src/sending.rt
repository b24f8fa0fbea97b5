//! The steps that a prover plays in its own way.
ghost use Rattle.std.specs.Prelude.{◌≡◌, ◌≤◌, ◌++◌, List, ℕ, IsTrue};
ghost use Rattle.p3_fs_core.specs.Scalar.{encoding};
ghost use Rattle.p3_runs.specs.{Plays.{Any, HasLength}, Values.{bytes_in, scalar_in, scalars_in, extension_in}};
ghost use Rattle.p3_runs.specs.Plays.{holds_some};
ghost use Rattle.p3_script_prover.specs.ProverAnswers.{PlaysHanded, PlaysUnhanded, value_given};

use crate::stepping::Played;
use p3_challenger_core::Sponge;
use p3_codecs::{Codec, ExtensionFieldCodec};
use p3_drivers::ProverState;
use p3_fs_core::{Label, PatternError, TranscriptError, TranscriptField};
use p3_script::{Meaning, Sent, Step, StepGroup, Suite};

// Adds a scalar that both sides know.
pub(crate) fn add_public_scalar<S: Suite>(
    prover: &mut ProverState<S::Challenger, S::Unit, S::Digest>,
    label: Label,
    scalar: &S::Field,
) -> Result<Played<S>, TranscriptError>
    ensures { PlaysUnhanded (⟦<S as Meaning>⟧.rules S.Field.DIMENSION) S.Challenger.state
        (Step.PublicScalar label.entry scalar.now) prover.old result prover.new }
{
    let _bound = prover.add_public_scalar::<S::Field, S::Codec>(label, scalar)?;
    Ok((None, None))
}

// Adds scalars that both sides know.
pub(crate) fn add_public_scalars<S: Suite>(
    prover: &mut ProverState<S::Challenger, S::Unit, S::Digest>,
    label: Label,
    scalars: &Vec<S::Field>,
) -> Result<Played<S>, TranscriptError>
    ensures { PlaysUnhanded (⟦<S as Meaning>⟧.rules S.Field.DIMENSION) S.Challenger.state
        (Step.PublicScalars label.entry scalars.now) prover.old result prover.new }
{
    let _bounds = prover.add_public_scalars::<S::Field, S::Codec>(label, scalars)?;
    Ok((None, None))
}

// Adds at most so many scalars that both sides know, after their count.
pub(crate) fn add_public_scalars_bounded<S: Suite>(
    prover: &mut ProverState<S::Challenger, S::Unit, S::Digest>,
    label: Label,
    scalars: &Vec<S::Field>,
    max: usize,
) -> Result<Played<S>, TranscriptError>
    ensures { PlaysUnhanded (⟦<S as Meaning>⟧.rules S.Field.DIMENSION) S.Challenger.state
        (Step.PublicScalarsBounded label.entry scalars.now max) prover.old result prover.new }
{
    let _bounds = prover.add_public_scalars_bounded::<S::Field, S::Codec>(label, scalars, max)?;
    Ok((None, None))
}

// Observes elements of the extension that the proof does not carry.
pub(crate) fn observe_extensions<S: Suite>(
    prover: &mut ProverState<S::Challenger, S::Unit, S::Digest>,
    label: Label,
    elements: &Vec<S::Extension>,
) -> Result<Played<S>, TranscriptError>
    ensures { PlaysUnhanded (⟦<S as Meaning>⟧.rules S.Field.DIMENSION) S.Challenger.state
        (Step.ObserveExtensions label.entry elements.now) prover.old result prover.new }
{
    let _bounds = prover.observe_extensions::<S::Field, S::Extension, S::Codec>(label, elements)?;
    Ok((None, None))
}

// Observes at most so many elements of the extension that the proof does not carry.
pub(crate) fn observe_extensions_bounded<S: Suite>(
    prover: &mut ProverState<S::Challenger, S::Unit, S::Digest>,
    label: Label,
    elements: &Vec<S::Extension>,
    max: usize,
) -> Result<Played<S>, TranscriptError>
    ensures { PlaysUnhanded (⟦<S as Meaning>⟧.rules S.Field.DIMENSION) S.Challenger.state
        (Step.ObserveExtensionsBounded label.entry elements.now max) prover.old result prover.new }
{
    let _bounds = prover.observe_extensions_bounded::<S::Field, S::Extension, S::Codec>(
        label, elements, max,
    )?;
    Ok((None, None))
}

// Sends so many bytes that hide what is sent later.
pub(crate) fn add_salt<S: Suite>(
    prover: &mut ProverState<S::Challenger, S::Unit, S::Digest>,
    label: Label,
    sent: Option<&Sent<S>>,
    len: usize,
) -> Result<Played<S>, TranscriptError>
    requires { holds_some (HasLength len) (bytes_in (value_given sent)) }
    ensures { PlaysHanded (⟦<S as Meaning>⟧.rules S.Field.DIMENSION) S.Challenger.state
        (Step.Salt label.entry len) sent.entry prover.old result prover.new }
{
    let Some(Sent::Bytes(bytes)) = sent else {
        unreachable!();
    };
    prover.add_salt(label, bytes)?;
    Ok((None, None))
}

// Sends so many bytes.
pub(crate) fn add_bytes<S: Suite>(
    prover: &mut ProverState<S::Challenger, S::Unit, S::Digest>,
    label: Label,
    sent: Option<&Sent<S>>,
    len: usize,
) -> Result<Played<S>, TranscriptError>
    requires { holds_some (HasLength len) (bytes_in (value_given sent)) }
    ensures { PlaysHanded (⟦<S as Meaning>⟧.rules S.Field.DIMENSION) S.Challenger.state
        (Step.Bytes label.entry len) sent.entry prover.old result prover.new }
{
    let Some(Sent::Bytes(bytes)) = sent else {
        unreachable!();
    };
    prover.add_bytes(label, bytes)?;
    Ok((None, None))
}

// Sends so many bytes, in which the challenger takes no part.
pub(crate) fn add_hint<S: Suite>(
    prover: &mut ProverState<S::Challenger, S::Unit, S::Digest>,
    label: Label,
    sent: Option<&Sent<S>>,
    len: usize,
) -> Result<Played<S>, TranscriptError>
    requires { holds_some (HasLength len) (bytes_in (value_given sent)) }
    ensures { PlaysHanded (⟦<S as Meaning>⟧.rules S.Field.DIMENSION) S.Challenger.state
        (Step.Hint label.entry len) sent.entry prover.old result prover.new }
{
    let Some(Sent::Bytes(bytes)) = sent else {
        unreachable!();
    };
    prover.add_hint(label, bytes)?;
    Ok((None, None))
}

// Sends at most so many bytes.
pub(crate) fn add_bytes_bounded<S: Suite>(
    prover: &mut ProverState<S::Challenger, S::Unit, S::Digest>,
    label: Label,
    sent: Option<&Sent<S>>,
    max: usize,
) -> Result<Played<S>, TranscriptError>
    requires { holds_some Any (bytes_in (value_given sent)) }
    ensures { PlaysHanded (⟦<S as Meaning>⟧.rules S.Field.DIMENSION) S.Challenger.state
        (Step.BytesBounded label.entry max) sent.entry prover.old result prover.new }
{
    let Some(Sent::Bytes(bytes)) = sent else {
        unreachable!();
    };
    prover.add_bytes_bounded(label, bytes, max)?;
    Ok((None, None))
}

// Sends at most so many bytes, in which the challenger takes no part.
pub(crate) fn add_hint_bounded<S: Suite>(
    prover: &mut ProverState<S::Challenger, S::Unit, S::Digest>,
    label: Label,
    sent: Option<&Sent<S>>,
    max: usize,
) -> Result<Played<S>, TranscriptError>
    requires { holds_some Any (bytes_in (value_given sent)) }
    ensures { PlaysHanded (⟦<S as Meaning>⟧.rules S.Field.DIMENSION) S.Challenger.state
        (Step.HintBounded label.entry max) sent.entry prover.old result prover.new }
{
    let Some(Sent::Bytes(bytes)) = sent else {
        unreachable!();
    };
    prover.add_hint_bounded(label, bytes, max)?;
    Ok((None, None))
}

// Sends one scalar.
pub(crate) fn add_scalar<S: Suite>(
    prover: &mut ProverState<S::Challenger, S::Unit, S::Digest>,
    label: Label,
    sent: Option<&Sent<S>>,
) -> Result<Played<S>, TranscriptError>
    requires { holds_some Any (scalar_in (value_given sent)) }
    ensures { PlaysHanded (⟦<S as Meaning>⟧.rules S.Field.DIMENSION) S.Challenger.state
        (Step.Scalar label.entry) sent.entry prover.old result prover.new }
{
    let Some(Sent::Scalar(scalar)) = sent else {
        unreachable!();
    };
    let _bound = prover.add_scalar::<S::Field, S::Codec>(label, scalar)?;
    Ok((None, None))
}

// Sends so many scalars.
pub(crate) fn add_scalars<S: Suite>(
    prover: &mut ProverState<S::Challenger, S::Unit, S::Digest>,
    label: Label,
    sent: Option<&Sent<S>>,
    n: usize,
) -> Result<Played<S>, TranscriptError>
    requires { holds_some (HasLength n) (scalars_in (value_given sent)) }
    ensures { PlaysHanded (⟦<S as Meaning>⟧.rules S.Field.DIMENSION) S.Challenger.state
        (Step.Scalars label.entry n) sent.entry prover.old result prover.new }
{
    let Some(Sent::Scalars(scalars)) = sent else {
        unreachable!();
    };
    let _bounds = prover.add_scalars::<S::Field, S::Codec>(label, scalars)?;
    Ok((None, None))
}

// Sends at most so many scalars.
pub(crate) fn add_scalars_bounded<S: Suite>(
    prover: &mut ProverState<S::Challenger, S::Unit, S::Digest>,
    label: Label,
    sent: Option<&Sent<S>>,
    max: usize,
) -> Result<Played<S>, TranscriptError>
    requires { holds_some Any (scalars_in (value_given sent)) }
    ensures { PlaysHanded (⟦<S as Meaning>⟧.rules S.Field.DIMENSION) S.Challenger.state
        (Step.ScalarsBounded label.entry max) sent.entry prover.old result prover.new }
{
    let Some(Sent::Scalars(scalars)) = sent else {
        unreachable!();
    };
    let _bounds = prover.add_scalars_bounded::<S::Field, S::Codec>(label, scalars, max)?;
    Ok((None, None))
}

// Sends an element of the extension.
pub(crate) fn add_extension<S: Suite>(
    prover: &mut ProverState<S::Challenger, S::Unit, S::Digest>,
    label: Label,
    sent: Option<&Sent<S>>,
) -> Result<Played<S>, TranscriptError>
    requires { holds_some Any (extension_in (value_given sent)) }
    ensures { PlaysHanded (⟦<S as Meaning>⟧.rules S.Field.DIMENSION) S.Challenger.state
        (Step.Extension label.entry) sent.entry prover.old result prover.new }
{
    let Some(Sent::Extension(element)) = sent else {
        unreachable!();
    };
    let _bound = prover.add_extension::<S::Field, S::Extension, S::Codec>(label, element)?;
    Ok((None, None))
}

// Searches for a witness, sends it, and answers it.
pub(crate) fn pow<S: Suite>(
    prover: &mut ProverState<S::Challenger, S::Unit, S::Digest>,
    label: Label,
    bits: usize,
) -> Result<Played<S>, TranscriptError>
    requires has { IsTrue S.Group.HAS_POW }
    requires within { bits ≤ S.Group.most_bits }
    ensures { PlaysUnhanded (⟦<S as Meaning>⟧.rules S.Field.DIMENSION) S.Challenger.state
        (Step.Pow label.entry bits) prover.old result prover.new }
{
    S::Group::pow(prover, label, bits)?;
    match element_at_end::<S::Field>(prover.narg()) {
        Ok(witness) => Ok((Some(witness), None)),
        Err(_) => unreachable!(),
    }
}

// Searches for a witness, and answers it.
pub(crate) fn observe_pow<S: Suite>(
    prover: &mut ProverState<S::Challenger, S::Unit, S::Digest>,
    label: Label,
    bits: usize,
) -> Result<Played<S>, TranscriptError>
    requires has { IsTrue S.Group.HAS_POW }
    requires within { bits ≤ S.Group.most_bits }
    ensures { PlaysUnhanded (⟦<S as Meaning>⟧.rules S.Field.DIMENSION) S.Challenger.state
        (Step.ObservePow label.entry bits) prover.old result prover.new }
{
    let witness = S::Group::observe_pow(prover, label, bits)?;
    Ok((Some(witness), None))
}

// The element that the bytes end with.
fn element_at_end<F: TranscriptField>(bytes: &[u8]) -> Result<F, TranscriptError>
    ensures { (before : List ℕ) (x : F) →
        bytes.now ≡ before ++ (encoding F.residues F.bit_length).wire x → result ≡ Ok x }
{
    let width = F::wire_len();
    if bytes.len() < width {
        return Err(TranscriptError::Pattern(PatternError::Finished));
    }
    F::decode(&bytes[bytes.len() - width..])
}
