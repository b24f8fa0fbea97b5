//! One step of a script, on the prover's side.
ghost use Rattle.p3_script.specs.{Scripts.play_of, StepFamilies.SendsNothing};
ghost use Rattle.p3_script_prover.specs.ProverAnswers.{PlaysHanded, PlaysUnhanded, value_given};

use crate::sending;
use p3_challenger_core::Sponge;
use p3_drivers::ProverState;
use p3_fs_core::TranscriptError;
use p3_script::{Drawn, Meaning, Sent, Step, Suite, play_alike};
use std::alloc::Global;

/// What a prover returns for a step: the witness of a proof of work, and the challenge of a draw. Not in the Rust
/// crate.
pub type Played<S> = (Option<<S as Suite>::Field>, Option<Drawn<S>>);

/// Plays one step of a script by calling the driver's method for it.
///
/// `sent` is the value that the step sends, or nothing where the step sends none. The witness of a proof of work is
/// returned whether the proof carries it or not.
///
/// The errors are those of the driver's method, with the state that it leaves. [`TranscriptError::OutOfMemory`] comes
/// too where memory is refused for the values drawn, or for a clone of an opaque value. After each of them the driver
/// is finished, and must still be spent.
///
/// Conditions: the step may be played by this suite, and `sent` is a value of its type and, where the step fixes a
/// length, of that length. Not in the Rust crate.
pub fn prover_step<S: Suite>(
    alloc: Global,
    prover: &mut ProverState<S::Challenger, S::Unit, S::Digest>,
    step: &Step<S>,
    sent: Option<&Sent<S>>,
) -> Result<Played<S>, TranscriptError>
    requires admitted { (play_of (⟦<S as Meaning>⟧.rules S.Field.DIMENSION) step.now).admitted }
    requires handed { let rules = ⟦<S as Meaning>⟧.rules S.Field.DIMENSION in
        (play_of rules step.now).IsHanded (value_given sent) }
    ensures { PlaysHanded (⟦<S as Meaning>⟧.rules S.Field.DIMENSION) S.Challenger.state
        step.now sent.entry prover.old result prover.new }
{
    match step {
        Step::Salt { label, len } => sending::add_salt(prover, *label, sent, *len),
        Step::Bytes { label, len } => sending::add_bytes(prover, *label, sent, *len),
        Step::Hint { label, len } => sending::add_hint(prover, *label, sent, *len),
        Step::BytesBounded { label, max } => sending::add_bytes_bounded(prover, *label, sent, *max),
        Step::HintBounded { label, max } => sending::add_hint_bounded(prover, *label, sent, *max),
        Step::Scalar { label } => sending::add_scalar(prover, *label, sent),
        Step::Scalars { label, n } => sending::add_scalars(prover, *label, sent, *n),
        Step::ScalarsBounded { label, max } => {
            sending::add_scalars_bounded(prover, *label, sent, *max)
        }
        Step::Extension { label } => sending::add_extension(prover, *label, sent),
        Step::Pow { label, bits } => sending::pow(prover, *label, *bits),
        Step::ObservePow { label, bits } => sending::observe_pow(prover, *label, *bits),
        _ => unsent_step(alloc, prover, step),
    }
}

// Plays a step of which nothing is sent.
fn unsent_step<S: Suite>(
    alloc: Global,
    prover: &mut ProverState<S::Challenger, S::Unit, S::Digest>,
    step: &Step<S>,
) -> Result<Played<S>, TranscriptError>
    requires family { SendsNothing step.now }
    requires admitted { (play_of (⟦<S as Meaning>⟧.rules S.Field.DIMENSION) step.now).admitted }
    ensures { PlaysUnhanded (⟦<S as Meaning>⟧.rules S.Field.DIMENSION) S.Challenger.state
        step.now prover.old result prover.new }
{
    match step {
        Step::PublicScalar { label, value } => sending::add_public_scalar(prover, *label, value),
        Step::PublicScalars { label, values } => {
            sending::add_public_scalars(prover, *label, values)
        }
        Step::PublicScalarsBounded { label, values, max } => {
            sending::add_public_scalars_bounded(prover, *label, values, *max)
        }
        Step::ObserveExtensions { label, values } => {
            sending::observe_extensions(prover, *label, values)
        }
        Step::ObserveExtensionsBounded { label, values, max } => {
            sending::observe_extensions_bounded(prover, *label, values, *max)
        }
        _ => {
            let drawn = play_alike(alloc, prover, step)?;
            Ok((None, drawn))
        }
    }
}
