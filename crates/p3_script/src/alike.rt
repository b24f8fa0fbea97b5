//! The steps that both sides play alike.
ghost use Rattle.p3_script.specs.{Alike.PlaysAlike, Scripts.play_of, StepFamilies.IsPlayedAlike};

use crate::draws::draw_step;
use crate::steps::{Drawn, Step};
use crate::suite::{Meaning, Suite};
use p3_challenger_core::Sponge;
use p3_drivers::{DriverState, Tape};
use p3_fs_core::{Kind, Label, TranscriptError};
use std::alloc::Global;

/// Plays a step that both sides play alike, by calling the driver's method for it, and returns what is drawn.
///
/// The errors are those of the driver's method, with the state that it leaves. [`TranscriptError::OutOfMemory`] comes
/// too where memory is refused for the values drawn, or for a clone of an opaque value. After each of them the driver
/// is finished, and must still be spent.
///
/// Conditions: both sides play the step alike, and it may be played by this suite. Not in the Rust crate.
pub fn play_alike<S: Suite, P: Tape>(
    alloc: Global,
    driver: &mut DriverState<S::Challenger, S::Unit, S::Digest, P>,
    step: &Step<S>,
) -> Result<Option<Drawn<S>>, TranscriptError>
    requires family { IsPlayedAlike step.now }
    requires admitted { (play_of (⟦<S as Meaning>⟧.rules S.Field.DIMENSION) step.now).admitted }
    ensures { PlaysAlike (⟦<S as Meaning>⟧.rules S.Field.DIMENSION) S.Challenger.state P.bytes
        step.now driver.old result driver.new }
{
    match step {
        Step::Begin { label, kind } => begin(driver, *label, *kind),
        Step::End { label, kind } => end(driver, *label, *kind),
        Step::ObserveExtension { label, value } => observe_extension(driver, *label, value),
        Step::Opaque { label, value } => observe_opaque(driver, *label, value),
        _ => draw_step(alloc, driver, step),
    }
}

// Opens a container.
fn begin<S: Suite, P: Tape>(
    driver: &mut DriverState<S::Challenger, S::Unit, S::Digest, P>,
    label: Label,
    kind: Kind,
) -> Result<Option<Drawn<S>>, TranscriptError>
    ensures { PlaysAlike (⟦<S as Meaning>⟧.rules S.Field.DIMENSION) S.Challenger.state P.bytes
        (Step.Begin label.entry kind) driver.old result driver.new }
{
    driver.begin::<()>(label, kind)?;
    Ok(None)
}

// Closes a container.
fn end<S: Suite, P: Tape>(
    driver: &mut DriverState<S::Challenger, S::Unit, S::Digest, P>,
    label: Label,
    kind: Kind,
) -> Result<Option<Drawn<S>>, TranscriptError>
    ensures { PlaysAlike (⟦<S as Meaning>⟧.rules S.Field.DIMENSION) S.Challenger.state P.bytes
        (Step.End label.entry kind) driver.old result driver.new }
{
    driver.end::<()>(label, kind)?;
    Ok(None)
}

// Observes an element of the extension that the proof does not carry.
fn observe_extension<S: Suite, P: Tape>(
    driver: &mut DriverState<S::Challenger, S::Unit, S::Digest, P>,
    label: Label,
    value: &S::Extension,
) -> Result<Option<Drawn<S>>, TranscriptError>
    ensures { PlaysAlike (⟦<S as Meaning>⟧.rules S.Field.DIMENSION) S.Challenger.state P.bytes
        (Step.ObserveExtension label.entry value.now) driver.old result driver.new }
{
    let _bound = driver.observe_extension::<S::Field, S::Extension, S::Codec>(label, value)?;
    Ok(None)
}

// Observes a value as the challenger itself knows how.
fn observe_opaque<S: Suite, P: Tape>(
    driver: &mut DriverState<S::Challenger, S::Unit, S::Digest, P>,
    label: Label,
    value: &S::Opaque,
) -> Result<Option<Drawn<S>>, TranscriptError>
    ensures { PlaysAlike (⟦<S as Meaning>⟧.rules S.Field.DIMENSION) S.Challenger.state P.bytes
        (Step.Opaque label.entry value.now) driver.old result driver.new }
{
    let copy = match value.clone() {
        Ok(copy) => copy,
        Err(_) => {
            driver.halt();
            return Err(TranscriptError::OutOfMemory);
        }
    };
    let _bound = driver.observe_opaque(label, copy)?;
    Ok(None)
}
