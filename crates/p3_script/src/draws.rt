//! The steps that draw, for either side.
ghost use Rattle.std.specs.Prelude.{◌≡◌, ◌≤◌, [], ◌∷◌, IsTrue, IfErr, IfOk, OnOk};
ghost use Rattle.p3_driver_core.specs.Bound.{bound_value, bound_values};
ghost use Rattle.p3_driver_core.specs.{Rejecting.drawn_rejecting, Transcripts.uniform_bits_step};
ghost use Rattle.p3_fs_core.specs.declared.step.Length.TheVariants.{Fixed};
ghost use Rattle.p3_drivers.specs.Drivers.{driving_of, Keeps};
ghost use Rattle.p3_runs.specs.Stepping.{Halts};
ghost use Rattle.p3_script.specs.{Alike.{DrawsAccepted, PlaysAlike}, Scripts.play_of, StepFamilies.Draws};

use crate::accept::AcceptRule;
use crate::groups::StepGroup;
use crate::steps::{Drawn, Step};
use crate::suite::{Meaning, Suite};
use p3_challenger_core::Sponge;
use p3_driver_core::TranscriptBound;
use p3_drivers::{DriverState, Tape};
use p3_fs_core::{Label, TranscriptError};
use p3_symmetric::DigestHasher;
use std::alloc::Global;

/// Returns the values alone, of a list that the transcript has bound. Where memory for them is refused, the driver
/// halts. Not in the Rust crate.
pub fn unbound<T: Copy, C: Sponge, U, D: DigestHasher, P: Tape>(
    alloc: Global,
    driver: &mut DriverState<C, U, D, P>,
    bounds: Vec<TranscriptBound<T>>,
) -> Result<Vec<T>, TranscriptError>
    ensures ok { IfOk result (λ values. values.items ≡ bound_values bounds) }
    ensures same { OnOk result
        (driving_of C.state P.bytes driver.new ≡ driving_of C.state P.bytes driver.old) }
    ensures err { IfErr result (λ e. Halts (driving_of C.state P.bytes driver.old) e
        (driving_of C.state P.bytes driver.new)) }
{
    match values_of(alloc, bounds) {
        Ok(values) => Ok(values),
        Err(error) => {
            driver.halt();
            Err(error)
        }
    }
}

fn values_of<T: Copy>(
    alloc: Global,
    bounds: Vec<TranscriptBound<T>>,
) -> Result<Vec<T>, TranscriptError>
    ensures ok { IfOk result (λ values. values.items ≡ bound_values bounds) }
    ensures err { IfErr result (λ e. e ≡ TranscriptError.OutOfMemory) }
{
    let bounds: &[TranscriptBound<T>] = bounds.as_slice();
    let mut values = Vec::with_capacity(alloc, bounds.len())?;
    for bound in bounds {
        values.push_reserved(*bound.as_inner());
    }
    Ok(values)
}

// The value alone, as a list. Where memory for it is refused, the driver halts.
fn unbound_one<T: Copy + Drop, C: Sponge, U, D: DigestHasher, P: Tape>(
    alloc: Global,
    driver: &mut DriverState<C, U, D, P>,
    bound: TranscriptBound<T>,
) -> Result<Vec<T>, TranscriptError>
    ensures ok { IfOk result (λ values. values.items ≡ bound_value bound ∷ []) }
    ensures same { OnOk result
        (driving_of C.state P.bytes driver.new ≡ driving_of C.state P.bytes driver.old) }
    ensures err { IfErr result (λ e. Halts (driving_of C.state P.bytes driver.old) e
        (driving_of C.state P.bytes driver.new)) }
{
    match Vec::with_capacity(alloc, 1) {
        Ok(mut values) => {
            values.push_reserved(bound.into_inner());
            Ok(values)
        }
        Err(_) => {
            driver.halt();
            Err(TranscriptError::OutOfMemory)
        }
    }
}

// Plays a draw.
pub(crate) fn draw_step<S: Suite, P: Tape>(
    alloc: Global,
    driver: &mut DriverState<S::Challenger, S::Unit, S::Digest, P>,
    step: &Step<S>,
) -> Result<Option<Drawn<S>>, TranscriptError>
    requires family { Draws step.now }
    requires admitted { (play_of (⟦<S as Meaning>⟧.rules S.Field.DIMENSION) step.now).admitted }
    ensures { PlaysAlike (⟦<S as Meaning>⟧.rules S.Field.DIMENSION) S.Challenger.state P.bytes
        step.now driver.old result driver.new }
{
    match step {
        Step::ChallengeScalar { label } => draw_scalar(alloc, driver, *label),
        Step::ChallengeScalars { label, n } => draw_scalars(alloc, driver, *label, *n),
        Step::ChallengeExtension { label } => draw_extension(alloc, driver, *label),
        Step::ChallengeExtensions { label, n } => draw_extensions(alloc, driver, *label, *n),
        Step::ChallengeExtensionsRejecting {
            label,
            n,
            accept,
            limit,
        } => draw_extensions_rejecting(alloc, driver, *label, *n, accept, *limit),
        Step::ChallengeBits { label, width, n } => draw_bits(alloc, driver, *label, *width, *n),
        Step::ChallengeUniformBits { label, width, n } => {
            draw_uniform_bits(alloc, driver, *label, *width, *n)
        }
        Step::ChallengeUniformBitsRejecting {
            label,
            width,
            n,
            accept,
            limit,
        } => draw_uniform_bits_rejecting(alloc, driver, *label, *width, *n, accept, *limit),
        _ => unreachable!(),
    }
}

// Draws one scalar.
fn draw_scalar<S: Suite, P: Tape>(
    alloc: Global,
    driver: &mut DriverState<S::Challenger, S::Unit, S::Digest, P>,
    label: Label,
) -> Result<Option<Drawn<S>>, TranscriptError>
    requires { 128 ≤ S.Codec.SECURITY_BITS }
    ensures { PlaysAlike (⟦<S as Meaning>⟧.rules S.Field.DIMENSION) S.Challenger.state P.bytes
        (Step.ChallengeScalar label.entry) driver.old result driver.new }
{
    let drawn = driver.challenge_scalar::<S::Field, S::Codec>(label)?;
    let values = unbound_one(alloc, driver, drawn)?;
    Ok(Some(Drawn::Scalars(values)))
}

// Draws `n` scalars.
fn draw_scalars<S: Suite, P: Tape>(
    alloc: Global,
    driver: &mut DriverState<S::Challenger, S::Unit, S::Digest, P>,
    label: Label,
    n: usize,
) -> Result<Option<Drawn<S>>, TranscriptError>
    requires { 128 ≤ S.Codec.SECURITY_BITS }
    ensures { PlaysAlike (⟦<S as Meaning>⟧.rules S.Field.DIMENSION) S.Challenger.state P.bytes
        (Step.ChallengeScalars label.entry n) driver.old result driver.new }
{
    let drawn = driver.challenge_scalars::<S::Field, S::Codec>(label, n)?;
    let values = unbound(alloc, driver, drawn)?;
    Ok(Some(Drawn::Scalars(values)))
}

// Draws one element of the extension.
fn draw_extension<S: Suite, P: Tape>(
    alloc: Global,
    driver: &mut DriverState<S::Challenger, S::Unit, S::Digest, P>,
    label: Label,
) -> Result<Option<Drawn<S>>, TranscriptError>
    requires { 128 ≤ S.Codec.SECURITY_BITS }
    ensures { PlaysAlike (⟦<S as Meaning>⟧.rules S.Field.DIMENSION) S.Challenger.state P.bytes
        (Step.ChallengeExtension label.entry) driver.old result driver.new }
{
    let drawn = driver.challenge_extension::<S::Field, S::Extension, S::Codec>(label)?;
    let values = unbound_one(alloc, driver, drawn)?;
    Ok(Some(Drawn::Extensions(values)))
}

// Draws `n` elements of the extension.
fn draw_extensions<S: Suite, P: Tape>(
    alloc: Global,
    driver: &mut DriverState<S::Challenger, S::Unit, S::Digest, P>,
    label: Label,
    n: usize,
) -> Result<Option<Drawn<S>>, TranscriptError>
    requires { 128 ≤ S.Codec.SECURITY_BITS }
    ensures { PlaysAlike (⟦<S as Meaning>⟧.rules S.Field.DIMENSION) S.Challenger.state P.bytes
        (Step.ChallengeExtensions label.entry n) driver.old result driver.new }
{
    let drawn = driver.challenge_extensions::<S::Field, S::Extension, S::Codec>(label, n)?;
    let values = unbound(alloc, driver, drawn)?;
    Ok(Some(Drawn::Extensions(values)))
}

// Draws elements of the extension until the rule has accepted `n` of them.
fn draw_extensions_rejecting<S: Suite, P: Tape>(
    alloc: Global,
    driver: &mut DriverState<S::Challenger, S::Unit, S::Digest, P>,
    label: Label,
    n: usize,
    accept: &S::Accept,
    limit: u64,
) -> Result<Option<Drawn<S>>, TranscriptError>
    requires { 128 ≤ S.Codec.SECURITY_BITS }
    ensures { PlaysAlike (⟦<S as Meaning>⟧.rules S.Field.DIMENSION) S.Challenger.state P.bytes
        (Step.ChallengeExtensionsRejecting label.entry n accept.now limit) driver.old result
        driver.new }
{
    let drawn = accepted_extensions::<S, S::Accept, P>(driver, label, n, accept, limit)?;
    let values = unbound(alloc, driver, drawn)?;
    Ok(Some(Drawn::Extensions(values)))
}

// Draws `n` numbers of `width` bits.
fn draw_bits<S: Suite, P: Tape>(
    alloc: Global,
    driver: &mut DriverState<S::Challenger, S::Unit, S::Digest, P>,
    label: Label,
    width: usize,
    n: usize,
) -> Result<Option<Drawn<S>>, TranscriptError>
    requires has { IsTrue S.Group.HAS_POW }
    requires within { width ≤ S.Group.most_bits }
    ensures { PlaysAlike (⟦<S as Meaning>⟧.rules S.Field.DIMENSION) S.Challenger.state P.bytes
        (Step.ChallengeBits label.entry width n) driver.old result driver.new }
{
    let drawn = S::Group::challenge_bits(driver, label, width, n)?;
    let values = unbound(alloc, driver, drawn)?;
    Ok(Some(Drawn::Bits(values)))
}

// Draws `n` numbers of `width` uniform bits.
fn draw_uniform_bits<S: Suite, P: Tape>(
    alloc: Global,
    driver: &mut DriverState<S::Challenger, S::Unit, S::Digest, P>,
    label: Label,
    width: usize,
    n: usize,
) -> Result<Option<Drawn<S>>, TranscriptError>
    requires has { IsTrue S.Group.HAS_UNIFORM }
    requires within { width ≤ S.Group.most_bits }
    ensures { PlaysAlike (⟦<S as Meaning>⟧.rules S.Field.DIMENSION) S.Challenger.state P.bytes
        (Step.ChallengeUniformBits label.entry width n) driver.old result driver.new }
{
    let drawn = S::Group::challenge_uniform_bits(driver, label, width, n)?;
    let values = unbound(alloc, driver, drawn)?;
    Ok(Some(Drawn::Bits(values)))
}

// Draws numbers of `width` uniform bits until the rule has accepted `n` of them.
fn draw_uniform_bits_rejecting<S: Suite, P: Tape>(
    alloc: Global,
    driver: &mut DriverState<S::Challenger, S::Unit, S::Digest, P>,
    label: Label,
    width: usize,
    n: usize,
    accept: &S::Accept,
    limit: u64,
) -> Result<Option<Drawn<S>>, TranscriptError>
    requires has { IsTrue S.Group.HAS_UNIFORM }
    requires within { width ≤ S.Group.most_bits }
    ensures { PlaysAlike (⟦<S as Meaning>⟧.rules S.Field.DIMENSION) S.Challenger.state P.bytes
        (Step.ChallengeUniformBitsRejecting label.entry width n accept.now limit) driver.old result
        driver.new }
{
    let drawn = accepted_bits::<S, S::Accept, P>(driver, label, width, n, accept, limit)?;
    let values = unbound(alloc, driver, drawn)?;
    Ok(Some(Drawn::Bits(values)))
}

// Draws elements of the extension until the rule has taken so many, as the driver does.
fn accepted_extensions<S: Suite, A: AcceptRule<S::Extension>, P: Tape>(
    driver: &mut DriverState<S::Challenger, S::Unit, S::Digest, P>,
    label: Label,
    n: usize,
    accept: &A,
    limit: u64,
) -> Result<Vec<TranscriptBound<S::Extension>>, TranscriptError>
    requires { 128 ≤ S.Codec.SECURITY_BITS }
    ensures { DrawsAccepted (⟦<S as Meaning>⟧.rules S.Field.DIMENSION) S.Challenger.state P.bytes
        label.now n (A.rule accept.now) limit driver.old bound_values result driver.new }
{
    let asked = |candidate: &S::Extension, kept: &[S::Extension]| -> bool
        ensures { result ≡ A.rule accept.entry.now candidate.now kept.now }
    { accept.accepts(candidate, kept) };
    driver.challenge_extensions_rejecting::<S::Field, S::Extension, S::Codec, _>(
        label, n, &asked, limit,
    )
}

// Draws numbers of so many uniform bits until the rule has taken so many, as the driver does.
fn accepted_bits<S: Suite, A: AcceptRule<usize>, P: Tape>(
    driver: &mut DriverState<S::Challenger, S::Unit, S::Digest, P>,
    label: Label,
    width: usize,
    n: usize,
    accept: &A,
    limit: u64,
) -> Result<Vec<TranscriptBound<usize>>, TranscriptError>
    requires has { IsTrue S.Group.HAS_UNIFORM }
    requires within { width ≤ S.Group.most_bits }
    ensures { Keeps S.Challenger.state P.bytes (drawn_rejecting {Symbol = S.Challenger.Symbol}
        (uniform_bits_step label.now width (Fixed n)) (S.Group.uniform_draws width)
        (A.rule accept.now) limit n) driver.old bound_values result driver.new }
{
    let asked = |candidate: usize, kept: &[usize]| -> bool
        ensures { result ≡ A.rule accept.entry.now candidate kept.now }
    { accept.accepts(&candidate, kept) };
    S::Group::challenge_uniform_bits_rejecting(driver, label, width, n, &asked, limit)
}
