//! The pattern of a script, and whether a script's steps are those of a given pattern.
ghost use Rattle.std.specs.Prelude.{◌≡◌, ◌↔◌, ◌⊎◌, IsTrue, IfOk, IfErr, length, map};
ghost use Rattle.p3_driver_core.specs.Transcripts.{bytes_step, bits_step, uniform_bits_step};
ghost use Rattle.p3_fs_core.specs.{Steps.{NamedAlgebra, algebra_step, marker_of}, Interactions.step_of};
ghost use Rattle.p3_patterns.specs.{PatternGrammar.{IsPattern, NamesFirstFault}, PatternSteps.{steps_of}};
ghost use Rattle.p3_runs.specs.Runs.{AreAdmitted, interactions};
ghost use Rattle.p3_script.specs.{Scripts.play_of, StepFamilies.{SendsNothing, Draws}};
ghost use Rattle.p3_script_checks.specs.Places.{Carries, CarryRules};
ghost use Rattle.p3_fs_core.specs.declared.error.TranscriptError.TheVariants as error;

use crate::admission::admitted;
use p3_challenger_core::Sponge;
use p3_field_core::Named;
use p3_fs_core::{Hierarchy, Interaction, Kind, Label, Length, TranscriptError};
use p3_patterns::InteractionPattern;
use p3_script::{Meaning, Step, Suite};
use p3_symmetric::DigestHasher;
use std::alloc::Global;

// A step that carries scalars, and one that carries elements of the extension. Others are made from them, so that each
// algebra's identity is hashed once.
#[derive(Clone, Copy)]
struct Carriers {
    scalars: Interaction,
    extensions: Interaction,
}

/// Returns whether the script plays the whole pattern: [`admitted`] holds for its steps, and they are the pattern's, in
/// order.
///
/// Not in the Rust crate.
pub fn fits<S: Suite>(steps: &[Step<S>], pattern: &InteractionPattern) -> bool
    ensures { let rules = ⟦<S as Meaning>⟧.rules S.Field.DIMENSION in
        IsTrue result ↔ AreAdmitted (play_of rules) steps.now
        × (interactions (play_of rules) steps.now ≡ steps_of pattern.now) }
{
    if steps.len() != pattern.len() {
        return false;
    }
    if !admitted(steps) {
        return false;
    }
    are_steps(&carriers_of::<S>(), steps, pattern.interactions())
}

/// Returns the pattern of the script: the interactions that its steps play, in order. The script [`fits`] it exactly
/// where [`admitted`] holds for the steps.
///
/// Steps that form no pattern are refused with their first fault, as by [`InteractionPattern::new`]. Steps that form a
/// pattern are refused only with [`TranscriptError::OutOfMemory`]. Not in the Rust crate.
pub fn pattern<S: Suite>(
    alloc: Global,
    steps: &[Step<S>],
) -> Result<InteractionPattern, TranscriptError>
    ensures ok { let rules = ⟦<S as Meaning>⟧.rules S.Field.DIMENSION in
        IfOk result (λ pattern. steps_of pattern ≡ interactions (play_of rules) steps.now) }
    ensures err { let rules = ⟦<S as Meaning>⟧.rules S.Field.DIMENSION in
        IfErr result (λ e. NamesFirstFault (interactions (play_of rules) steps.now) e ⊎ (e ≡ error.OutOfMemory)) }
    ensures only { let rules = ⟦<S as Meaning>⟧.rules S.Field.DIMENSION in
        IsPattern Kind.Protocol (interactions (play_of rules) steps.now) → IfErr result (λ e. e ≡ error.OutOfMemory) }
{
    let carriers = carriers_of::<S>();
    let mut interactions = Vec::with_capacity(alloc, steps.len())?;
    for step in steps {
        interactions.push_reserved(interaction_of(&carriers, step));
    }
    InteractionPattern::new(interactions)
}

fn carriers_of<S: Suite>() -> Carriers
    ensures { let rules = ⟦<S as Meaning>⟧.rules S.Field.DIMENSION in
        CarryRules rules result.scalars result.extensions }
{
    Carriers {
        scalars: Interaction::algebra::<S::Field, S::Field, S::Digest>(
            Hierarchy::Atomic,
            Kind::Message,
            "",
            Length::Scalar,
        ),
        extensions: Interaction::algebra::<S::Field, S::Extension, S::Digest>(
            Hierarchy::Atomic,
            Kind::Message,
            "",
            Length::Scalar,
        ),
    }
}

// Whether the steps of the script are these, of which there are as many.
fn are_steps<S: Suite>(carriers: &Carriers, steps: &[Step<S>], expected: &[Interaction]) -> bool
    requires { length steps.now ≡ length expected.now }
    ensures { let rules = ⟦<S as Meaning>⟧.rules S.Field.DIMENSION in
        CarryRules rules carriers.now.scalars carriers.now.extensions →
        (IsTrue result ↔ interactions (play_of rules) steps.now ≡ map step_of expected.now) }
{
    for (i, step) in steps.iter().enumerate() {
        if !is_step(carriers, step, &expected[i]) {
            return false;
        }
    }
    true
}

// Whether the step of the script is this one.
fn is_step<S: Suite>(carriers: &Carriers, step: &Step<S>, expected: &Interaction) -> bool
    ensures { let rules = ⟦<S as Meaning>⟧.rules S.Field.DIMENSION in
        CarryRules rules carriers.now.scalars carriers.now.extensions →
        (IsTrue result ↔ (play_of rules step.now).interaction ≡ step_of expected.now) }
{
    Interaction::compared_by_parts();
    interaction_of(carriers, step) == *expected
}

// The step of a pattern that the step of the script plays.
fn interaction_of<S: Suite>(carriers: &Carriers, step: &Step<S>) -> Interaction
    ensures { let rules = ⟦<S as Meaning>⟧.rules S.Field.DIMENSION in
        CarryRules rules carriers.now.scalars carriers.now.extensions →
        step_of result ≡ (play_of rules step.now).interaction }
{
    let Carriers {
        scalars,
        extensions,
    } = carriers;
    match step {
        Step::Salt { label, len } => bytes(Kind::Salt, *label, Length::Fixed(*len)),
        Step::Bytes { label, len } => bytes(Kind::Message, *label, Length::Fixed(*len)),
        Step::Hint { label, len } => bytes(Kind::Hint, *label, Length::Fixed(*len)),
        Step::BytesBounded { label, max } => bytes(Kind::Message, *label, Length::Bounded(*max)),
        Step::HintBounded { label, max } => bytes(Kind::Hint, *label, Length::Bounded(*max)),
        Step::Scalar { label } => like(scalars, Kind::Message, *label, Length::Scalar),
        Step::Scalars { label, n } => like(scalars, Kind::Message, *label, Length::Fixed(*n)),
        Step::ScalarsBounded { label, max } => {
            like(scalars, Kind::Message, *label, Length::Bounded(*max))
        }
        Step::Extension { label } => like(extensions, Kind::Message, *label, Length::Scalar),
        Step::Pow { label, bits } => like(scalars, Kind::Pow, *label, Length::Fixed(*bits)),
        Step::ObservePow { label, bits } => like(scalars, Kind::Pow, *label, Length::Fixed(*bits)),
        _ => unsent_interaction(carriers, step),
    }
}

// The same of a step of which nothing is sent.
fn unsent_interaction<S: Suite>(carriers: &Carriers, step: &Step<S>) -> Interaction
    requires { SendsNothing step.now }
    ensures { let rules = ⟦<S as Meaning>⟧.rules S.Field.DIMENSION in
        CarryRules rules carriers.now.scalars carriers.now.extensions →
        step_of result ≡ (play_of rules step.now).interaction }
{
    let Carriers {
        scalars,
        extensions,
    } = carriers;
    match step {
        Step::Begin { label, kind } => marker(Hierarchy::Begin, *kind, *label),
        Step::End { label, kind } => marker(Hierarchy::End, *kind, *label),
        Step::PublicScalar { label, .. } => like(scalars, Kind::Public, *label, Length::Scalar),
        Step::PublicScalars { label, values } => {
            like(scalars, Kind::Public, *label, Length::Fixed(values.len()))
        }
        Step::PublicScalarsBounded { label, max, .. } => {
            like(scalars, Kind::Public, *label, Length::Bounded(*max))
        }
        Step::ObserveExtension { label, .. } => {
            like(extensions, Kind::Message, *label, Length::Scalar)
        }
        Step::ObserveExtensions { label, values } => {
            like(
                extensions,
                Kind::Message,
                *label,
                Length::Fixed(values.len()),
            )
        }
        Step::ObserveExtensionsBounded { label, max, .. } => {
            like(extensions, Kind::Message, *label, Length::Bounded(*max))
        }
        Step::Opaque { label, .. } => {
            Interaction::opaque(Hierarchy::Atomic, Kind::Message, *label, Length::Scalar)
        }
        _ => draw_interaction(carriers, step),
    }
}

// The same of a draw.
fn draw_interaction<S: Suite>(carriers: &Carriers, step: &Step<S>) -> Interaction
    requires { Draws step.now }
    ensures { let rules = ⟦<S as Meaning>⟧.rules S.Field.DIMENSION in
        CarryRules rules carriers.now.scalars carriers.now.extensions →
        step_of result ≡ (play_of rules step.now).interaction }
{
    let Carriers {
        scalars,
        extensions,
    } = carriers;
    match step {
        Step::ChallengeScalar { label } => like(scalars, Kind::Challenge, *label, Length::Scalar),
        Step::ChallengeScalars { label, n } => {
            like(scalars, Kind::Challenge, *label, Length::Fixed(*n))
        }
        Step::ChallengeExtension { label } => {
            like(extensions, Kind::Challenge, *label, Length::Scalar)
        }
        Step::ChallengeExtensions { label, n } => {
            like(extensions, Kind::Challenge, *label, Length::Fixed(*n))
        }
        Step::ChallengeExtensionsRejecting { label, n, .. } => {
            like(extensions, Kind::Challenge, *label, Length::Fixed(*n))
        }
        Step::ChallengeBits { label, width, n } => bits(*label, *width, *n),
        Step::ChallengeUniformBits { label, width, n } => uniform_bits(*label, *width, *n),
        Step::ChallengeUniformBitsRejecting {
            label,
            width,
            n,
            ..
        } => uniform_bits(*label, *width, *n),
        _ => unreachable!(),
    }
}

fn marker(hierarchy: Hierarchy, kind: Kind, label: Label) -> Interaction
    ensures { step_of result ≡ marker_of hierarchy kind label.now ⟦<() as Named>⟧.name_bytes }
{
    Interaction::marker::<()>(hierarchy, kind, label)
}

fn bytes(kind: Kind, label: Label, length: Length) -> Interaction
    ensures { step_of result ≡ bytes_step kind label.now length }
{
    Interaction::bytes(Hierarchy::Atomic, kind, label, length)
}

fn bits(label: Label, width: usize, n: usize) -> Interaction
    ensures { step_of result ≡ bits_step label.now width (Length.Fixed n) }
{
    Interaction::bits(
        Hierarchy::Atomic,
        Kind::Challenge,
        label,
        width,
        Length::Fixed(n),
    )
}

fn uniform_bits(label: Label, width: usize, n: usize) -> Interaction
    ensures { step_of result ≡ uniform_bits_step label.now width (Length.Fixed n) }
{
    Interaction::uniform_bits(
        Hierarchy::Atomic,
        Kind::Challenge,
        label,
        width,
        Length::Fixed(n),
    )
}

// A step that carries elements of the same algebra.
fn like(carrier: &Interaction, kind: Kind, label: Label, length: Length) -> Interaction
    ensures { (algebra : NamedAlgebra) → Carries algebra carrier.now →
        step_of result ≡ algebra_step kind label.now algebra length }
{
    carrier.of_same_type(Hierarchy::Atomic, kind, label, length)
}
