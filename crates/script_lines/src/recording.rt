// The pattern of a script.
use crate::recording::Type::{Bits, Bytes, Extensions, Marker, Opaque, Scalars, UniformBits};
use anyhow::Result;
use p3_challenger::fs::Hierarchy::{Begin, End};
use p3_challenger::fs::Kind::{Challenge, Hint, Message, Pow, Public, Salt};
use p3_challenger::fs::Length::{Bounded, Fixed, Scalar};
use p3_challenger::fs::script::{Step, Suite};
use p3_challenger::fs::{
    Hierarchy, Interaction, InteractionPattern, Kind, Label, Length, Pattern, PatternState,
};
use std::alloc::Global;

/// Records the steps.
pub fn record<S: Suite>(alloc: Global, steps: &[Step<S>]) -> Result<InteractionPattern> {
    let mut recorder = PatternState::<S::Unit>::new(alloc);
    for step in steps {
        if let Err(refused) = recorder.interact(interaction(step)) {
            // A recorder has to be spent, also where a step was refused.
            recorder.abort();
            return Err(refused.into());
        }
    }
    Ok(recorder.finalize()?)
}

/// Whether the steps are those of the pattern, in order.
pub fn are_steps_of<S: Suite>(steps: &[Step<S>], pattern: &InteractionPattern) -> bool {
    let mut expected = pattern.interactions().iter();
    for step in steps {
        match expected.next() {
            Some(next) if interaction(step) == *next => {}
            _ => return false,
        }
    }
    expected.next().is_none()
}

// The type of a step.
#[derive(Clone, Copy)]
enum Type {
    Marker(Hierarchy),
    Bytes,
    Scalars,
    Extensions,
    Opaque,
    Bits(usize),
    UniformBits(usize),
}

// The step as a pattern has it.
fn interaction<S: Suite>(step: &Step<S>) -> Interaction {
    let (kind, label, length, of) = parts(step);
    let atomic = Hierarchy::Atomic;
    match of {
        Marker(hierarchy) => Interaction::marker::<()>(hierarchy, kind, label),
        Bytes => Interaction::bytes(atomic, kind, label, length),
        Scalars => {
            Interaction::algebra::<S::Field, S::Field, S::Digest>(atomic, kind, label, length)
        }
        Extensions => {
            Interaction::algebra::<S::Field, S::Extension, S::Digest>(atomic, kind, label, length)
        }
        Opaque => Interaction::opaque(atomic, kind, label, length),
        Bits(width) => Interaction::bits(atomic, kind, label, width, length),
        UniformBits(width) => Interaction::uniform_bits(atomic, kind, label, width, length),
    }
}

// The kind of a step, its label, its length and its type.
fn parts<S: Suite>(step: &Step<S>) -> (Kind, Label, Length, Type) {
    match step {
        Step::Begin { label, kind } => (*kind, *label, Length::None, Marker(Begin)),
        Step::End { label, kind } => (*kind, *label, Length::None, Marker(End)),
        Step::Salt { label, len } => (Salt, *label, Fixed(*len), Bytes),
        Step::Bytes { label, len } => (Message, *label, Fixed(*len), Bytes),
        Step::Hint { label, len } => (Hint, *label, Fixed(*len), Bytes),
        Step::BytesBounded { label, max } => (Message, *label, Bounded(*max), Bytes),
        Step::HintBounded { label, max } => (Hint, *label, Bounded(*max), Bytes),
        Step::PublicScalar { label, .. } => (Public, *label, Scalar, Scalars),
        Step::PublicScalars { label, values } => { (Public, *label, Fixed(values.len()), Scalars) }
        Step::PublicScalarsBounded { label, max, .. } => (Public, *label, Bounded(*max), Scalars),
        Step::Scalar { label } => (Message, *label, Scalar, Scalars),
        Step::Scalars { label, n } => (Message, *label, Fixed(*n), Scalars),
        Step::ScalarsBounded { label, max } => (Message, *label, Bounded(*max), Scalars),
        Step::Extension { label } => extensions(label, Scalar),
        Step::ObserveExtension { label, .. } => extensions(label, Scalar),
        Step::ObserveExtensions { label, values } => extensions(label, Fixed(values.len())),
        Step::ObserveExtensionsBounded { label, max, .. } => extensions(label, Bounded(*max)),
        Step::Opaque { label, .. } => (Message, *label, Scalar, Opaque),
        Step::ChallengeScalar { label } => (Challenge, *label, Scalar, Scalars),
        Step::ChallengeScalars { label, n } => (Challenge, *label, Fixed(*n), Scalars),
        Step::ChallengeExtension { label } => (Challenge, *label, Scalar, Extensions),
        Step::ChallengeExtensions { label, n }
        | Step::ChallengeExtensionsRejecting { label, n, .. } => {
            (Challenge, *label, Fixed(*n), Extensions)
        }
        Step::ChallengeBits { label, width, n } => { (Challenge, *label, Fixed(*n), Bits(*width)) }
        Step::ChallengeUniformBits { label, width, n }
        | Step::ChallengeUniformBitsRejecting {
            label,
            width,
            n,
            ..
        } => { (Challenge, *label, Fixed(*n), UniformBits(*width)) }
        Step::Pow { label, bits } | Step::ObservePow { label, bits } => {
            (Pow, *label, Fixed(*bits), Scalars)
        }
    }
}

// A message of extension elements.
fn extensions(label: &Label, length: Length) -> (Kind, Label, Length, Type) {
    (Message, *label, length, Extensions)
}
