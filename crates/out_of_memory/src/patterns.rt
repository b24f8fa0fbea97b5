// Calls on what records a pattern, and on what is made of one.
use anyhow::Result;
use p3_challenger::fs::{
    DomainSeparator, FieldUnit, Hierarchy, Interaction, InteractionPattern, Kind, Length, Pattern,
    PatternState, TranscriptError,
};
use p3_challenger::{CanObserve, DuplexChallenger};
use p3_field::F257;
use p3_symmetric::{Sha256Hasher, Turn};
use std::alloc::Global;

type Separator = DomainSeparator<FieldUnit<F257>, Sha256Hasher>;

/// Makes the calls, and prints what they answer.
pub fn show(rt: &HostRuntime) -> Result<()> {
    let pattern = listed_again(rt.alloc())?;
    let same = is_recorded_and_copied(rt.alloc(), &pattern)?;
    let lines = lines(&pattern)?;
    let first = first_of_hash(&pattern)?;
    println!(rt; "pattern: {same} {lines} {first}")?;
    show_separator(rt)
}

// The steps of a protocol.
fn steps() -> [Interaction; 3] {
    [
        Interaction::marker::<()>(Hierarchy::Begin, Kind::Protocol, "one"),
        Interaction::bytes(Hierarchy::Atomic, Kind::Message, "note", Length::Fixed(2)),
        Interaction::marker::<()>(Hierarchy::End, Kind::Protocol, "one"),
    ]
}

fn recorded(alloc: Global) -> Result<InteractionPattern, TranscriptError> {
    let mut recorder = PatternState::<u8>::new(alloc);
    for step in steps() {
        if let Err(error) = recorder.interact(step) {
            recorder.abort();
            return Err(error);
        }
    }
    recorder.finalize()
}

fn listed(alloc: Global) -> Result<InteractionPattern, TranscriptError> {
    let mut list = Vec::new(alloc);
    for step in steps() {
        list.push(step)?;
    }
    InteractionPattern::new(list)
}

fn separator(alloc: Global) -> Result<Separator, TranscriptError> {
    DomainSeparator::new(alloc, 1, b"one", listed(alloc)?)
}

// ---- calls that are made once more where memory ran out

fn listed_again(alloc: Global) -> Result<InteractionPattern, TranscriptError> {
    again!(TranscriptError::OutOfMemory, listed(alloc))
}

// Whether the pattern is the one that a recorder makes, and equals its copy.
fn is_recorded_and_copied(
    alloc: Global,
    pattern: &InteractionPattern,
) -> Result<bool, TranscriptError> {
    let recorded = again!(TranscriptError::OutOfMemory, recorded(alloc))?;
    let copy = again!(TranscriptError::OutOfMemory, pattern.clone())?;
    Ok(*pattern == recorded && *pattern == copy)
}

// How many lines its text has.
fn lines(pattern: &InteractionPattern) -> Result<usize, TranscriptError> {
    let text = again!(TranscriptError::OutOfMemory, pattern.alternate())?;
    Ok(text.as_str().lines().count())
}

fn first_of_hash(pattern: &InteractionPattern) -> Result<u8, TranscriptError> {
    let digest = again!(
        TranscriptError::OutOfMemory,
        pattern.pattern_hash::<Sha256Hasher>()
    )?;
    Ok(digest[0])
}

// A separator whose label has a chunk more.
fn labeled(alloc: Global) -> Result<Separator, TranscriptError> {
    let mut separator = again!(TranscriptError::OutOfMemory, separator(alloc))?;
    again!(TranscriptError::OutOfMemory, separator.instance(b"label"))?;
    Ok(separator)
}

fn equals_its_copy(separator: &Separator) -> Result<bool, TranscriptError> {
    let copy = again!(TranscriptError::OutOfMemory, separator.clone())?;
    Ok(copy == *separator)
}

// Observes the seed.
fn seed<C: CanObserve<F257>>(
    separator: &Separator,
    challenger: &mut C,
) -> Result<(), TranscriptError> {
    again!(TranscriptError::OutOfMemory, separator.seed(challenger))
}

// Adds a chunk to the label, copies the separator, and observes the seed.
fn show_separator(rt: &HostRuntime) -> Result<()> {
    let separator = labeled(rt.alloc())?;
    let same = equals_its_copy(&separator)?;
    let mut challenger: DuplexChallenger<F257, Turn<2>, 3, 2> = DuplexChallenger::new(Turn, 4);
    seed(&separator, &mut challenger)?;
    let pending = challenger.input().len();
    println!(rt; "separator: {same} {pending}")?;
    Ok(())
}
