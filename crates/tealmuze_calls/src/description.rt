//! A protocol, as its description has it.
ghost use Rattle.std.specs.Prelude.{◌≡◌, ℕ, List, ◌++◌, length, map, IfOk, IfErr};
ghost use Rattle.p3_challenger.specs.{PatternSteps.steps_of, Runs.{AreAdmitted, interactions}, Scripts.play_of};
ghost use Rattle.p3_challenger.specs.{Separators.contents_of, SeparatorSeed.{held_of, separator_of}};
ghost use Rattle.p3_challenger.specs.TranscriptError.TheVariants as fault;
ghost use Rattle.tealmuze_calls.specs.{Forms.{counted_bytes, listed_bytes}, Readings.{FitsWord, IsListHeld}};
ghost use Rattle.tealmuze_calls.specs.Descriptions.{Describes, IsRead, AreRead};
ghost use Rattle.tealmuze_calls.specs.Errors.{IsDueTo, BeginsWithNone, FailsOnlyWithNone, both};

use crate::cursor::Cursor;
use crate::steps::parse_step;
use crate::suites::{Called, SeparatorOf};
use crate::unanswered::Unanswered;
use p3_challenger::Sponge;
use p3_challenger::fs::script::{Meaning, Step, admitted, pattern};
use p3_challenger::fs::{DomainSeparator, InteractionPattern, TranscriptError};
use std::alloc::Global;

/// A protocol that a suite plays.
#[derive(Drop)]
pub struct Protocol<S: Called> {
    /// What binds a transcript to the protocol.
    pub separator: SeparatorOf<S>,
    /// The steps, in order.
    pub steps: Vec<Step<S>>,
}

impl<S: Called> Protocol<S> {
    /// Reads what stands after the suite: the version, the name, the chunks of the instance's label, and the steps.
    /// Labels are lent of the bytes.
    pub fn parse(alloc: Global, from: Cursor<'static>) -> Result<Protocol<S>, Unanswered>
        ensures ok { IfOk result (λ protocol. Describes S.Field.residues.number S.Extension.coefficients
            S.opaque_numbers S.are_opaque (⟦<S as Meaning>⟧.rules S.Field.DIMENSION) from.entry.left.now
            (held_of protocol.separator) protocol.steps.items) }
        ensures err { FailsOnlyWithNone result (λ protocol. both (held_of protocol.separator) protocol.steps.items)
            (λ protocol. Describes S.Field.residues.number S.Extension.coefficients S.opaque_numbers S.are_opaque
            (⟦<S as Meaning>⟧.rules S.Field.DIMENSION) from.entry.left.now protocol.0 protocol.1) }
    {
        let mut from = from;
        let version = from.byte()?;
        let name = from.text()?.as_bytes();
        let chunks = parse_chunks(alloc, &mut from)?;
        let steps = parse_steps::<S>(alloc, &mut from)?;
        if !from.is_empty() {
            return Err(Unanswered::LeftOver);
        }
        let pattern = played_pattern::<S>(alloc, steps.as_slice())?;
        let separator = separate::<S>(alloc, version, name, chunks.as_slice(), pattern)?;
        Ok(Protocol { separator, steps })
    }
}

// The chunks of the instance's label.
fn parse_chunks(alloc: Global, from: &mut Cursor<'static>) -> Result<Vec<&'static [u8]>, Unanswered>
    ensures read { IfOk result (λ chunks. from.old.left.now
        ≡ listed_bytes counted_bytes (map (λ chunk. chunk.now) chunks.items) ++ from.new.left.now) }
    ensures held { IfOk result (λ chunks. IsListHeld (λ chunk. FitsWord (length chunk))
        (map (λ chunk. chunk.now) chunks.items)) }
    ensures err { IfErr result (IsDueTo (BeginsWithNone (IsListHeld (λ chunk. FitsWord (length chunk)))
        (listed_bytes counted_bytes) from.old.left.now)) }
{
    let count = from.number()?;
    let mut chunks = Vec::new(alloc);
    for read in 0..count {
        chunks.push(from.counted()?)?;
    }
    Ok(chunks)
}

// The steps.
fn parse_steps<S: Called>(
    alloc: Global,
    from: &mut Cursor<'static>,
) -> Result<Vec<Step<S>>, Unanswered>
    ensures ok { IfOk result (λ steps. AreRead S.Field.residues.number S.Extension.coefficients
        S.opaque_numbers S.are_opaque from.old.left.now from.new.left.now steps.items) }
    ensures err { FailsOnlyWithNone result (λ steps. steps.items) (λ steps. (left : List ℕ)
        × AreRead S.Field.residues.number S.Extension.coefficients S.opaque_numbers S.are_opaque
        from.old.left.now left steps) }
{
    let count = from.number()?;
    let mut steps = Vec::new(alloc);
    for position in 0..count {
        steps.push(parse_next(alloc, from, position as usize)?)?;
    }
    Ok(steps)
}

// The next step, which has this position.
fn parse_next<S: Called>(
    alloc: Global,
    from: &mut Cursor<'static>,
    position: usize,
) -> Result<Step<S>, Unanswered>
    ensures ok { IfOk result (IsRead S.Field.residues.number S.Extension.coefficients S.opaque_numbers S.are_opaque
        from.old.left.now from.new.left.now) }
    ensures err { FailsOnlyWithNone result (λ s. s) (λ s. (left : List ℕ)
        × IsRead S.Field.residues.number S.Extension.coefficients S.opaque_numbers S.are_opaque
        from.old.left.now left s) }
{
    let what = from.byte()?;
    let label = from.text()?;
    let numbers = from.numbers(alloc)?;
    match parse_step(alloc, what, label, numbers.as_slice()) {
        Ok(step) => Ok(step),
        Err(Unanswered::OutOfMemory) => Err(Unanswered::OutOfMemory),
        Err(_) => Err(Unanswered::Step(position)),
    }
}

// The pattern of steps that the suite plays.
fn played_pattern<S: Called>(
    alloc: Global,
    steps: &[Step<S>],
) -> Result<InteractionPattern, Unanswered>
    ensures ok { let rules = ⟦<S as Meaning>⟧.rules S.Field.DIMENSION in IfOk result (λ pattern.
        (interactions (play_of rules) steps.now ≡ steps_of pattern) × AreAdmitted (play_of rules) steps.now) }
    ensures err { let rules = ⟦<S as Meaning>⟧.rules S.Field.DIMENSION in
        FailsOnlyWithNone result (λ pattern. pattern) (λ pattern.
        (interactions (play_of rules) steps.now ≡ steps_of pattern) × AreAdmitted (play_of rules) steps.now) }
{
    let found = match pattern(alloc, steps) {
        Ok(found) => found,
        Err(error) => return Err(no_pattern(error)),
    };
    if !admitted(steps) {
        return Err(Unanswered::NotPlayed);
    }
    Ok(found)
}

// Why steps have no pattern.
fn no_pattern(error: TranscriptError) -> Unanswered
    ensures { IsDueTo (error ≡ fault.OutOfMemory → ⊥) result }
{
    match error {
        TranscriptError::OutOfMemory => Unanswered::OutOfMemory,
        _ => Unanswered::NoPattern,
    }
}

// The separator of these.
fn separate<S: Called>(
    alloc: Global,
    version: u8,
    name: &[u8],
    chunks: &[&'static [u8]],
    pattern: InteractionPattern,
) -> Result<SeparatorOf<S>, Unanswered>
    ensures ok { IfOk result (λ separator. separator_of separator ≡ record {
      version = version;
      name = name.now;
      chunks = map (λ chunk. chunk.now) chunks.now;
      pattern = pattern;
    }) }
    ensures err { FailsOnlyWithNone result (λ separator. held_of separator) (λ held.
        ((contents_of held).name ≡ name.now)
        × ((contents_of held).chunks ≡ map (λ chunk. chunk.now) chunks.now)) }
{
    if name.is_empty() || name.len() > 62 {
        return Err(Unanswered::Name);
    }
    let mut separator = match DomainSeparator::new(alloc, version, name, pattern) {
        Ok(separator) => separator,
        Err(_) => return Err(Unanswered::OutOfMemory),
    };
    for chunk in chunks {
        match separator.instance(chunk) {
            Ok(()) => {}
            Err(TranscriptError::OutOfMemory) => return Err(Unanswered::OutOfMemory),
            Err(_) => return Err(Unanswered::Chunks),
        }
    }
    Ok(separator)
}
