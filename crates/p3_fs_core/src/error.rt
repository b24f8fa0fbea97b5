//! The errors of transcripts, patterns and steps.
ghost use Rattle.std.specs.Prelude.{◌≡◌, ◌↔◌, true};
ghost use Rattle.p3_fs_core.specs.Errors.{transcript_error, pattern_error_of, refusal_of};
ghost use Rattle.p3_fs_core.specs.declared.error.TranscriptError.TheVariants.{OutOfMemory};

use crate::Interaction;
use p3_challenger_core::ChallengerError;
use std::alloc::{AllocError, AllocFailed};
use std::fmt::Display;
use thiserror::Error;

/// Says why a step of a transcript was refused, or why steps are no pattern.
///
/// Each function's documentation says which state an error leaves.
///
/// Corresponds to the Rust crate's `TranscriptError`, with four more variants. Each variant holds its data inline.
#[derive(Clone, Debug, PartialEq, Eq, Drop, Error)]
pub enum TranscriptError {
    /// A closer stands where nothing is open.
    #[error(transparent)]
    MissingBegin(MissingBeginInfo),
    /// A step is of a kind that the container around it does not allow.
    #[error(transparent)]
    InvalidKind(InvalidKindInfo),
    /// A closer does not match the innermost opener that is still open.
    #[error(transparent)]
    MismatchedBeginEnd(MismatchedBeginEndInfo),
    /// A container is still open at the end.
    #[error(transparent)]
    MissingEnd(MissingEndInfo),
    /// The bytes of the proof do not encode what the step reads.
    #[error("bad proof shape: {reason}")]
    BadProofShape {
        /// What is wrong with the bytes.
        reason: &'static str,
    },
    /// The step does not fit the pattern that is recorded or played. The Rust crate panics there.
    #[error(transparent)]
    Pattern(PatternError),
    /// The challenger refused a call, for a reason other than memory. Not in the Rust crate.
    #[error(transparent)]
    Challenger(ChallengerError),
    /// The label of an instance would be too long for a length of four bytes. Not in the Rust crate.
    #[error("label too long")]
    LabelTooLong,
    /// An allocation was refused. Not in the Rust crate.
    #[error("out of memory")]
    OutOfMemory,
}

/// A closer where nothing is open.
///
/// Corresponds to the Rust crate's `MissingBeginInfo`.
#[derive(Clone, Copy, Debug, PartialEq, Eq, Error)]
#[error("missing begin for {end} at position {position}")]
pub struct MissingBeginInfo {
    /// The position of the closer among the steps.
    pub position: usize,
    /// The closer.
    pub end: Interaction,
}

/// A step, leaf or opener, of a kind that the enclosing container does not allow.
///
/// Corresponds to the Rust crate's `InvalidKindInfo`.
#[derive(Clone, Copy, Debug, PartialEq, Eq, Error)]
#[error("invalid kind {interaction} at {interaction_position} for sub-protocol {begin} opened at {begin_position}")]
pub struct InvalidKindInfo {
    /// The position of the container's opener among the steps.
    pub begin_position: usize,
    /// The opener of the container.
    pub begin: Interaction,
    /// The position of the step among the steps.
    pub interaction_position: usize,
    /// The step.
    pub interaction: Interaction,
}

/// A closer that does not match the innermost opener that is still open.
///
/// Corresponds to the Rust crate's `MismatchedBeginEndInfo`.
#[derive(Clone, Copy, Debug, PartialEq, Eq, Error)]
#[error("mismatched begin {begin} at {begin_position} versus end {end} at {end_position}")]
pub struct MismatchedBeginEndInfo {
    /// The position of the opener among the steps.
    pub begin_position: usize,
    /// The opener.
    pub begin: Interaction,
    /// The position of the closer among the steps.
    pub end_position: usize,
    /// The closer.
    pub end: Interaction,
}

/// The innermost opener that is still open at the end.
///
/// Corresponds to the Rust crate's `MissingEndInfo`.
#[derive(Clone, Copy, Debug, PartialEq, Eq, Error)]
#[error("missing end for {begin} opened at position {position}")]
pub struct MissingEndInfo {
    /// The position of the opener among the steps.
    pub position: usize,
    /// The opener.
    pub begin: Interaction,
}

/// Says why a step does not fit a pattern that is recorded or played.
///
/// `I` is the type of the steps: an [`Interaction`] in a program, and in a contract also the meaning of one.
///
/// Not in the Rust crate, which panics in these cases.
#[derive(Clone, Copy, Debug, PartialEq, Eq, Error)]
#[error_bound(I: Display)]
pub enum PatternError<I = Interaction> {
    /// A step was refused before, so nothing may follow.
    #[error("already finished")]
    Finished,
    /// The pattern has no step left.
    #[error("no more steps, received {received}")]
    NoMoreSteps {
        /// The step that was received.
        received: I,
    },
    /// The pattern has another step next.
    #[error("received {received}, expected {expected}")]
    WrongStep {
        /// The step that was received.
        received: I,
        /// The step that the pattern has next.
        expected: I,
    },
    /// The pattern has steps left at the end.
    #[error("unplayed {expected}")]
    Unplayed {
        /// The first of them.
        expected: I,
    },
    /// A list is longer than the step allows.
    #[error("length {len} exceeds {max}")]
    OverCap {
        /// The length of the list.
        len: usize,
        /// The greatest length that the step allows.
        max: usize,
    },
}

impl From<ChallengerError> for TranscriptError {
    ghost from_gives = { λ error e. e ≡ transcript_error error };

    fn from(error: ChallengerError) -> TranscriptError {
        match error {
            ChallengerError::OutOfMemory => TranscriptError::OutOfMemory,
            ChallengerError::DrawLimit | ChallengerError::NoWitness | ChallengerError::TooLong => {
                TranscriptError::Challenger(error)
            }
        }
    }
}

impl From<AllocError> for TranscriptError {
    ghost from_gives = { λ _ e. e ≡ OutOfMemory };

    fn from(_error: AllocError) -> TranscriptError {
        TranscriptError::OutOfMemory
    }
}

impl<T: Drop> From<AllocFailed<T>> for TranscriptError {
    ghost from_gives = { λ _ e. e ≡ OutOfMemory };

    fn from(_failed: AllocFailed<T>) -> TranscriptError {
        TranscriptError::OutOfMemory
    }
}

impl PatternError {
    /// Two errors compare equal exactly where they have the same variant, steps and numbers, wherever the steps' texts
    /// lie.
    ///
    /// A law: the body is empty, and a caller cites the clause.
    #[tactic(auto, using(crate::proofs::ErrorEquality::equal_pattern_errors))]
    pub fn compared_by_parts()
        ensures { (a b : PatternError Interaction) → (⟦<PatternError as PartialEq>⟧.eq a b ≡ true
            ↔ pattern_error_of a ≡ pattern_error_of b) }
    {}
}

impl TranscriptError {
    /// Two errors compare equal exactly where they have the same variant, steps, numbers and reason, wherever the
    /// texts lie.
    ///
    /// A law: the body is empty, and a caller cites the clause.
    #[tactic(auto, using(crate::proofs::ErrorEquality::equal_refusals))]
    pub fn compared_by_parts()
        ensures { (a b : TranscriptError) →
            (⟦<TranscriptError as PartialEq>⟧.eq a b ≡ true ↔ refusal_of a ≡ refusal_of b) }
    {}
}
