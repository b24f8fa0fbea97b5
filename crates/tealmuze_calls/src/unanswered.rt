//! Why a call is answered with no verdict.
ghost use Rattle.std.specs.Prelude.{◌≡◌};
ghost use Rattle.tealmuze_calls.specs.declared.unanswered.Unanswered.TheVariants.{OutOfMemory};

use std::alloc::{AllocError, AllocFailed};
use thiserror::Error;

/// Why a call is answered with no verdict.
#[derive(Clone, Copy, Debug, PartialEq, Eq, Error)]
pub enum Unanswered {
    /// Memory ran out.
    #[error("out of memory")]
    OutOfMemory,
    /// No suite has this number.
    #[error("suite {0}: unknown")]
    Suite(u8),
    /// The bytes end before what they begin does.
    #[error("the bytes end too early")]
    Ends,
    /// Bytes stand after the last step, or after the last value.
    #[error("bytes are left over")]
    LeftOver,
    /// The name or a label is no text.
    #[error("a name or a label that is no text")]
    NoText,
    /// The name is empty or too long.
    #[error("name: expected 1 to 62 bytes")]
    Name,
    /// The chunks are too long together.
    #[error("the chunks of the instance are too long")]
    Chunks,
    /// The step at this position is none.
    #[error("steps[{0}]: no step of this suite has this form")]
    Step(usize),
    /// The steps are no pattern: a container is closed that is not open, or the other way round, or holds what it may not.
    #[error("steps: containers do not nest, or hold a step of another kind")]
    NoPattern,
    /// The suite has no such step, or draws not so many bits.
    #[error("steps: the suite does not play one of them, or not with so many bits")]
    NotPlayed,
    /// The step that is asked for has another label than the protocol's next one, or none is left.
    #[error("label: the protocol has another step next, or none")]
    NotNext,
    /// The transcript has ended.
    #[error("the transcript has ended")]
    Ended,
    /// Another number of witnesses is carried than the steps want, or one is no element.
    #[error("carried: expected one element for each step that is carried one")]
    Carried,
    /// A value is none, or not that of its step.
    #[error("values: expected one for each step that sends one, of its type and length")]
    Values,
}

impl From<AllocError> for Unanswered {
    ghost from_gives = { λ _ e. e ≡ OutOfMemory };

    fn from(_error: AllocError) -> Unanswered {
        Unanswered::OutOfMemory
    }
}

impl<T: Drop> From<AllocFailed<T>> for Unanswered {
    ghost from_gives = { λ _ e. e ≡ OutOfMemory };

    fn from(_failed: AllocFailed<T>) -> Unanswered {
        Unanswered::OutOfMemory
    }
}
