//! The errors of challengers.
ghost use Rattle.std.specs.Prelude.{◌≡◌};
ghost use Rattle.p3_field_core.specs.Equality.{IsExact};
ghost use Rattle.p3_challenger_core.specs.declared.error.ChallengerError.TheVariants.{OutOfMemory};

use std::alloc::{AllocError, AllocFailed};
use thiserror::Error;

/// Says why a call on a challenger was refused. Each method says which state an error leaves.
///
/// Not in the Rust crate. There a refused allocation or a missing witness ends the process, and a draw that rejects
/// values has no limit.
#[derive(Clone, Copy, Debug, PartialEq, Eq, Error)]
pub enum ChallengerError {
    /// An allocation was refused.
    #[error("out of memory")]
    OutOfMemory,
    /// As many candidates in a row as the draw limit allows were drawn, and each was rejected.
    #[error("draw limit")]
    DrawLimit,
    /// No candidate of a search passes.
    #[error("no witness")]
    NoWitness,
    /// A byte string is too long for the alphabet that would feed it.
    #[error("too long")]
    TooLong,
}

impl ChallengerError {
    /// Two errors compare equal exactly where they are the same.
    ///
    /// A law: the body is empty, and a caller cites the clause.
    pub fn compared_exactly()
        ensures { IsExact ⟦<ChallengerError as PartialEq>⟧.eq }
    {}
}

impl From<AllocError> for ChallengerError {
    ghost from_gives = { λ _ e. e ≡ OutOfMemory };

    fn from(_error: AllocError) -> ChallengerError {
        ChallengerError::OutOfMemory
    }
}

impl<T: Drop> From<AllocFailed<T>> for ChallengerError {
    ghost from_gives = { λ _ e. e ≡ OutOfMemory };

    fn from(_failed: AllocFailed<T>) -> ChallengerError {
        ChallengerError::OutOfMemory
    }
}
