//! The errors of draws of uniform bits.
ghost use Rattle.std.specs.Prelude.{◌≡◌};
ghost use Rattle.p3_field_core.specs.Equality.{IsExact};
ghost use Rattle.p3_grinding.specs.declared.error.UniformBitsError.TheVariants.{Challenger};

use p3_challenger_core::ChallengerError;
use thiserror::Error;

/// A drawn value was rejected, and another draw in its place was not allowed.
///
/// The Rust crate's `ResamplingError` has fields that nobody can read.
#[derive(Clone, Copy, Debug, PartialEq, Eq, Error)]
#[error("sampled value {value} is not below rejection bound {m}, but resampling is disabled")]
pub struct ResamplingError {
    value: u64,
    m: u64,
}

impl ResamplingError {
    /// Returns the error for a drawn value, a canonical number, that is not below the bound `m`. Not in the Rust crate.
    ///
    /// The two numbers have no condition. A law of [`CanSampleUniformBits`](crate::CanSampleUniformBits) says that a
    /// draw returns this error only with a value that is not below its bound.
    pub fn new(value: u64, m: u64) -> Self
        ensures { result ≡ record { value = value; m = m } }
    {
        ResamplingError { value, m }
    }

    /// Returns the drawn value: a canonical number, at or above the bound.
    pub fn value(&self) -> u64
        ensures { result ≡ self.now.value }
    {
        self.value
    }

    /// Returns the bound that values had to be below.
    pub fn m(&self) -> u64
        ensures { result ≡ self.now.m }
    {
        self.m
    }

    /// Two errors compare equal exactly where they are the same.
    ///
    /// A law: the body is empty, and a caller cites the clause.
    pub fn compared_exactly()
        ensures { IsExact ⟦<ResamplingError as PartialEq>⟧.eq }
    {}
}

/// Says why a draw of uniform bits was refused.
///
/// Not in the Rust crate, where the only error is a [`ResamplingError`].
#[derive(Clone, Copy, Debug, PartialEq, Eq, Error)]
pub enum UniformBitsError {
    /// A drawn value was rejected, and another draw in its place was not allowed. The value and those before it are
    /// consumed.
    #[error(transparent)]
    Resampling(ResamplingError),
    /// The challenger refused a draw, and is left as that draw leaves it.
    #[error(transparent)]
    Challenger(ChallengerError),
}

impl UniformBitsError {
    /// Two errors compare equal exactly where they are the same.
    ///
    /// A law: the body is empty, and a caller cites the clause.
    pub fn compared_exactly()
        ensures { IsExact ⟦<UniformBitsError as PartialEq>⟧.eq }
    {}
}

impl From<ChallengerError> for UniformBitsError {
    ghost from_gives = { λ error e. e ≡ Challenger error };

    fn from(error: ChallengerError) -> UniformBitsError {
        UniformBitsError::Challenger(error)
    }
}
