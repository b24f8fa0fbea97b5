// Calls on any challenger, each made once more where memory ran out.
use p3_challenger::{CanCopy, CanObserve, CanSample, ChallengerError, GrindingChallenger};

// How much work is asked for, in bits.
const BITS: usize = 3;

/// Observes a value.
pub fn observe<V: Copy, C: CanObserve<V>>(
    challenger: &mut C,
    value: V,
) -> Result<(), ChallengerError> {
    again!(ChallengerError::OutOfMemory, challenger.observe(value))
}

/// Observes values by one call.
pub fn observe_slice<V, C: CanObserve<V>>(
    challenger: &mut C,
    values: &[V],
) -> Result<(), ChallengerError> {
    again!(
        ChallengerError::OutOfMemory,
        challenger.observe_slice(values)
    )
}

/// An equal challenger.
pub fn copy<C: CanCopy>(challenger: &C) -> Result<C, ChallengerError> {
    again!(ChallengerError::OutOfMemory, challenger.copy())
}

/// Draws a value.
pub fn sample<V: Drop, C: CanSample<V>>(challenger: &mut C) -> Result<V, ChallengerError> {
    again!(ChallengerError::OutOfMemory, challenger.sample())
}

/// Searches for a witness.
pub fn grind<C: GrindingChallenger>(challenger: &mut C) -> Result<C::Witness, ChallengerError> {
    let bits = C::max_bits().min(BITS);
    again!(ChallengerError::OutOfMemory, challenger.grind(bits))
}

/// Checks a witness.
pub fn check_witness<C: GrindingChallenger>(
    challenger: &mut C,
    witness: C::Witness,
) -> Result<bool, ChallengerError> {
    let bits = C::max_bits().min(BITS);
    again!(
        ChallengerError::OutOfMemory,
        challenger.check_witness(bits, witness)
    )
}
