// What the tests share. Each function is generic over the challenger, and so proved once, from its bounds alone: of a
// test on a challenger as it is each call takes seconds to prove.
use p3_challenger_core::{CanObserve, CanSample, ChallengerError};
use p3_field::PrimeField64;
use p3_grinding::GrindingChallenger;

/// Observes a value.
pub fn observe_one<V, C: CanObserve<V>>(
    challenger: &mut C,
    value: V,
) -> Result<(), ChallengerError> {
    challenger.observe(value)
}

/// Observes values by one call.
pub fn observe_many<V, C: CanObserve<V>>(
    challenger: &mut C,
    values: &[V],
) -> Result<(), ChallengerError> {
    challenger.observe_slice(values)
}

/// Whether the elements of these numbers are drawn next.
pub fn draws<F: PrimeField64, C: CanSample<F>>(
    challenger: &mut C,
    numbers: &[u64],
) -> Result<bool, ChallengerError> {
    for number in numbers {
        if challenger.sample()? != F::from_u64(*number) {
            return Ok(false);
        }
    }
    Ok(true)
}

/// The witness that is found and observed, of so many bits, which no field here has too few for.
pub fn grind<C: GrindingChallenger>(
    challenger: &mut C,
    bits: usize,
) -> Result<C::Witness, ChallengerError> {
    challenger.grind(C::max_bits().min(bits))
}
