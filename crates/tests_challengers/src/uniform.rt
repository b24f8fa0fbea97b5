// Uniform bits of an element that is no uniform value of so few.
ghost use Rattle.std.specs.Prelude.{◌≤◌};

use p3_challenger_core::{CanObserve, CanSample, ChallengerError};
use p3_duplex::DuplexChallenger;
use p3_field::{BabyBear, PrimeCharacteristicRing};
use p3_grinding::{CanSampleUniformBits, ResamplingError, UniformBitsError};
use p3_symmetric::Turn;
use std::process::Abort;

// After these numbers the largest element, 2013265920, which is no uniform value of so few bits, is the second one that is
// drawn by a challenger that turns its cells by one.
const OBSERVED: [u64; 2] = [7, 2013265919];

// More bits than one element serves for, so that they are drawn in two halves: the second one meets the largest element.
const BITS: usize = 28;

// Whether a draw of these bits, which is done again where that is allowed, answers so, and which number is drawn next.
fn answers<C: CanObserve<BabyBear> + CanSample<BabyBear> + CanSampleUniformBits<BabyBear>>(
    mut challenger: C,
    resample: bool,
    answer: Result<usize, UniformBitsError>,
    next: u64,
) -> Result<bool, ChallengerError>
where
    C: Drop,
{
    for number in &OBSERVED {
        challenger.observe(BabyBear::from_u64(*number))?;
    }
    let answered = challenger.sample_uniform_bits(C::max_bits().min(BITS), resample);
    Ok(answered == answer && challenger.sample()? == BabyBear::from_u64(next))
}

fn fresh(draw_limit: u64) -> DuplexChallenger<BabyBear, Turn<1>, 3, 2>
    requires { 1 ≤ draw_limit }
{
    DuplexChallenger::new(Turn, draw_limit)
}

#[test]
fn value_at_the_bound_is_rejected_or_drawn_again(rt: HostRuntime) {
    let rejected = UniformBitsError::Resampling(ResamplingError::new(2013265920, 2013265920));
    let limit = UniformBitsError::Challenger(ChallengerError::DrawLimit);
    assert!(rt; answers(fresh(1), false, Err(rejected), 12) == Ok(true));
    assert!(rt; answers(fresh(1), true, Err(limit), 12) == Ok(true));
    assert!(rt; answers(fresh(2), true, Ok(196612), 5) == Ok(true));
}
