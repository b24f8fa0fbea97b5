// Draws of bits and searches for a witness.
use crate::calls::Player;
use crate::timing::{Lap, Timed, nanoseconds_since};
use anyhow::Result;
use p3_challenger::{
    CanCopy, CanSampleBits, ChallengerError, GrindingChallenger, UniformBitsError,
    UniformGrindingChallenger,
};
use p3_field::PrimeField64;
use std::time::Instant;

/// What is asked for: so many draws of so many bits, or a witness of so many. It is timed by candidate: the witness and
/// those below it.
#[derive(Clone, Copy)]
pub enum Work {
    Draw { bits: usize, times: u32 },
    Search { bits: usize },
}

/// The same of uniform bits.
#[derive(Clone, Copy)]
pub struct Uniform {
    pub work: Work,
}

impl<T, C: GrindingChallenger + CanCopy> Timed<Player<'_, T, C>> for Work {
    fn lap(&self, rt: &HostRuntime, player: &Player<'_, T, C>) -> Result<Lap> {
        let mut challenger = player.challenger.copy()?;
        lap_of_work::<C>(rt, *self, &mut challenger)
    }
}

impl<T, C: UniformGrindingChallenger + CanCopy> Timed<Player<'_, T, C>> for Uniform {
    fn lap(&self, rt: &HostRuntime, player: &Player<'_, T, C>) -> Result<Lap> {
        let mut challenger = player.challenger.copy()?;
        lap_of_uniform_work::<C>(rt, self.work, &mut challenger)
    }
}

// It is compiled for itself, so that nothing is known of the challenger.
#[inline(never)]
fn lap_of_work<C: GrindingChallenger>(
    rt: &HostRuntime,
    work: Work,
    challenger: &mut C,
) -> Result<Lap> {
    let start = Instant::now(rt)?;
    let (operations, left) = match work {
        Work::Draw { bits, times } => draw_bits(challenger, bits, times)?,
        Work::Search { bits } => candidates(challenger.grind(C::max_bits().min(bits))?),
    };
    let nanoseconds = nanoseconds_since(rt, start)?;
    Ok(Lap {
        nanoseconds,
        operations,
        left,
    })
}

#[inline(never)]
fn lap_of_uniform_work<C: UniformGrindingChallenger>(
    rt: &HostRuntime,
    work: Work,
    challenger: &mut C,
) -> Result<Lap> {
    let start = Instant::now(rt)?;
    let (operations, left) = match work {
        Work::Draw { bits, times } => draw_uniform_bits(challenger, bits, times)?,
        Work::Search { bits } => candidates(challenger.grind_uniform(C::max_bits().min(bits))?),
    };
    let nanoseconds = nanoseconds_since(rt, start)?;
    Ok(Lap {
        nanoseconds,
        operations,
        left,
    })
}

// How many candidates were tried, and the witness.
fn candidates<F: PrimeField64>(witness: F) -> (u32, u64) {
    let number = witness.as_canonical_u64();
    (u32::try_from(number).unwrap_or(0).saturating_add(1), number)
}

fn draw_bits<C: CanSampleBits<usize>>(
    challenger: &mut C,
    bits: usize,
    times: u32,
) -> Result<(u32, u64), ChallengerError> {
    let bits = C::max_bits().min(bits);
    let mut sum = 0u64;
    for _ in 0..times {
        sum = sum.wrapping_add(challenger.sample_bits(bits)? as u64);
    }
    Ok((times, sum))
}

fn draw_uniform_bits<C: UniformGrindingChallenger>(
    challenger: &mut C,
    bits: usize,
    times: u32,
) -> Result<(u32, u64), UniformBitsError> {
    let bits = C::max_bits().min(bits);
    let mut sum = 0u64;
    for _ in 0..times {
        sum = sum.wrapping_add(challenger.sample_uniform_bits(bits, true)? as u64);
    }
    Ok((times, sum))
}
