// The calls of a challenger that are timed: observes and draws, of any challenger.
use crate::timing::{Lap, Timed, nanoseconds_since};
use anyhow::Result;
use p3_challenger::{CanCopy, CanObserve, CanSample, ChallengerError};
use p3_field::{BabyBear, PrimeCharacteristicRing, PrimeField64};
use std::time::Instant;

const BLOCK: usize = 64;

/// What is observed and drawn.
pub trait Symbol: Copy {
    /// One that follows from a number.
    fn numbered(number: u32) -> Self;

    /// A number that follows from it.
    fn shown(self) -> u64;
}

impl Symbol for u8 {
    fn numbered(number: u32) -> u8 {
        (number % 256) as u8
    }

    fn shown(self) -> u64 {
        u64::from(self)
    }
}

impl Symbol for BabyBear {
    fn numbered(number: u32) -> BabyBear {
        BabyBear::from_u32(number)
    }

    fn shown(self) -> u64 {
        self.as_canonical_u64()
    }
}

/// What a challenger is asked for in a run, which gets a copy of it.
#[derive(Clone, Copy)]
pub enum Calls {
    /// So many values are observed, each made when it is.
    ObserveMade(u32),
    /// The values of the list are observed one by one.
    ObserveEach,
    /// So many values of the list are observed as one slice, so many times.
    ObserveSlices { len: usize, times: u32 },
    /// So many values are drawn one by one.
    Draw(u32),
    /// So many values are drawn as a list.
    DrawList(u32),
    /// So many values are observed and one is drawn, so many times.
    Turns { observes: u32, rounds: u32 },
    /// Each 64 values of the list are observed as one slice, and one is drawn.
    Blocks,
}

/// A challenger, and a list of values for it.
#[derive(Drop)]
pub struct Player<'a, T, C> {
    pub challenger: &'a C,
    pub values: &'a [T],
}

impl<T: Symbol, C: CanObserve<T> + CanSample<T> + CanCopy> Timed<Player<'_, T, C>> for Calls {
    fn lap(&self, rt: &HostRuntime, player: &Player<'_, T, C>) -> Result<Lap> {
        let mut challenger = player.challenger.copy()?;
        lap_of_calls::<T, C>(rt, *self, &mut challenger, player.values)
    }
}

// It is compiled for itself, so that nothing is known of the challenger.
#[inline(never)]
fn lap_of_calls<T: Symbol, C: CanObserve<T> + CanSample<T>>(
    rt: &HostRuntime,
    calls: Calls,
    challenger: &mut C,
    values: &[T],
) -> Result<Lap> {
    let mut list = Vec::new(rt.alloc());
    let start = Instant::now(rt)?;
    let (operations, sum) = play::<T, C>(calls, challenger, values, &mut list)?;
    let nanoseconds = nanoseconds_since(rt, start)?;
    let next: T = challenger.sample()?;
    let last = list.last().map_or(0, |last: &T| last.shown());
    Ok(Lap {
        nanoseconds,
        operations,
        left: sum.wrapping_add(next.shown()).wrapping_add(last),
    })
}

// Makes the calls, and gives how many operations they were, and a sum of what was drawn.
fn play<T: Symbol, C: CanObserve<T> + CanSample<T>>(
    calls: Calls,
    challenger: &mut C,
    values: &[T],
    list: &mut Vec<T>,
) -> Result<(u32, u64), ChallengerError> {
    match calls {
        Calls::ObserveMade(count) => observe_made::<T, C>(challenger, count),
        Calls::ObserveEach => observe_each(challenger, values),
        Calls::ObserveSlices { len, times } => observe_slices(challenger, values, len, times),
        Calls::Draw(count) => draw::<T, C>(challenger, count),
        Calls::DrawList(count) => {
            *list = challenger.sample_vec(*list.allocator(), count as usize)?;
            Ok((count, 0))
        }
        Calls::Turns { observes, rounds } => turns::<T, C>(challenger, observes, rounds),
        Calls::Blocks => blocks(challenger, values),
    }
}

fn observe_made<T: Symbol, C: CanObserve<T>>(
    challenger: &mut C,
    count: u32,
) -> Result<(u32, u64), ChallengerError> {
    for i in 0..count {
        challenger.observe(T::numbered(i))?;
    }
    Ok((count, 0))
}

fn observe_each<T: Symbol, C: CanObserve<T>>(
    challenger: &mut C,
    values: &[T],
) -> Result<(u32, u64), ChallengerError> {
    let mut count = 0u32;
    for value in values {
        challenger.observe(*value)?;
        count = count.wrapping_add(1);
    }
    Ok((count, 0))
}

fn observe_slices<T: Symbol, C: CanObserve<T>>(
    challenger: &mut C,
    values: &[T],
    len: usize,
    times: u32,
) -> Result<(u32, u64), ChallengerError> {
    let slice = values.get(..len).unwrap_or(values);
    for _ in 0..times {
        challenger.observe_slice(slice)?;
    }
    let count = u32::try_from(len).unwrap_or(0);
    Ok((count.wrapping_mul(times), 0))
}

fn draw<T: Symbol, C: CanSample<T>>(
    challenger: &mut C,
    count: u32,
) -> Result<(u32, u64), ChallengerError> {
    let mut sum = 0u64;
    for _ in 0..count {
        let drawn: T = challenger.sample()?;
        sum = sum.wrapping_add(drawn.shown());
    }
    Ok((count, sum))
}

fn turns<T: Symbol, C: CanObserve<T> + CanSample<T>>(
    challenger: &mut C,
    observes: u32,
    rounds: u32,
) -> Result<(u32, u64), ChallengerError> {
    let mut sum = 0u64;
    for i in 0..rounds {
        for j in 0..observes {
            challenger.observe(T::numbered(i.wrapping_add(j)))?;
        }
        let drawn: T = challenger.sample()?;
        sum = sum.wrapping_add(drawn.shown());
    }
    Ok((rounds, sum))
}

fn blocks<T: Symbol, C: CanObserve<T> + CanSample<T>>(
    challenger: &mut C,
    values: &[T],
) -> Result<(u32, u64), ChallengerError> {
    let mut count = 0u32;
    let mut sum = 0u64;
    for block in values.chunks_exact(BLOCK) {
        challenger.observe_slice(block)?;
        let drawn: T = challenger.sample()?;
        sum = sum.wrapping_add(drawn.shown());
        count = count.wrapping_add(1);
    }
    Ok((count, sum))
}
