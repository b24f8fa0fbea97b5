// How long it takes to absorb the seed of a transcript.
use crate::hash::new_chain;
use crate::patterns::container;
use crate::timing::{Lap, Shortest, nanoseconds_since};
use anyhow::Result;
use p3_challenger::fs::{DomainSeparator, FieldUnit, InteractionPattern, TranscriptError, Unit};
use p3_challenger::{CanCopy, CanObserve, DuplexChallenger};
use p3_field::{BabyBear, Goldilocks};
use p3_symmetric::{Sha256Hasher, Turn};
use std::time::Instant;

type Separator<U> = DomainSeparator<U, Sha256Hasher>;

type Duplex<F> = DuplexChallenger<F, Turn<1>, 16, 8>;

type Symbols<F> = FieldUnit<F>;

/// Times the seed of an instance of 1 MiB in each alphabet, and that of a small pattern, and gives a sum of what
/// they leave.
pub fn measure_all(rt: &HostRuntime, runs: u32, text: &[u8]) -> Result<u64> {
    let duplex = Duplex::<BabyBear>::new(Turn, 1);
    let large = Duplex::<Goldilocks>::new(Turn, 1);
    let chain = new_chain(rt.alloc());
    let empty = InteractionPattern::empty(rt.alloc());
    let name = "seed 1MiB FieldUnit<BabyBear> duplex per byte";
    measure::<Symbols<BabyBear>, _>(rt, runs, name, empty, text, &duplex)?;
    let empty = InteractionPattern::empty(rt.alloc());
    let name = "seed 1MiB FieldUnit<Goldilocks> duplex per byte";
    measure::<Symbols<Goldilocks>, _>(rt, runs, name, empty, text, &large)?;
    let empty = InteractionPattern::empty(rt.alloc());
    measure::<u8, _>(rt, runs, "seed 1MiB u8 hash per byte", empty, text, &chain)?;
    let small = InteractionPattern::new(container(rt.alloc(), 10)?)?;
    let often = runs.saturating_mul(200);
    measure::<Symbols<BabyBear>, _>(
        rt,
        often,
        "seed of 10-step pattern, whole",
        small,
        b"",
        &duplex,
    )
}

// A byte of the text is an operation; where there is none, the whole seed is.
fn measure<U: Unit, C: CanObserve<U::Item> + CanCopy>(
    rt: &HostRuntime,
    runs: u32,
    name: &str,
    pattern: InteractionPattern,
    text: &[u8],
    challenger: &C,
) -> Result<u64>
    requires { U.is_alphabet }
{
    let mut separator = Separator::<U>::new(rt.alloc(), 1, b"bench", pattern)?;
    separator.instance(text)?;
    let operations = u32::try_from(text.len()).unwrap_or(0).max(1);
    let mut shortest = Shortest::new();
    for _ in 0..runs {
        shortest.take(lap::<U, C>(rt, &separator, challenger, operations)?);
    }
    shortest.print(rt, name, "")
}

fn lap<U: Unit, C: CanObserve<U::Item> + CanCopy>(
    rt: &HostRuntime,
    separator: &Separator<U>,
    challenger: &C,
    operations: u32,
) -> Result<Lap>
    requires { U.is_alphabet }
{
    let mut challenger = challenger.copy()?;
    let start = Instant::now(rt)?;
    observe_seed::<U, C>(separator, &mut challenger)?;
    let nanoseconds = nanoseconds_since(rt, start)?;
    Ok(Lap {
        nanoseconds,
        operations,
        left: 0,
    })
}

// It is compiled for itself, so that nothing is known of the challenger, and of what it leaves nothing left out.
#[inline(never)]
fn observe_seed<U: Unit, C: CanObserve<U::Item>>(
    separator: &Separator<U>,
    challenger: &mut C,
) -> Result<(), TranscriptError>
    requires { U.is_alphabet }
{
    separator.seed(challenger)
}
