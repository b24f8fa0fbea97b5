// How long Poseidon2 takes: one state, and states in lanes.
ghost use Rattle.std.specs.{Prelude.{◌<◌, ◌*◌, ◌^◌}, Mem.type_size};

use crate::timing::{Lap, Shortest, nanoseconds_since};
use anyhow::Result;
use p3_challenger::LanePermutation;
use p3_field::{PackedField, PackedValue, PrimeField64};
use p3_poseidon2::{
    default_babybear_poseidon2_16, default_babybear_poseidon2_24, default_goldilocks_poseidon2_8,
    default_goldilocks_poseidon2_12, default_koalabear_poseidon2_16,
    default_koalabear_poseidon2_24,
};
use std::time::Instant;

// How often a state is permuted in a lap, and how many laps there are in a run.
const COUNT: u32 = 200;

const LAPS: u32 = 20;

/// Times each permutation, and gives a sum of what they make.
pub fn measure_all(rt: &HostRuntime, runs: u32) -> Result<u64> {
    measure(
        rt,
        runs,
        "Poseidon2 baby_bear_16",
        default_babybear_poseidon2_16(),
    )?;
    measure(
        rt,
        runs,
        "Poseidon2 baby_bear_24",
        default_babybear_poseidon2_24(),
    )?;
    measure(
        rt,
        runs,
        "Poseidon2 koala_bear_16",
        default_koalabear_poseidon2_16(),
    )?;
    measure(
        rt,
        runs,
        "Poseidon2 koala_bear_24",
        default_koalabear_poseidon2_24(),
    )?;
    measure(
        rt,
        runs,
        "Poseidon2 goldilocks_8",
        default_goldilocks_poseidon2_8(),
    )?;
    measure(
        rt,
        runs,
        "Poseidon2 goldilocks_12",
        default_goldilocks_poseidon2_12(),
    )
}

fn measure<F: PrimeField64 + PackedField, P: LanePermutation<F, WIDTH>, const WIDTH: usize>(
    rt: &HostRuntime,
    runs: u32,
    name: &str,
    permutation: P,
) -> Result<u64>
    requires room { WIDTH * type_size F.row < 2 ^ 63 }
    requires lanes { WIDTH * type_size F.Packing.row < 2 ^ 63 }
{
    let mut state = [F::ONE; WIDTH];
    let mut states = [F::Packing::broadcast(F::ONE); WIDTH];
    let mut alone = Shortest::new();
    let mut in_lanes = Shortest::new();
    for _ in 0..runs.saturating_mul(LAPS) {
        alone.take(lap_alone(rt, &permutation, &mut state)?);
        in_lanes.take(lap_in_lanes::<F, P, WIDTH>(rt, &permutation, &mut states)?);
    }
    alone.print(rt, name, ", one state")?;
    in_lanes.print(rt, name, ", in lanes, a state")
}

fn lap_alone<F: PrimeField64 + PackedField, P: LanePermutation<F, WIDTH>, const WIDTH: usize>(
    rt: &HostRuntime,
    permutation: &P,
    state: &mut [F; WIDTH],
) -> Result<Lap> {
    let start = Instant::now(rt)?;
    permute::<F, P, WIDTH>(permutation, state);
    let nanoseconds = nanoseconds_since(rt, start)?;
    Ok(Lap {
        nanoseconds,
        operations: COUNT,
        left: 0,
    })
}

fn lap_in_lanes<F: PrimeField64 + PackedField, P: LanePermutation<F, WIDTH>, const WIDTH: usize>(
    rt: &HostRuntime,
    permutation: &P,
    states: &mut [F::Packing; WIDTH],
) -> Result<Lap> {
    let start = Instant::now(rt)?;
    permute_in_lanes::<F, P, WIDTH>(permutation, states);
    let nanoseconds = nanoseconds_since(rt, start)?;
    let lanes = u32::try_from(F::Packing::WIDTH).unwrap_or(0);
    Ok(Lap {
        nanoseconds,
        operations: COUNT.saturating_mul(lanes),
        left: 0,
    })
}

// It is compiled for itself, so that nothing is known of the permutation's constants and the cells.
#[inline(never)]
fn permute<F: PrimeField64 + PackedField, P: LanePermutation<F, WIDTH>, const WIDTH: usize>(
    permutation: &P,
    state: &mut [F; WIDTH],
) {
    for _ in 0..COUNT {
        permutation.permute_mut(state);
    }
}

#[inline(never)]
fn permute_in_lanes<
    F: PrimeField64 + PackedField,
    P: LanePermutation<F, WIDTH>,
    const WIDTH: usize,
>(permutation: &P, states: &mut [F::Packing; WIDTH]) {
    for _ in 0..COUNT {
        permutation.permute_lanes(states);
    }
}
