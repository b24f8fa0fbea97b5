//! A state alone and in lanes, against the answer that is given.
ghost use Rattle.std.specs.{Prelude.{◌<◌, ◌*◌, ◌^◌}, Mem.type_size};

use anyhow::{Context, Result, bail};
use p3_field_core::PrimeField64;
use p3_lanes::{LanePermutation, PackedField, PackedValue};
use p3_symmetric::CryptographicPermutation;

/// What is otherwise, if anything is: what these cells become, or what turned cells become in some lane.
pub fn disagreement<
    F: PrimeField64 + PackedField,
    P: LanePermutation<F, WIDTH>,
    const WIDTH: usize,
>(permutation: P, cells: &str, answer: &str) -> Result<Option<&'static str>>
    requires room { WIDTH * type_size F.row < 2 ^ 63 }
    requires lanes { WIDTH * type_size F.Packing.row < 2 ^ 63 }
{
    let mut state = [F::ZERO; WIDTH];
    let mut expected = [F::ZERO; WIDTH];
    read_cells(cells, &mut state).context("cells")?;
    read_cells(answer, &mut expected).context("answer")?;
    if !are_equal(&permuted(&permutation, state), &expected) {
        return Ok(Some("another answer"));
    }
    if !lanes_agree::<F, P, WIDTH>(&permutation, state) {
        return Ok(Some("another answer in a lane"));
    }
    Ok(None)
}

// Reads the cells of a line.
fn read_cells<F: PrimeField64, const WIDTH: usize>(
    text: &str,
    cells: &mut [F; WIDTH],
) -> Result<()> {
    let mut tokens = text.split(' ');
    for i in 0..WIDTH {
        let number: u64 = tokens.next().context("too few")?.parse()?;
        cells[i] = F::from_canonical_checked(number).context("no canonical number")?;
    }
    if tokens.next().is_some() {
        bail!("too many");
    }
    Ok(())
}

// Whether the permutation makes of turned cells in each lane what it makes of them alone.
fn lanes_agree<F: PrimeField64 + PackedField, P: LanePermutation<F, WIDTH>, const WIDTH: usize>(
    permutation: &P,
    cells: [F; WIDTH],
) -> bool
    requires lanes { WIDTH * type_size F.Packing.row < 2 ^ 63 }
{
    let in_lanes = permuted_in_lanes::<F, P, WIDTH>(permutation, &cells);
    for lane in 0..F::Packing::WIDTH {
        let alone = permuted(permutation, turned(&cells, lane));
        if !are_equal(&in_lane::<F, WIDTH>(&in_lanes, lane), &alone) {
            return false;
        }
    }
    true
}

// What a permutation makes of a state.
fn permuted<T: Copy, P: CryptographicPermutation<T>>(permutation: &P, state: T) -> T {
    let mut state = state;
    permutation.permute_mut(&mut state);
    state
}

// Whether all cells are the same.
fn are_equal<F: PrimeField64, const WIDTH: usize>(left: &[F; WIDTH], right: &[F; WIDTH]) -> bool {
    for i in 0..WIDTH {
        if left[i] != right[i] {
            return false;
        }
    }
    true
}

// The cells, turned round by so many places.
fn turned<F: PrimeField64, const WIDTH: usize>(cells: &[F; WIDTH], places: usize) -> [F; WIDTH] {
    let mut turned = *cells;
    for i in 0..WIDTH {
        turned[i] = cells[i.wrapping_add(places) % WIDTH];
    }
    turned
}

// What a permutation makes of the cells in lanes, in each turned round by as many places as its number says.
fn permuted_in_lanes<
    F: PrimeField64 + PackedField,
    P: LanePermutation<F, WIDTH>,
    const WIDTH: usize,
>(permutation: &P, cells: &[F; WIDTH]) -> [F::Packing; WIDTH]
    requires { WIDTH * type_size F.Packing.row < 2 ^ 63 }
{
    let mut state = [F::Packing::broadcast(F::ZERO); WIDTH];
    for i in 0..WIDTH {
        for lane in 0..F::Packing::WIDTH {
            state[i] = state[i].with_lane(lane, cells[i.wrapping_add(lane) % WIDTH]);
        }
    }
    permutation.permute_lanes(&mut state);
    state
}

// The state in a lane.
fn in_lane<F: PrimeField64 + PackedField, const WIDTH: usize>(
    state: &[F::Packing; WIDTH],
    lane: usize,
) -> [F; WIDTH]
    requires { lane < F.Packing.WIDTH }
{
    let mut cells = [F::ZERO; WIDTH];
    for i in 0..WIDTH {
        cells[i] = state[i].lane(lane);
    }
    cells
}
