//! Permutations of states side by side in lanes.
ghost use Rattle.std.specs.{Prelude.{◌≡◌, ◌<◌, ◌*◌, ◌^◌, ℕ, map}, Mem.type_size};

use crate::{PackedField, PackedValue};
use p3_symmetric::CryptographicPermutation;

/// A permutation that also permutes states side by side, one in each lane of the cells. The result
/// in a lane is that of the same state alone.
///
/// A permutation made of additions and products of elements works on lanes in the same way. For any
/// other permutation there is [`permute_each_lane`]. The Rust crate instead requires a second
/// permutation, of packed states, with no connection to the first.
pub trait LanePermutation<F: PackedField, const WIDTH: usize>: CryptographicPermutation<
    [F; WIDTH],
> {
    /// Permutes in place the states in the lanes.
    fn permute_lanes(&self, state: &mut [F::Packing; WIDTH])
        ensures { (l : ℕ) → l < F.Packing.WIDTH → map (F.Packing.in_lane l) state.new
            ≡ Self.permutation self.now (map (F.Packing.in_lane l) state.old) };
}

/// Permutes in place the states in the lanes, one after another. It implements
/// [`permute_lanes`](LanePermutation::permute_lanes) for a permutation without support for lanes.
///
/// A state takes less than 2^63 bytes. Not in the Rust crate.
pub fn permute_each_lane<
    F: PackedField,
    P: CryptographicPermutation<[F; WIDTH]>,
    const WIDTH: usize,
>(permutation: &P, state: &mut [F::Packing; WIDTH])
    requires room { WIDTH * type_size F.row < 2 ^ 63 }
    ensures { (l : ℕ) → l < F.Packing.WIDTH → map (F.Packing.in_lane l) state.new
        ≡ P.permutation permutation.now (map (F.Packing.in_lane l) state.old) }
{
    for lane in 0..F::Packing::WIDTH {
        let permuted = permuted_in_lane(permutation, state, lane);
        put_in_lane::<F, WIDTH>(state, lane, permuted);
    }
}

// What the permutation makes of the state in a lane.
fn permuted_in_lane<F: PackedField, P: CryptographicPermutation<[F; WIDTH]>, const WIDTH: usize>(
    permutation: &P,
    state: &[F::Packing; WIDTH],
    lane: usize,
) -> [F; WIDTH]
    requires { lane < F.Packing.WIDTH }
    ensures { result ≡ P.permutation permutation.now (map (F.Packing.in_lane lane) state.now) }
{
    let mut cells = [F::ZERO; WIDTH];
    for i in 0..WIDTH {
        cells[i] = state[i].lane(lane);
    }
    permutation.permute_mut(&mut cells);
    cells
}

// The states with that of one lane replaced.
fn put_in_lane<F: PackedField, const WIDTH: usize>(
    state: &mut [F::Packing; WIDTH],
    lane: usize,
    cells: [F; WIDTH],
)
    requires { lane < F.Packing.WIDTH }
    ensures put { map (F.Packing.in_lane lane) state.new ≡ cells }
    ensures others { (l : ℕ) → l < F.Packing.WIDTH → (l ≡ lane → ⊥) →
        map (F.Packing.in_lane l) state.new ≡ map (F.Packing.in_lane l) state.old }
{
    for i in 0..WIDTH {
        state[i] = state[i].with_lane(lane, cells[i]);
    }
}
