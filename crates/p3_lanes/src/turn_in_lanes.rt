//! The permutation for tests, in lanes.
ghost use Rattle.std.specs.Prelude.{◌≡◌, ◌<◌, ℕ};
ghost use Rattle.p3_field_core.specs.Residues.{plus};

use crate::{LanePermutation, PackedField, PackedValue};
use p3_field_core::{PrimeCharacteristicRing, PrimeField64};
use p3_symmetric::{Turn, turned_index};

impl<F: PrimeField64 + PackedField, const K: usize, const WIDTH: usize> LanePermutation<F, WIDTH>
    for Turn<K> {
    fn permute_lanes(&self, state: &mut [F::Packing; WIDTH]) {
        let old = *state;
        for i in 0..WIDTH {
            state[i] = plus_number_in_lanes::<F>(old[turned_index(i, K, WIDTH)], i as u64 + 1);
        }
    }
}

// In each lane the element that is a number more.
fn plus_number_in_lanes<F: PrimeField64 + PackedField>(x: F::Packing, n: u64) -> F::Packing
    ensures { (l : ℕ) → l < F.Packing.WIDTH →
        F.Packing.in_lane l result ≡ plus F.residues (F.Packing.in_lane l x) n }
{
    x + F::Packing::broadcast(F::from_u64(n))
}
