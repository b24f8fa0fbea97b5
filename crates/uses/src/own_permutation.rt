//! A user-defined permutation for a [`DuplexChallenger`](p3_challenger::DuplexChallenger), in place of the Poseidon2 of
//! `p3_poseidon2`.
//!
//! A challenger needs one method and one clause: which function of the cells the permutation is. No contract says that
//! it is hard to invert, or one to one; its author vouches for that. For searches of witnesses it also works on states
//! side by side in lanes. Its result in each lane is proved to be that of the state alone. [`Stir`] shows the form and
//! has no cryptographic strength.
ghost use Rattle.std.specs.Prelude.{◌≡◌, ◌+◌, ◌<◌, ℕ};
ghost use Rattle.p3_field.specs.{BabyBearResidues.residues, Residues.{power_of, plus}};

use p3_challenger::{DuplexChallenger, LanePermutation};
use p3_field::{BabyBear, BabyBearLanes, PackedValue, PrimeCharacteristicRing};
use p3_symmetric::CryptographicPermutation;

/// Adds to each of four cells its place plus one, takes the seventh powers, and adds their sum to each.
#[derive(Clone, Copy, Debug)]
pub struct Stir;

/// A challenger over [`Stir`] with four cells, of which two are the rate.
pub type StirChallenger = DuplexChallenger<BabyBear, Stir, 4, 2>;

impl CryptographicPermutation<[BabyBear; 4]> for Stir {
    ghost use Rattle.uses.specs.OwnPermutation.{stirred};

    ghost permutation = { λ _ cells. stirred cells };

    fn permute_mut(&self, state: &mut [BabyBear; 4]) {
        let first = stirred_cell(state[0], 1);
        let second = stirred_cell(state[1], 2);
        let third = stirred_cell(state[2], 3);
        let fourth = stirred_cell(state[3], 4);
        let total = first + second + third + fourth;
        *state = [first + total, second + total, third + total, fourth + total];
    }
}

// The same of states side by side: each operation is on all lanes.
impl LanePermutation<BabyBear, 4> for Stir {
    fn permute_lanes(&self, state: &mut [BabyBearLanes; 4]) {
        let first = stirred_lanes(state[0], 1);
        let second = stirred_lanes(state[1], 2);
        let third = stirred_lanes(state[2], 3);
        let fourth = stirred_lanes(state[3], 4);
        let total = first + second + third + fourth;
        *state = [first + total, second + total, third + total, fourth + total];
    }
}

// A cell with a number added, to the seventh power.
fn stirred_cell(cell: BabyBear, constant: u64) -> BabyBear
    ensures { result ≡ power_of residues (plus residues cell constant) 7 }
{
    (cell + BabyBear::from_u64(constant)).exp_u64(7)
}

// The same in each lane.
fn stirred_lanes(cells: BabyBearLanes, constant: u64) -> BabyBearLanes
    ensures { let lane = ⟦<BabyBearLanes as PackedValue<BabyBear>>⟧.in_lane in
        (l : ℕ) → l < 8 →
        lane l result ≡ power_of residues (plus residues (lane l cells) constant) 7 }
{
    let once = cells + BabyBearLanes::broadcast(BabyBear::from_u64(constant));
    let twice = once * once;
    let thrice = twice * once;
    thrice * thrice * once
}

/// Returns a challenger that has observed nothing, with a draw limit of 1000 values.
pub fn stir_challenger() -> StirChallenger {
    StirChallenger::new(Stir, 1000)
}
