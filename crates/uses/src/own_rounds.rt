//! A permutation of rounds with a table of constants, as in Poseidon2, to show the form of a larger one.
//!
//! The constants are fields of the permutation, and its definition takes them as arguments. So no table in the code
//! has to be compared with a table in the definitions, and a user's test compares with published vectors. A loop needs
//! an invariant: the rounds that are left give the same cells as all rounds give from the start. `rt check --start
//! permute_mut` writes the file for the invariant. [`Rounds`] shows the form and has no cryptographic strength.
ghost use Rattle.std.specs.Prelude.{◌≡◌};
ghost use Rattle.uses.specs.OwnRounds.{after_round};

use p3_challenger::{DuplexChallenger, LanePermutation, permute_each_lane};
use p3_field::{BabyBear, BabyBearLanes, PrimeCharacteristicRing};
use p3_symmetric::CryptographicPermutation;

/// The number of rounds.
pub const ROUNDS: usize = 8;

/// Rounds over two cells. Each adds its constant to the first cell, takes the seventh power of that, and mixes the
/// two.
#[derive(Clone, Copy, Debug)]
pub struct Rounds {
    /// The constant of each round.
    pub constants: [BabyBear; ROUNDS],
}

/// A challenger over [`Rounds`] with two cells, of which one is the rate.
pub type RoundsChallenger = DuplexChallenger<BabyBear, Rounds, 2, 1>;

impl CryptographicPermutation<[BabyBear; 2]> for Rounds {
    ghost use Rattle.uses.specs.OwnRounds.{permuted};

    ghost permutation = { λ rounds cells. permuted rounds.constants cells };

    fn permute_mut(&self, state: &mut [BabyBear; 2]) {
        for constant in &self.constants {
            play_round(*constant, state);
        }
    }
}

// States side by side in lanes are permuted one after another: searches for witnesses ask for no more.
impl LanePermutation<BabyBear, 2> for Rounds {
    fn permute_lanes(&self, state: &mut [BabyBearLanes; 2]) {
        permute_each_lane(self, state);
    }
}

// The cells after a round.
fn play_round(constant: BabyBear, state: &mut [BabyBear; 2])
    ensures { state.new ≡ after_round state.old constant }
{
    let first = (state[0] + constant).exp_u64(7);
    let second = state[1];
    *state = [first + second, first + second + second];
}
