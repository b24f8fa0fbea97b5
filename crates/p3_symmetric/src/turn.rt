//! A permutation for tests without any cryptographic strength: cells are rotated, and small numbers are added.
ghost use Rattle.std.specs.Prelude.{◌≡◌, ◌<◌, ◌+◌, ◌%◌};
ghost use Rattle.p3_field_core.specs.Residues.{plus};
ghost use Rattle.p3_symmetric.specs.Turn.{turned};

use crate::CryptographicPermutation;
use p3_field_core::{PrimeCharacteristicRing, PrimeField64};

/// A permutation for tests, without any strength: the cells are rotated by `K` places, and `i + 1` is added to cell
/// `i`.
///
/// Not in the Rust crate.
#[derive(Clone, Copy, Debug, PartialEq, Eq)]
pub struct Turn<const K: usize>;

impl<F: PrimeField64, const K: usize, const WIDTH: usize> CryptographicPermutation<[F; WIDTH]>
    for Turn<K> {
    ghost permutation = { λ _ cells. turned F.residues K WIDTH cells };

    fn permute_mut(&self, state: &mut [F; WIDTH]) {
        let old = *state;
        for i in 0..WIDTH {
            state[i] = plus_number(old[turned_index(i, K, WIDTH)], i as u64 + 1);
        }
    }
}

// The element that is a number more.
fn plus_number<F: PrimeCharacteristicRing>(x: F, n: u64) -> F
    ensures { result ≡ plus F.residues x n }
{
    x + F::from_u64(n)
}

/// Returns the place `k` places after `i` on a ring of `width` places, from which [`Turn`] takes the cell for place
/// `i`.
///
/// `i` is below `width`. Not in the Rust crate.
pub fn turned_index(i: usize, k: usize, width: usize) -> usize
    requires { i < width }
    ensures place { result ≡ (i + k) % width }
    ensures below { result < width }
{
    let shift = k % width;
    let before = width - shift;
    if i < before { i + shift } else { i - before }
}
