// Permutations and hash functions, through their bounds.
use crate::replay::Replayed;
use anyhow::{Result, bail};
use conformance_tokens::answer;
use conformance_tokens::symbol::{numbers_of, symbols};
use conformance_tokens::tokens::parse_row;
use p3_field::F257;
use p3_symmetric::{CryptographicHasher, CryptographicPermutation, HashOutput, Turn};
use std::alloc::Global;

/// The permutation by so many places. A call `v..` is answered by what it makes of these cells of F257.
#[derive(Clone, Copy)]
pub struct Turning {
    pub places: u64,
}

impl Replayed for Turning {
    fn answer(&mut self, alloc: Global, call: &str) -> Result<String> {
        let cells = symbols::<F257>(alloc, parse_row(alloc, call)?.as_slice())?;
        turned_list(alloc, self.places, cells.as_slice())
    }
}

fn turned_list(alloc: Global, places: u64, cells: &[F257]) -> Result<String> {
    with_array!(cells, cells => turned(alloc, places, cells))
}

fn turned<const N: usize>(alloc: Global, places: u64, cells: [F257; N]) -> Result<String> {
    let cells = match places {
        0 => permuted(Turn::<0>, cells),
        1 => permuted(Turn::<1>, cells),
        2 => permuted(Turn::<2>, cells),
        5 => permuted(Turn::<5>, cells),
        _ => bail!("another number of places"),
    };
    answer::numbers(alloc, numbers_of(alloc, &cells[..])?.as_slice())
}

/// What a permutation makes of a state.
pub fn permuted<T: Copy, P: CryptographicPermutation<T>>(permutation: P, state: T) -> T {
    let mut state = state;
    permutation.permute_mut(&mut state);
    state
}

/// The digest of a list.
pub fn digest_of<T, Out: HashOutput, H: CryptographicHasher<T, Out>>(
    hasher: H,
    values: &[T],
) -> Out {
    hasher.hash_slice(values)
}
