//! Challengers for callers who see only the hashed strings or the permuted states. Where a verifier's run is itself
//! proved, the proof fixes the inputs of the hash function or of the permutation, and not the calls on the challenger.
//! Those inputs determine what was observed, or two of them collide. Each function here cites the contract of the `new`
//! that it calls.
//!
//! The example has two cells of rate under [`Turn<2>`](p3_symmetric::Turn), which maps (a, b, c) to (c + 1, a + 2, b +
//! 3) and has no strength. Different values are observed, and the same state is permuted last.
//!
//! ```text
//! observe 1, 0, 7, 7            observe 2, 0, 7, 7
//!
//! [1, 0 | 2]  ->  (3, 3, 3)     [2, 0 | 2]  ->  (3, 4, 3)     they collide: cell 2 is the same after both
//! [7, 7 | 5]  ->  (6, 9, 10)    [7, 7 | 5]  ->  (6, 9, 10)    the same state last
//!
//! draw 9                        draw 9
//! ```
ghost use Rattle.std.specs.Prelude.{◌≡◌, ◌<◌, ◌≤◌};
ghost use Rattle.p3_challenger.specs.{Segments.run_calls, HashCalls.with_pending, HashState.function_of};
ghost use Rattle.p3_challenger.specs.DuplexCalls.{duplex_by_calls, fresh};
ghost use Rattle.uses.specs.TwoRounds.{RoundsReadBack};
ghost use Rattle.p3_field.specs.BabyBearResidues as baby_bear;
ghost use Rattle.p3_challenger.specs.HashReadBack as hash;
ghost use Rattle.p3_challenger.specs.DuplexReadBack as duplex;

use p3_challenger::{DuplexChallenger, HashChallenger};
use p3_field::{BabyBear, PrimeField64};
use p3_symmetric::{CryptographicHasher, CryptographicPermutation};

/// Returns a challenger of bytes whose hashed strings determine the observed bytes, unless two strings have one digest.
pub fn begin_with_bytes<H: CryptographicHasher<u8, [u8; 32]>>(
    initial_state: Vec<u8>,
    hasher: H,
) -> HashChallenger<u8, H, 32>
    ensures starts { result ≡ record { sponge = with_pending initial_state.items; hasher = hasher } }
    ensures tells { hash.ReadsBack (function_of H.hash 32 H.filler hasher) result.sponge }
    ensures or_collides { hash.ReadsBackOrCollides (function_of H.hash 32 H.filler hasher) result.sponge }
{
    HashChallenger::new(initial_state, hasher)
}

/// Returns a challenger of field elements, over a hash function of them, with the same property.
///
/// Condition: `OUT_LEN` is at least 1.
pub fn begin_with_elements<
    F: PrimeField64,
    H: CryptographicHasher<F, [F; OUT_LEN]>,
    const OUT_LEN: usize,
>(initial_state: Vec<F>, hasher: H) -> HashChallenger<F, H, OUT_LEN>
    requires { 0 < OUT_LEN }
    ensures starts { result ≡ record { sponge = with_pending initial_state.items; hasher = hasher } }
    ensures tells { hash.ReadsBack (function_of H.hash OUT_LEN H.filler hasher) result.sponge }
    ensures or_collides { hash.ReadsBackOrCollides (function_of H.hash OUT_LEN H.filler hasher) result.sponge }
{
    HashChallenger::new(initial_state, hasher)
}

/// Returns a challenger of `BabyBear` elements, with 16 cells of which 8 are the rate. The permuted states determine
/// the observed elements, unless two states collide in all cells except the rate. The same holds of two rounds, each of
/// which observes elements and draws one. Two runs of them that permute the same states and leave the same pending
/// elements observed the same elements.
///
/// Condition: the draw limit is at least 1.
pub fn begin_with_zeros<P: CryptographicPermutation<[BabyBear; 16]>>(
    permutation: P,
    draw_limit: u64,
) -> DuplexChallenger<BabyBear, P, 16, 8>
    requires { 1 ≤ draw_limit }
    ensures starts { result ≡ record
        { sponge = fresh baby_bear.residues 16; permutation = permutation; draw_limit = draw_limit } }
    ensures tells { duplex.ReadsBack baby_bear.residues (P.permutation permutation) 8 result.sponge }
    ensures or_collides { duplex.ReadsBackOrCollides baby_bear.residues (P.permutation permutation) 8 result.sponge }
    ensures rounds { RoundsReadBack
        (run_calls (duplex_by_calls baby_bear.residues (P.permutation permutation) 8) result.sponge) }
{
    DuplexChallenger::new(permutation, draw_limit)
}
