//! Challengers call by call: what is fed and drawn is calls.
ghost use Rattle.p3_challenger.specs.HashState.{function_of};
ghost use Rattle.transcript_read_back.specs.CallByCall.{IsCallByCall, duplex_run, hash_run};

use p3_challenger::{DuplexChallenger, HashChallenger, Sponge};
use p3_field::PrimeField64;
use p3_symmetric::{CryptographicHasher, CryptographicPermutation};

/// What a `DuplexChallenger` is fed, and what it draws, are calls on it.
///
/// A law: the body calls a law alone, and a caller cites the clause. Not in the Rust crate.
pub fn duplex_is_call_by_call<
    F: PrimeField64,
    P: CryptographicPermutation<[F; WIDTH]>,
    const WIDTH: usize,
    const RATE: usize,
>()
    ensures { IsCallByCall (duplex_run F.residues P.permutation RATE)
        ⟦<DuplexChallenger<F, P, WIDTH, RATE> as Sponge>⟧.fed
        ⟦<DuplexChallenger<F, P, WIDTH, RATE> as Sponge>⟧.next }
{
    DuplexChallenger::<F, P, WIDTH, RATE>::symbols_are_calls();
}

/// What a `HashChallenger` is fed, and what it draws, are calls on it.
///
/// A law: the body calls a law alone, and a caller cites the clause. Not in the Rust crate.
pub fn hash_is_call_by_call<
    T: Copy,
    H: CryptographicHasher<T, [T; OUT_LEN]>,
    const OUT_LEN: usize,
>()
    ensures { IsCallByCall (hash_run (function_of H.hash OUT_LEN H.filler))
        ⟦<HashChallenger<T, H, OUT_LEN> as Sponge>⟧.fed ⟦<HashChallenger<T, H, OUT_LEN> as Sponge>⟧.next }
{
    HashChallenger::<T, H, OUT_LEN>::symbols_are_calls();
}
