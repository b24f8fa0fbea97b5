//! A duplex challenger feeds a prefix code: the premises of the laws on symbols.
ghost use Rattle.std.specs.Prelude.{◌≡◌, List, length, ◌++◌};
ghost use Rattle.p3_challenger_core.specs.Reading.{IsPrefixCode, IsPrefixCodeOn};
ghost use Rattle.p3_symmetric.specs.{declared.hash.Hash.Hash, Digests.values_of};

use crate::DuplexChallenger;
use p3_challenger_core::CanObserve;
use p3_field_core::PrimeField64;
use p3_symmetric::{CryptographicPermutation, Hash};

/// The symbols of the elements that a duplex challenger observes are a prefix code.
///
/// A law: the body is empty, and a caller cites the clause.
#[tactic(auto, using(p3_challenger_core::specs::SymbolLaws::one_symbol_each))]
pub fn duplex_elements_are_prefix_code<
    F: PrimeField64,
    P: CryptographicPermutation<[F; WIDTH]>,
    const WIDTH: usize,
    const RATE: usize,
>()
    ensures { IsPrefixCode
        ⟦<DuplexChallenger<F, P, WIDTH, RATE> as CanObserve<F>>⟧.observation.symbols }
{}

/// Arrays of `N` elements feed a prefix code. So do digests of `N` elements, and both kinds together.
///
/// A law: the body is empty, and a caller cites the clauses.
pub fn duplex_arrays_are_prefix_code<
    M,
    F: PrimeField64,
    P: CryptographicPermutation<[F; WIDTH]>,
    const WIDTH: usize,
    const RATE: usize,
    const N: usize,
>()
    ensures arrays { IsPrefixCodeOn (λ values. length values ≡ N)
        ⟦<DuplexChallenger<F, P, WIDTH, RATE> as CanObserve<[F; N]>>⟧.observation.symbols }
    ensures digests { IsPrefixCode
        ⟦<DuplexChallenger<F, P, WIDTH, RATE> as CanObserve<Hash<M, F, N>>>⟧.observation.symbols }
    ensures both { (digest : Hash M F N) (values a b : List F) → length values ≡ N →
        ⟦<DuplexChallenger<F, P, WIDTH, RATE> as CanObserve<Hash<M, F, N>>>⟧.observation.symbols
        digest ++ a
        ≡ ⟦<DuplexChallenger<F, P, WIDTH, RATE> as CanObserve<[F; N]>>⟧.observation.symbols
        values ++ b → (values_of digest ≡ values) × (a ≡ b) }
{}
