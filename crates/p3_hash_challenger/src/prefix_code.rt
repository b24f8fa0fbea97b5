//! A hash challenger feeds a prefix code: the premises of the laws on symbols.
ghost use Rattle.std.specs.Prelude.{◌≡◌, List, length, ◌++◌};
ghost use Rattle.p3_challenger_core.specs.Reading.{IsPrefixCode, IsPrefixCodeOn};
ghost use Rattle.p3_symmetric.specs.{declared.hash.Hash.Hash, Digests.values_of};

use crate::HashChallenger;
use p3_challenger_core::CanObserve;
use p3_symmetric::{CryptographicHasher, Hash};

/// The symbols of the values that a hash challenger observes are a prefix code.
///
/// A law: the body is empty, and a caller cites the clause.
#[tactic(auto, using(p3_challenger_core::specs::SymbolLaws::one_symbol_each))]
pub fn hash_values_are_prefix_code<
    T: Copy,
    H: CryptographicHasher<T, [T; OUT_LEN]>,
    const OUT_LEN: usize,
>()
    ensures { IsPrefixCode ⟦<HashChallenger<T, H, OUT_LEN> as CanObserve<T>>⟧.observation.symbols }
{}

/// Arrays of `N` values feed a prefix code. So do digests of `N` values, and both kinds together.
///
/// A law: the body is empty, and a caller cites the clauses.
pub fn hash_arrays_are_prefix_code<
    F,
    T: Copy,
    H: CryptographicHasher<T, [T; OUT_LEN]>,
    const N: usize,
    const OUT_LEN: usize,
>()
    ensures arrays { IsPrefixCodeOn (λ values. length values ≡ N)
        ⟦<HashChallenger<T, H, OUT_LEN> as CanObserve<[T; N]>>⟧.observation.symbols }
    ensures digests { IsPrefixCode
        ⟦<HashChallenger<T, H, OUT_LEN> as CanObserve<Hash<F, T, N>>>⟧.observation.symbols }
    ensures both { (digest : Hash F T N) (values a b : List T) → length values ≡ N →
        ⟦<HashChallenger<T, H, OUT_LEN> as CanObserve<Hash<F, T, N>>>⟧.observation.symbols digest
        ++ a ≡ ⟦<HashChallenger<T, H, OUT_LEN> as CanObserve<[T; N]>>⟧.observation.symbols values
        ++ b → (values_of digest ≡ values) × (a ≡ b) }
{}
