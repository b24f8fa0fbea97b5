//! A multi-field challenger feeds a prefix code: the premises of the laws on symbols.
ghost use Rattle.std.specs.Prelude.{◌≡◌, length};
ghost use Rattle.p3_challenger_core.specs.Reading.{IsPrefixCode, IsPrefixCodeOn};

use crate::MultiField32Challenger;
use p3_challenger_core::CanObserve;
use p3_field_bridge::FieldBridge;
use p3_field_core::{PrimeField32, PrimeField64};
use p3_symmetric::{CryptographicPermutation, Hash};

/// The symbols of the scalars that a multi-field challenger observes are a prefix code.
///
/// A law: the body is empty, and a caller cites the clause.
pub fn multi_field_scalars_are_prefix_code<
    F: PrimeField32,
    PF: PrimeField64 + FieldBridge<F, PF>,
    P: CryptographicPermutation<[PF; WIDTH]>,
    const WIDTH: usize,
    const RATE: usize,
>()
    ensures { IsPrefixCode
        ⟦<MultiField32Challenger<F, PF, P, WIDTH, RATE> as CanObserve<F>>⟧.observation.symbols }
{}

/// Arrays of `N` scalars feed a prefix code. So do digests of `N` words, each of which is one symbol.
///
/// A law: the body is empty, and a caller cites the clauses.
pub fn multi_field_arrays_are_prefix_code<
    F: PrimeField32,
    PF: PrimeField64 + FieldBridge<F, PF>,
    P: CryptographicPermutation<[PF; WIDTH]>,
    const WIDTH: usize,
    const RATE: usize,
    const N: usize,
>()
    ensures arrays { let arrays =
        ⟦<MultiField32Challenger<F, PF, P, WIDTH, RATE> as CanObserve<[F; N]>>⟧ in
        IsPrefixCodeOn (λ values. length values ≡ N) arrays.observation.symbols }
    ensures digests { let digests =
        ⟦<MultiField32Challenger<F, PF, P, WIDTH, RATE> as CanObserve<Hash<F, PF, N>>>⟧ in
        IsPrefixCode digests.observation.symbols }
{}
