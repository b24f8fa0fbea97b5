//! A serializing challenger feeds a prefix code, if its inner challenger does for bytes: the premises of the laws on
//! symbols.
ghost use Rattle.std.specs.Prelude.{◌≡◌, length};
ghost use Rattle.p3_challenger_core.specs.Reading.{IsPrefixCode, IsPrefixCodeOn, IsByte, AreBytes, IsPrefixFree};
ghost use Rattle.p3_symmetric.specs.Digests.{values_of};
ghost use Rattle.p3_serializing.specs.Bytes.{AreWords};

use crate::{SerializedIn, SerializingChallenger};
use p3_challenger_core::CanObserve;
use p3_symmetric::Hash;

/// The symbols of the elements that a serializing challenger observes are a prefix code, and none are empty. So are
/// those of arrays of `N` elements. The premise is that the bytes of its inner challenger are a prefix code.
///
/// A law: the body is empty, and a caller cites the clauses.
pub fn serialized_elements_are_prefix_code<
    F: SerializedIn<BYTES>,
    Inner: CanObserve<u8>,
    const BYTES: usize,
    const N: usize,
>()
    ensures elements { IsPrefixCodeOn IsByte Inner.observation.symbols → IsPrefixFree
        ⟦<SerializingChallenger<F, Inner, BYTES> as CanObserve<F>>⟧.observation.symbols }
    ensures arrays { IsPrefixCodeOn IsByte Inner.observation.symbols →
        IsPrefixCodeOn (λ values. length values ≡ N)
        ⟦<SerializingChallenger<F, Inner, BYTES> as CanObserve<[F; N]>>⟧.observation.symbols }
{}

/// The symbols of the digests of `N` bytes that a serializing challenger observes are a prefix code. So are those of
/// digests of `N` words of 64 bits. The premise is that the bytes of its inner challenger are a prefix code.
///
/// A law: the body is empty, and a caller cites the clauses.
pub fn serialized_digests_are_prefix_code<
    F: SerializedIn<BYTES>,
    Inner: CanObserve<u8>,
    const BYTES: usize,
    const N: usize,
>()
    ensures bytes { let digests =
        ⟦<SerializingChallenger<F, Inner, BYTES> as CanObserve<Hash<F, u8, N>>>⟧ in
        IsPrefixCode Inner.observation.symbols → IsPrefixCode digests.observation.symbols }
    ensures known_bytes { let digests =
        ⟦<SerializingChallenger<F, Inner, BYTES> as CanObserve<Hash<F, u8, N>>>⟧ in
        IsPrefixCodeOn IsByte Inner.observation.symbols
        → IsPrefixCodeOn (λ digest. AreBytes (values_of digest)) digests.observation.symbols }
    ensures words { let digests =
        ⟦<SerializingChallenger<F, Inner, BYTES> as CanObserve<Hash<F, u64, N>>>⟧ in
        IsPrefixCodeOn IsByte Inner.observation.symbols
        → IsPrefixCodeOn (λ digest. AreWords (values_of digest)) digests.observation.symbols }
{}
