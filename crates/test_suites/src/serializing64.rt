//! Suites over `SerializingChallenger64`.

use crate::byte_hasher::ByteHasher;
use p3_challenger::fs::script::{AcceptAll, Both, Suite};
use p3_challenger::fs::{FieldToFieldCodec, FieldUnit};
use p3_challenger::{HashChallenger, SerializingChallenger64};
use p3_field::Goldilocks;
use p3_symmetric::{DigestHasher, Hash, Sha256Hasher};
use std::marker::PhantomData;

/// Scripts over `SerializingChallenger64` of `Goldilocks` on a `HashChallenger` of bytes with the hash function `H`. The
/// field is its own extension, opaque values are digests of four words of 64 bits, and there are steps of every kind.
/// Patterns and identities are hashed by `D`.
pub struct Serializing64Suite<H = Sha256Hasher, D = H> {
    hashers: PhantomData<(H, D)>,
}

impl<H: ByteHasher, D: DigestHasher> Suite for Serializing64Suite<H, D> {
    ghost use Rattle.std.{proofs.Common.lit<, specs.List.each_same};
    ghost use Rattle.p3_challenger.specs.{Bytes.AreWords, HashValueLaws.values-injective, Digests.values_of};

    type Field = Goldilocks;

    type Extension = Goldilocks;

    type Unit = FieldUnit<Goldilocks>;

    type Opaque = Hash<Goldilocks, u64, 4>;

    type Challenger = SerializingChallenger64<Goldilocks, HashChallenger<u8, H, 32>>;

    type Codec = FieldToFieldCodec<Goldilocks>;

    type Accept = AcceptAll;

    type Digest = D;

    type Group = Both;

    ghost is_own = { λ digest. AreWords (values_of digest) };

    ghost alphabet = { lit< tt };

    ghost clones = { λ digest copy told. values-injective copy digest
        (each_same (values_of digest) (values_of copy) told.whole) };
}
