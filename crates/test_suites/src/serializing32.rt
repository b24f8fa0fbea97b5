//! Suites over `SerializingChallenger32`.

use crate::byte_hasher::ByteHasher;
use p3_challenger::fs::script::{AcceptAll, Both, Suite};
use p3_challenger::fs::{FieldToFieldCodec, FieldUnit};
use p3_challenger::{HashChallenger, SerializingChallenger32};
use p3_field::{BabyBear, Coeffs};
use p3_symmetric::{DigestHasher, Hash, Sha256Hasher};
use std::marker::PhantomData;

/// Scripts over `SerializingChallenger32` of `BabyBear` on a `HashChallenger` of bytes with the hash function `H`. The
/// extension has degree 4, opaque values are digests of 32 bytes, and there are steps of every kind. Patterns and
/// identities are hashed by `D`.
pub struct Serializing32Suite<H = Sha256Hasher, D = H> {
    hashers: PhantomData<(H, D)>,
}

impl<H: ByteHasher, D: DigestHasher> Suite for Serializing32Suite<H, D> {
    ghost use Rattle.std.{proofs.Common.lit<, specs.List.each_same};
    ghost use Rattle.p3_challenger.specs.{HashValueLaws.values-injective, Digests.values_of, Reading.AreBytes};

    type Field = BabyBear;

    type Extension = Coeffs<BabyBear, 4>;

    type Unit = FieldUnit<BabyBear>;

    type Opaque = Hash<BabyBear, u8, 32>;

    type Challenger = SerializingChallenger32<BabyBear, HashChallenger<u8, H, 32>>;

    type Codec = FieldToFieldCodec<BabyBear>;

    type Accept = AcceptAll;

    type Digest = D;

    type Group = Both;

    ghost is_own = { λ digest. AreBytes (values_of digest) };

    ghost alphabet = { lit< tt };

    ghost clones = { λ digest copy told. values-injective copy digest
        (each_same (values_of digest) (values_of copy) told.whole) };
}
