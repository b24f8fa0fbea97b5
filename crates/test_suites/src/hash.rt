//! Suites over `HashChallenger` of bytes.

use crate::byte_hasher::ByteHasher;
use p3_challenger::HashChallenger;
use p3_challenger::fs::BytesToFieldCodec;
use p3_challenger::fs::script::{AcceptAll, Plain, Suite};
use p3_field::{BabyBear, Coeffs};
use p3_symmetric::Sha256Hasher;
use std::marker::PhantomData;

/// Scripts over `HashChallenger` of bytes with the hash function `H`, with scalars of `BabyBear` sent as bytes. The
/// extension has degree 4, opaque values are arrays of 32 bytes, and there are only plain steps. Patterns and
/// identities are hashed by `H` too.
pub struct HashSuite<H = Sha256Hasher> {
    hasher: PhantomData<H>,
}

impl<H: ByteHasher> Suite for HashSuite<H> {
    ghost use Rattle.std.specs.{Prelude.{◌≡◌, length}, List.each_same};

    type Field = BabyBear;

    type Extension = Coeffs<BabyBear, 4>;

    type Unit = u8;

    type Opaque = [u8; 32];

    type Challenger = HashChallenger<u8, H, 32>;

    type Codec = BytesToFieldCodec<BabyBear>;

    type Accept = AcceptAll;

    type Digest = H;

    type Group = Plain;

    ghost is_own = { λ values. length values ≡ 32 };

    ghost alphabet = { tt };

    ghost clones = { λ values copy told. each_same values copy told.whole };
}
