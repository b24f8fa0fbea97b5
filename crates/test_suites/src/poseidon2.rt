//! Suites over Poseidon2.

use p3_challenger::fs::script::{AcceptAll, BitsPow, Both, Suite};
use p3_challenger::fs::{FieldToFieldCodec, FieldUnit};
use p3_challenger::{DuplexChallenger, MultiField32Challenger};
use p3_field::{BabyBear, Coeffs, Goldilocks, KoalaBear};
use p3_keccak::Keccak256Hasher;
use p3_poseidon2::{Poseidon2BabyBear16, Poseidon2Goldilocks8, Poseidon2KoalaBear16};
use p3_symmetric::Hash;

/// Scripts over `DuplexChallenger` with sixteen cells of `BabyBear`, eight of them the rate, permuted by Poseidon2. The
/// extension has degree 4, opaque values are digests of eight elements, and there are steps of every kind. Patterns and
/// identities are hashed by Keccak-256, as in the Rust crate.
#[derive(Clone, Copy, Debug)]
pub struct BabyBearPoseidon2Suite;

impl Suite for BabyBearPoseidon2Suite {
    ghost use Rattle.std.{proofs.Common.lit<, specs.List.each_same};
    ghost use Rattle.p3_challenger.specs.{HashValueLaws.values-injective, Digests.values_of};

    type Field = BabyBear;

    type Extension = Coeffs<BabyBear, 4>;

    type Unit = FieldUnit<BabyBear>;

    type Opaque = Hash<BabyBear, BabyBear, 8>;

    type Challenger = DuplexChallenger<BabyBear, Poseidon2BabyBear16, 16, 8>;

    type Codec = FieldToFieldCodec<BabyBear>;

    type Accept = AcceptAll;

    type Digest = Keccak256Hasher;

    type Group = Both;

    ghost is_own = { λ _. Unit {0} };

    ghost alphabet = { lit< tt };

    ghost clones = { λ digest copy told. values-injective copy digest
        (each_same (values_of digest) (values_of copy) told.whole) };
}

/// Scripts over `DuplexChallenger` with sixteen cells of `KoalaBear`, eight of them the rate, permuted by Poseidon2. The
/// extension has degree 4, opaque values are digests of eight elements, and there are no uniform bits. Patterns and
/// identities are hashed by Keccak-256, as in the Rust crate.
#[derive(Clone, Copy, Debug)]
pub struct KoalaBearPoseidon2Suite;

impl Suite for KoalaBearPoseidon2Suite {
    ghost use Rattle.std.{proofs.Common.lit<, specs.List.each_same};
    ghost use Rattle.p3_challenger.specs.{HashValueLaws.values-injective, Digests.values_of};

    type Field = KoalaBear;

    type Extension = Coeffs<KoalaBear, 4>;

    type Unit = FieldUnit<KoalaBear>;

    type Opaque = Hash<KoalaBear, KoalaBear, 8>;

    type Challenger = DuplexChallenger<KoalaBear, Poseidon2KoalaBear16, 16, 8>;

    type Codec = FieldToFieldCodec<KoalaBear>;

    type Accept = AcceptAll;

    type Digest = Keccak256Hasher;

    type Group = BitsPow;

    ghost is_own = { λ _. Unit {0} };

    ghost alphabet = { lit< tt };

    ghost clones = { λ digest copy told. values-injective copy digest
        (each_same (values_of digest) (values_of copy) told.whole) };
}

/// Scripts over `DuplexChallenger` with eight cells of `Goldilocks`, four of them the rate, permuted by Poseidon2. The
/// field is its own extension, opaque values are digests of four elements, and there are steps of every kind. Patterns
/// and identities are hashed by Keccak-256, as in the Rust crate.
#[derive(Clone, Copy, Debug)]
pub struct GoldilocksPoseidon2Suite;

impl Suite for GoldilocksPoseidon2Suite {
    ghost use Rattle.std.{proofs.Common.lit<, specs.List.each_same};
    ghost use Rattle.p3_challenger.specs.{HashValueLaws.values-injective, Digests.values_of};

    type Field = Goldilocks;

    type Extension = Goldilocks;

    type Unit = FieldUnit<Goldilocks>;

    type Opaque = Hash<Goldilocks, Goldilocks, 4>;

    type Challenger = DuplexChallenger<Goldilocks, Poseidon2Goldilocks8, 8, 4>;

    type Codec = FieldToFieldCodec<Goldilocks>;

    type Accept = AcceptAll;

    type Digest = Keccak256Hasher;

    type Group = Both;

    ghost is_own = { λ _. Unit {0} };

    ghost alphabet = { lit< tt };

    ghost clones = { λ digest copy told. values-injective copy digest
        (each_same (values_of digest) (values_of copy) told.whole) };
}

/// Scripts over `MultiField32Challenger` of `BabyBear` in eight cells of `Goldilocks`, four of them the rate, permuted
/// by Poseidon2. The extension has degree 4, opaque values are digests of four cells, and there are no uniform bits.
/// Patterns and identities are hashed by Keccak-256, as in the Rust crate.
#[derive(Clone, Copy, Debug)]
pub struct MultiFieldPoseidon2Suite;

impl Suite for MultiFieldPoseidon2Suite {
    ghost use Rattle.std.{proofs.Common.lit<, specs.List.each_same};
    ghost use Rattle.p3_challenger.specs.{HashValueLaws.values-injective, Digests.values_of};

    type Field = BabyBear;

    type Extension = Coeffs<BabyBear, 4>;

    type Unit = FieldUnit<BabyBear>;

    type Opaque = Hash<BabyBear, Goldilocks, 4>;

    type Challenger = MultiField32Challenger<BabyBear, Goldilocks, Poseidon2Goldilocks8, 8, 4>;

    type Codec = FieldToFieldCodec<BabyBear>;

    type Accept = AcceptAll;

    type Digest = Keccak256Hasher;

    type Group = BitsPow;

    ghost is_own = { λ _. Unit {0} };

    ghost alphabet = { lit< tt };

    ghost clones = { λ digest copy told. values-injective copy digest
        (each_same (values_of digest) (values_of copy) told.whole) };
}
