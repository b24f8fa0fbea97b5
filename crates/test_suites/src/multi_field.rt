//! A suite over `MultiField32Challenger`.

use p3_challenger::MultiField32Challenger;
use p3_challenger::fs::script::{AcceptAll, BitsPow, Suite};
use p3_challenger::fs::{FieldToFieldCodec, FieldUnit};
use p3_field::{BabyBear, F257};
use p3_symmetric::{Hash, Sha256Hasher, Turn};

/// Scripts over `MultiField32Challenger` of `F257` in three cells of `BabyBear`, two of them the rate, permuted by a
/// `Turn`. The field is its own extension, opaque values are digests of two words, and there are no uniform bits.
#[derive(Clone, Copy, Debug)]
pub struct MultiFieldSuite;

impl Suite for MultiFieldSuite {
    ghost use Rattle.std.{proofs.Common.lit<, specs.List.each_same};
    ghost use Rattle.p3_challenger.specs.{HashValueLaws.values-injective, Digests.values_of};

    type Field = F257;

    type Extension = F257;

    type Unit = FieldUnit<F257>;

    type Opaque = Hash<F257, BabyBear, 2>;

    type Challenger = MultiField32Challenger<F257, BabyBear, Turn<2>, 3, 2>;

    type Codec = FieldToFieldCodec<F257>;

    type Accept = AcceptAll;

    type Digest = Sha256Hasher;

    type Group = BitsPow;

    ghost is_own = { λ _. Unit {0} };

    ghost alphabet = { lit< tt };

    ghost clones = { λ digest copy told. values-injective copy digest
        (each_same (values_of digest) (values_of copy) told.whole) };
}
