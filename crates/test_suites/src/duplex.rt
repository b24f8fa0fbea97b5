//! A suite over `DuplexChallenger`.

use p3_challenger::DuplexChallenger;
use p3_challenger::fs::script::{AcceptAll, Both, Suite};
use p3_challenger::fs::{FieldToFieldCodec, FieldUnit};
use p3_field::F257;
use p3_symmetric::{Hash, Sha256Hasher, Turn};

/// Scripts over `DuplexChallenger` with three cells of `F257`, two of them the rate, permuted by a `Turn`. The field is
/// its own extension, opaque values are digests of two elements, and there are steps of every kind.
#[derive(Clone, Copy, Debug)]
pub struct DuplexSuite;

impl Suite for DuplexSuite {
    ghost use Rattle.std.{proofs.Common.lit<, specs.List.each_same};
    ghost use Rattle.p3_challenger.specs.{HashValueLaws.values-injective, Digests.values_of};

    type Field = F257;

    type Extension = F257;

    type Unit = FieldUnit<F257>;

    type Opaque = Hash<F257, F257, 2>;

    type Challenger = DuplexChallenger<F257, Turn<2>, 3, 2>;

    type Codec = FieldToFieldCodec<F257>;

    type Accept = AcceptAll;

    type Digest = Sha256Hasher;

    type Group = Both;

    ghost is_own = { λ _. Unit {0} };

    ghost alphabet = { lit< tt };

    ghost clones = { λ digest copy told. values-injective copy digest
        (each_same (values_of digest) (values_of copy) told.whole) };
}
