//! The protocol `words`, as `tealmuze rust` prints it.

use p3_challenger::fs::script::{AcceptAll, Both, Step, Suite};
use p3_challenger::fs::{DomainSeparator, FieldToFieldCodec, FieldUnit, TranscriptError, script};
use p3_challenger::{HashChallenger, SerializingChallenger64};
use p3_field::Goldilocks;
use p3_symmetric::{Hash, Sha256Hasher};
use std::alloc::Global;

/// The types that play the protocol.
#[derive(Clone, Copy, Debug)]
pub struct Protocol;

impl Suite for Protocol {
    ghost use Rattle.std.{proofs.Common.lit<, specs.List.each_same};
    ghost use Rattle.p3_challenger.specs.{Bytes.AreWords, HashValueLaws.values-injective, Digests.values_of};

    type Field = Goldilocks;

    type Extension = Goldilocks;

    type Unit = FieldUnit<Goldilocks>;

    type Opaque = Hash<Goldilocks, u64, 4>;

    type Challenger = Challenger;

    type Codec = FieldToFieldCodec<Goldilocks>;

    type Accept = AcceptAll;

    type Digest = Sha256Hasher;

    type Group = Both;

    ghost is_own = { λ digest. AreWords (values_of digest) };

    ghost alphabet = { lit< tt };

    ghost clones = { λ digest copy told. values-injective copy digest
        (each_same (values_of digest) (values_of copy) told.whole) };
}

/// The challenger.
pub type Challenger = SerializingChallenger64<Goldilocks, HashChallenger<u8, Sha256Hasher, 32>>;

/// What binds a transcript to the protocol.
pub type Separator = DomainSeparator<FieldUnit<Goldilocks>, Sha256Hasher>;

/// What both sides begin with: a challenger that observed nothing.
pub fn challenger(alloc: Global) -> Challenger {
    let inner = HashChallenger::new(Vec::new(alloc), Sha256Hasher);
    Challenger::new(inner, 1000)
}

/// The steps, in order.
pub fn steps() -> [Step<Protocol>; 3] {
    [
        Step::Opaque {
            label: "digest",
            value: Hash::from([1, 2, 3, 18446744073709551615]),
        },
        Step::ChallengeScalar { label: "alpha" },
        Step::ChallengeBits {
            label: "index",
            width: 63,
            n: 1,
        },
    ]
}

/// The version and the name of the protocol, the pattern of its steps, and the instance.
pub fn separator<S: Suite>(
    alloc: Global,
    steps: &[Step<S>],
) -> Result<DomainSeparator<S::Unit, S::Digest>, TranscriptError> {
    let pattern = script::pattern::<S>(alloc, steps)?;
    DomainSeparator::new(alloc, 1, "words".as_bytes(), pattern)
}
