//! The protocol `words`, as `tealmuze rust` prints it.

use p3_challenger::fs::script::{AcceptAll, Both, Step, Suite};
use p3_challenger::fs::{DomainSeparator, FieldToFieldCodec, FieldUnit, TranscriptError, script};
use p3_challenger::{HashChallenger, SerializingChallenger64};
use p3_field::{Goldilocks, PrimeCharacteristicRing};
use p3_keccak::Keccak256Hasher;
use p3_symmetric::Hash;
use std::alloc::Global;

/// The types that play the protocol.
#[derive(Clone, Copy, Debug)]
pub struct Protocol;

impl Suite for Protocol {
    ghost use Rattle.std.{proofs.Common.lit<, specs.List.each_same};
    ghost use Rattle.p3_challenger.specs.{Bytes.AreWords, HashValueLaws.values-injective, Digests.values_of};

    type Field = Goldilocks;

    type Extension = Goldilocks;

    type Unit = FieldUnit<Goldilocks>;

    type Opaque = Hash<Goldilocks, u64, 4>;

    type Challenger = Challenger;

    type Codec = FieldToFieldCodec<Goldilocks>;

    type Accept = AcceptAll;

    type Digest = Keccak256Hasher;

    type Group = Both;

    ghost is_own = { λ digest. AreWords (values_of digest) };

    ghost alphabet = { lit< tt };

    ghost clones = { λ digest copy told. values-injective copy digest
        (each_same (values_of digest) (values_of copy) told.whole) };
}

/// The challenger.
pub type Challenger = SerializingChallenger64<Goldilocks, HashChallenger<u8, Keccak256Hasher, 32>>;

/// What binds a transcript to the protocol.
pub type Separator = DomainSeparator<FieldUnit<Goldilocks>, Keccak256Hasher>;

/// What both sides begin with: a challenger that observed nothing.
pub fn challenger(alloc: Global) -> Challenger {
    let inner = HashChallenger::new(Vec::new(alloc), Keccak256Hasher);
    Challenger::new(inner, 1000)
}

/// The steps, in order.
pub fn steps() -> [Step<Protocol>; 3] {
    [
        Step::Opaque {
            label: "digest",
            value: Hash::from([0, 0, 0, 4294967296]),
        },
        Step::PublicScalar {
            label: "scalar",
            value: Goldilocks::from_u64(9),
        },
        Step::ChallengeUniformBits {
            label: "index",
            width: 8,
            n: 2,
        },
    ]
}

/// The version and the name of the protocol, the pattern of its steps, and the instance.
pub fn separator<S: Suite>(
    alloc: Global,
    steps: &[Step<S>],
) -> Result<DomainSeparator<S::Unit, S::Digest>, TranscriptError> {
    let pattern = script::pattern::<S>(alloc, steps)?;
    DomainSeparator::new(alloc, 1, "words".as_bytes(), pattern)
}
